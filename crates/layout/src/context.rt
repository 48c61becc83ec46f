// Where a process stands, as one number: 4 times the stratum (0 code, 1 code that may hold cH, 2 what runs) plus the place (0 anywhere,
// 1 not nil, 2 the receiver of a branch, 3 a root). Numbers, since a survey takes any; the
// reader has a type of its own for those that it hands on (`reading::context`).
pub const CODE: usize = 0;

pub const HANDLERS: usize = 4;

pub const RUNNING: usize = 8;

// Strata are this far apart.
pub const STRATUM: usize = 4;

// The places, added to a stratum.
pub const NOT_NIL: usize = 1;

pub const RECEIVER: usize = 2;

// Roots: of an engine that has not begun, and of one that runs.
pub const FRESH_ROOT: usize = 3;

pub const ROOT: usize = 11;

// No process stands from here on.
pub const CONTEXTS: usize = 12;
