// The limits of a configuration (document 01: depth at most 64, at most 8,192 words), and the fuel of walks, which is another thing: walks over
// what was read go down as many levels as the largest limit allows.
ghost use Rattle.std.specs.Prelude.{◌≡◌};
ghost use Rattle.sock.specs.Configuration.{standard};
ghost use Rattle.layout.specs.Limits.{figures};

#[derive(Clone, Copy)]
pub struct Limits {
    pub deepest: usize,
    pub longest: usize,
}

// The standard limits.
pub const DEEPEST: usize = 64;

pub const LONGEST: usize = 8192;

pub const STANDARD: Limits = Limits {
    deepest: DEEPEST,
    longest: LONGEST,
};

pub fn standard() -> Limits
    ensures { figures result ≡ standard }
{
    STANDARD
}

// The limits of the swing bridge cabinet (document 02, i).
pub const SMALL_DEEPEST: usize = 32;

pub const SMALL_LONGEST: usize = 2048;

pub const SMALL: Limits = Limits {
    deepest: SMALL_DEEPEST,
    longest: SMALL_LONGEST,
};

// What a process that changes is held to: the limits, and which engines and serials its ends may name, as the reader takes it.
#[derive(Clone, Copy)]
pub struct Bounds {
    pub limits: Limits,
    pub ends: usize,
}

// How many levels a walk goes down: no configuration that was read has more.
pub const FUEL: usize = 64;

// How many engines a configuration may have, and branches a choice.
pub const ENGINES: usize = 8;

pub const BRANCHES: usize = 8;

// How many variables a list of a message may have.
pub const MESSAGE: usize = 4;

// How many words stand before the first engine: n and issued.
pub const HEADER: usize = 2;

// How many words an engine's values take, before its process: two for each of its variables.
pub const VALUES: usize = 64;

pub const VARIABLES: usize = 32;
