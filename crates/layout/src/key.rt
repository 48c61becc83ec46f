// Keys of a list of handlers: faults first, from here on scopes.
pub const SCOPE_KEYS: usize = 64;

// Above every key: none is wanted, or none is there.
pub const NO_KEY: usize = 128;
