// The worth of a field's lowest bit, by the names of `field`: dividing by it takes away what stands below the field, and where the field is a
// word's last, the bits below have to be 0.
pub const KIND: usize = 2048;

// The variable in a head's last bits: a head modulo this.
pub const SECOND: usize = 32;

pub const MARK: usize = 8;

pub const ZOMBIE: usize = 4;

pub const FIRST_VARIABLE: usize = 2048;

pub const NEXT_VARIABLE: usize = 64;

pub const FIRST_NAME: usize = 1024;

pub const EXECUTORS_CLIENT: usize = 8192;

pub const WAITERS_SERVER: usize = 4096;

pub const NOTICES_CLIENT: usize = 128;

pub const KEY: usize = 512;

pub const TAG: usize = 8192;

pub const READ_VARIABLE: usize = 256;

// A mark has two bits.
pub const MARKS: usize = 4;

// A word is below this.
pub const WORD: usize = 65536;
