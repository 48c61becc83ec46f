// The words of a window: a count for each operation, how many entries are held, the entries, oldest first, and zeros behind.

pub(crate) const OPERATIONS: usize = 64;

// How many answers a window holds at most.
pub(crate) const WIDEST: u16 = 1024;

// The place of the word that says how many entries are held.
pub(crate) const HELD: usize = OPERATIONS;

// The place of the oldest entry.
pub(crate) const FIRST: usize = HELD + 1;

pub(crate) const WORDS: usize = FIRST + WIDEST as usize;

// A word is two bytes, the high one first.
pub(crate) const BYTES: usize = 2 * WORDS;
