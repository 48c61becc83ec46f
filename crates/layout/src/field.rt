// The fields of heads, fixed words, keys and expressions (document 01, "Words"), each as `Words` of the definitions has it.
ghost use Rattle.std.specs.Prelude.{◌≡◌, ◌<◌, leb, eqb};
ghost use Rattle.sock.specs.Words.{count_of, variable_of, name_of, second_of, zombie_of, first_variable, next_variable, first_name, executors_client, dead_of, waiters_server, notices_client, key_of, key_word, scope_key, read_variable, value_of, high_word, low_word};

use crate::number::wide;

// The 11 bits after the kind: a choice's count.
pub fn count_of(h: u16) -> usize
    ensures { (result ≡ count_of h) × (result < 2048) }
{
    wide(h) % 2048
}

// The 5 bits after the kind: an assign's variable.
pub fn variable_of(h: u16) -> usize
    ensures { (result ≡ variable_of h) × (result < 32) }
{
    wide(h) / 64 % 32
}

// The 6 bits after the kind: an operation or a name.
pub fn name_of(h: u16) -> usize
    ensures { (result ≡ name_of h) × (result < 64) }
{
    wide(h) / 32 % 64
}

// The 5 bits after those: the variable x or y.
pub fn second_of(h: u16) -> usize
    ensures { (result ≡ second_of h) × (result < 32) }
{
    wide(h) % 32
}

// Whether the bit after a scope's mark says that it is a zombie.
pub fn is_zombie(h: u16) -> bool
    ensures { result ≡ eqb (zombie_of h) 1 }
{
    h / 4 % 2 == 1
}

// A variable in the first 5 bits: a request's y, z.
pub fn first_variable(w: u16) -> usize
    ensures { (result ≡ first_variable w) × (result < 32) }
{
    wide(w) / 2048
}

// A variable in the next 5 bits: a solicit's x.
pub fn next_variable(w: u16) -> usize
    ensures { (result ≡ next_variable w) × (result < 32) }
{
    wide(w) / 64 % 32
}

// A name in the first 6 bits: a marked fault, a notice's fault.
pub fn first_name(w: u16) -> usize
    ensures { (result ≡ first_name w) × (result < 64) }
{
    wide(w) / 1024
}

// An executor's client engine.
pub fn executors_client(w: u16) -> usize
    ensures { (result ≡ executors_client w) × (result < 8) }
{
    wide(w) / 8192
}

// Whether a waiter's word says that it is dead.
pub fn is_dead(w: u16) -> bool
    ensures { result ≡ eqb (dead_of w) 1 }
{
    w / 32768 == 1
}

// A waiter's server engine.
pub fn waiters_server(w: u16) -> usize
    ensures { (result ≡ waiters_server w) × (result < 8) }
{
    wide(w) / 4096 % 8
}

// A notice's client engine.
pub fn notices_client(w: u16) -> usize
    ensures { (result ≡ notices_client w) × (result < 8) }
{
    wide(w) / 128 % 8
}

// A key word's key: 0 to 63 a fault, 64 to 127 a scope.
pub fn key_of(w: u16) -> usize
    ensures { (result ≡ key_of w) × (result < 128) }
{
    wide(w) / 512
}

// The key of the scope with the head h.
pub fn scope_key(h: u16) -> usize
    ensures { (result ≡ scope_key (name_of h)) × (result < 128) }
{
    64 + wide(h) / 32 % 64
}

// The fault that the throw with the head h throws, as a word.
pub fn fault_of(h: u16) -> u16
    ensures { (result ≡ name_of h) × (result < 64) }
{
    h / 32 % 64
}

// A value's words, high word first. There is no `From` to fewer bits, so these are casts.
pub fn high_word(v: u32) -> u16
    ensures { result ≡ high_word v }
{
    (v / 65536) as u16
}

pub fn low_word(v: u32) -> u16
    ensures { result ≡ low_word v }
{
    (v % 65536) as u16
}

// Whether a key word is a scope's.
pub fn is_scope_key(w: u16) -> bool
    ensures { result ≡ leb (key_word (scope_key 0)) w }
{
    32768 <= w
}

// The variable that an expression reads.
pub fn read_variable(w: u16) -> usize
    ensures { (result ≡ read_variable w) × (result < 32) }
{
    wide(w) / 256 % 32
}

// A value, from its two words.
pub fn value_of(high: u16, low: u16) -> u32
    ensures { result ≡ value_of high low }
{
    u32::from(high) * 65536 + u32::from(low)
}
