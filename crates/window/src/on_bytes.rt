// The window on bytes. Its words are held in an array of their own, and written back where an answer entered.
ghost use Rattle.std.specs.Prelude.{◌≡◌, ◌++◌, ◌+◌, ◌*◌, ◌≤◌, ◌<◌, length, drop, slice_index};
ghost use Rattle.window.specs.Window.{answer, count_as};
ghost use Rattle.window.specs.Bytes.{words_of, bytes_of, byte_number, byte_window, packed, byte_count};

use crate::answer::Answer;
use crate::calls::{count_among, words_after};
use crate::layout::{BYTES, WORDS};
use crate::refusal::Refusal;
use std::array;

// The word at place i, of two bytes, the high one first.
fn word(bytes: &[u8; BYTES], i: usize) -> u16
    requires { i < WORDS }
    ensures { result ≡ slice_index bytes.now (2 * i) * 256 + slice_index bytes.now (2 * i + 1) }
{
    u16::from_be_bytes([bytes[2 * i], bytes[2 * i + 1]])
}

fn words_in(bytes: &[u8; BYTES]) -> [u16; WORDS]
    ensures { result ≡ words_of bytes.now }
{
    array::from_fn(|i| word(bytes, i))
}

// `put` and `pack` are `bytewise`'s `spread` and `numbered`. This crate stands on none, and so is checked alone: `bytewise` would bring the
// fifteen crates under it, and its `numbered` answers `layout`'s refusals, not this crate's one.

// The bytes of the words, over the first. By a loop: `map` of so long an array took most of a call's time.
#[tactic(auto, using(crate::proofs::Spreading::spread_none, crate::proofs::Spreading::spread_turn))]
fn put(words: &[u16; WORDS], out: &mut [u8])
    requires { BYTES ≤ length out.old }
    ensures { out.new ≡ bytes_of words.now ++ drop BYTES out.old }
{
    for (i, word) in words.iter().enumerate() {
        out[2 * i..2 * i + 2].copy_from_slice(&word.to_be_bytes());
    }
}

// Hands an answer on. A refusal, and an answer whose number is not 0, change no byte.
// Numbers in and out, where `window_next` has an answer and a result: this is what C calls.
pub fn next_bytes(width: u16, number: u8, fault: u8, operation: u16, window: &mut [u8]) -> u8
    ensures { (result ≡ byte_number width (answer number fault operation) window.old) × (window.new ≡ byte_window width (answer number fault operation) window.old) }
{
    let Some((bytes, _)) = window.split_first_chunk() else {
        return u8::from(Refusal);
    };
    let answer = Answer {
        number,
        fault,
        operation,
    };
    match words_after(width, answer, words_in(bytes)) {
        Ok(None) => 0,
        Ok(Some(words)) => {
            put(&words, window);
            0
        }
        Err(refusal) => u8::from(refusal),
    }
}

// The place of the number in a packed count.
const NUMBER: u64 = 1 << 56;

#[tactic(auto, unfolding(crate::specs::Bytes::packed))]
fn pack(count: Result<u16, Refusal>) -> u64
    ensures { result ≡ packed (count_as count) }
{
    match count {
        Ok(count) => u64::from(count),
        Err(refusal) => u64::from(u8::from(refusal)) * NUMBER,
    }
}

// The faults of an operation in the window: from the top, the number in 8 bits, 40 zero, the count in 16.
// One number, where `window_count` has a result: this is what C calls.
pub fn count_bytes(operation: u16, window: &[u8]) -> u64
    ensures { result ≡ byte_count operation window.now }
{
    let Some((bytes, _)) = window.split_first_chunk() else {
        return pack(Err(Refusal));
    };
    pack(count_among(operation, words_in(bytes)))
}
