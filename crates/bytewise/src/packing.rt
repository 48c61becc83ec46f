// Answers packed into 64 bits, the number in the top 8.
ghost use Rattle.std.specs.Prelude.{◌≡◌, ◌*◌};
ghost use Rattle.layout.specs.Refusals.{refusal_number};
ghost use Rattle.stepping.specs.Answers.{told};
ghost use Rattle.bytewise.specs.Held.{numbered_as, packed_as};

use layout::refusal::Refusal;
use stepping::answer::Accepted;
use stepping::serial;

// The places of an answer's parts.
pub const NUMBER: u64 = 1 << 56;

pub(crate) const KIND: u64 = 1 << 48;

pub(crate) const FAULT: u64 = 1 << 40;

pub(crate) const SERIAL: u64 = 1 << 16;

// A refusal, with every other part 0.
pub fn refused(refusal: Refusal) -> u64
    ensures { result ≡ refusal_number refusal * NUMBER }
{
    u64::from(u8::from(refusal)) * NUMBER
}

// An answer that is one word.
pub fn numbered(given: Result<u16, Refusal>) -> u64
    ensures { result ≡ numbered_as given }
{
    match given {
        Ok(word) => u64::from(word),
        Err(refusal) => refused(refusal),
    }
}

// A step's answer: the number, kind and fault in 8 bits each, 8 zero, serial, 0 for none, and length in 16 each.
pub fn pack(given: Result<Accepted, Refusal>) -> u64
    ensures { result ≡ packed_as (told given) }
{
    match given {
        Ok(a) => {
            u64::from(u8::from(a.kind)) * KIND
                + u64::from(a.fault) * FAULT
                + u64::from(serial::number(a.serial)) * SERIAL
                + u64::from(a.length)
        }
        Err(refusal) => refused(refusal),
    }
}
