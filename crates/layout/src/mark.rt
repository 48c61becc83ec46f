// A scope's mark: none, a fault to be handled, its own name.
ghost use Rattle.std.specs.Prelude.{◌≡◌};
ghost use Rattle.sock.specs.Words.{mark_of};
ghost use Rattle.layout.specs.Kinds.{mark_named, mark_number};

use crate::number::wide;
use crate::unit;

// The two bits after a scope's name; `Unused` for the number that is no mark.
#[derive(Clone, Copy, Debug, PartialEq, Eq)]
pub enum Mark {
    Unmarked,
    Faulted,
    OwnName,
    Unused,
}

impl Mark {
    // The mark with a number; of all numbers, so that who has one may ask.
    pub fn numbered(number: usize) -> Mark
        ensures { result ≡ mark_named number }
    {
        match number {
            0 => Mark::Unmarked,
            1 => Mark::Faulted,
            2 => Mark::OwnName,
            _ => Mark::Unused,
        }
    }

    // The mark of the scope with the head h.
    pub fn of(h: u16) -> Mark
        ensures { result ≡ mark_named (mark_of h) }
    {
        Mark::numbered(wide(h) / unit::MARK % unit::MARKS)
    }
}

impl From<Mark> for u16 {
    ghost from_gives = { λ mark n. n ≡ mark_number mark };

    fn from(mark: Mark) -> u16 {
        mark as u16
    }
}
