// Numbers of a range: the widths of a window, the operations and the entries.
ghost use Rattle.std.specs.Prelude.{◌≡◌, ◌≤◌, MatchResult};

use crate::layout::{OPERATIONS, WIDEST};
use crate::refusal::Refusal;

#[derive(Clone, Copy)]
pub(crate) struct Within<const LEAST: u16, const MOST: u16> {
    pub(crate) number: u16,
    ghost least: { LEAST ≤ number },
    ghost most: { number ≤ MOST },
}

impl<const LEAST: u16, const MOST: u16> TryFrom<u16> for Within<LEAST, MOST> {
    type Error = Refusal;

    ghost try_from_gives = { λ number r. MatchResult r (λ within. within.number ≡ number) (λ _. ¬ ((LEAST ≤ number) × (number ≤ MOST))) };

    fn try_from(number: u16) -> Result<Self, Refusal> {
        if number < LEAST || MOST < number {
            return Err(Refusal);
        }
        Ok(Within { number })
    }
}

const LAST_OPERATION: u16 = OPERATIONS as u16 - 1;

const LAST_ENTRY: u16 = OPERATIONS as u16;

pub(crate) type Width = Within<1, WIDEST>;

pub(crate) type Operation = Within<0, LAST_OPERATION>;

// The operation plus 1 of a fault, 0 where none was delivered.
pub(crate) type Entry = Within<0, LAST_ENTRY>;
