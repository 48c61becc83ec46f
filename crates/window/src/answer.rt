// The answer of a step that is handed on.
ghost use Rattle.std.specs.Prelude.{◌≡◌};
ghost use Rattle.window.specs.Window.{answer};
ghost use Rattle.window.specs.Window as specs;

use crate::bounded::{Entry, Operation, Within};

// The number of an accepted answer.
pub const ACCEPTED: u8 = 0;

// The fault number of a fault that was delivered.
pub const DELIVERED: u8 = 1;

// A step's number and fault, with the operation concerned. Numbers, since any that a step answered is handed on, from C too.
#[derive(Clone, Copy, Debug, PartialEq, Eq)]
pub struct Answer {
    pub number: u8,
    pub fault: u8,
    pub operation: u16,
}

// The entry of an accepted answer: its operation plus 1 if a fault was delivered, else 0.
#[tactic(auto, unfolding(crate::specs::Window::entry))]
pub(crate) fn entry(fault: u8, operation: Operation) -> Entry
    ensures { result.number ≡ specs.entry (answer 0 fault operation.number) }
{
    let number = if fault == DELIVERED {
        operation.number + 1
    } else {
        0
    };
    Within { number }
}
