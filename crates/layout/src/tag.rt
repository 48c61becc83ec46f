// What an expression is.
ghost use Rattle.std.specs.Prelude.{◌≡◌};
ghost use Rattle.sock.specs.Words.{tag_of};
ghost use Rattle.layout.specs.Kinds.{tag_named};

use crate::number::wide;
use crate::unit;

// A constant, a variable, or an operator of two operands.
#[derive(Clone, Copy, Debug, PartialEq, Eq)]
pub enum Tag {
    Constant,
    Variable,
    Sum,
    Difference,
    Less,
    Equal,
    DecimalSum,
    DecimalDifference,
}

impl Tag {
    // What the expression that begins with the word w is: its first three bits.
    pub fn of(w: u16) -> Tag
        ensures { result ≡ tag_named (tag_of w) }
    {
        match wide(w) / unit::TAG {
            0 => Tag::Constant,
            1 => Tag::Variable,
            2 => Tag::Sum,
            3 => Tag::Difference,
            4 => Tag::Less,
            5 => Tag::Equal,
            6 => Tag::DecimalSum,
            _ => Tag::DecimalDifference,
        }
    }
}
