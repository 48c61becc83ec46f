// Why the call keeper refuses, by name and by number: as the other calls refuse, or for what this call alone looks at.
ghost use Rattle.std.specs.Prelude.{◌≡◌, Some};
ghost use Rattle.keeper.specs.Answers.{refusal_number, text_of};
ghost use Rattle.keeper.specs.declared.refusal.Refusal.TheVariants.{Plain};

use layout::refusal;
use std::error::Error;
use std::fmt;

#[derive(Clone, Copy, Debug, PartialEq, Eq)]
pub enum Refusal {
    Plain(refusal::Refusal),
    // More than six.
    TooManyMoves,
}

impl From<refusal::Refusal> for Refusal {
    ghost from_gives = { λ plain refusal. refusal ≡ Plain plain };

    fn from(plain: refusal::Refusal) -> Refusal {
        Refusal::Plain(plain)
    }
}

// The number that the call for C answers.
impl From<Refusal> for u8 {
    ghost from_gives = { λ refusal n. n ≡ refusal_number refusal };

    fn from(refusal: Refusal) -> u8 {
        match refusal {
            Refusal::Plain(plain) => plain.into(),
            Refusal::TooManyMoves => 23,
        }
    }
}

// The words of documents 01 and 02.
impl fmt::Display for Refusal {
    ghost output = { λ refusal. Some (text_of refusal) };

    fn fmt<W: fmt::Write>(&self, f: &mut fmt::Formatter<W>) -> fmt::Result {
        match self {
            Refusal::Plain(plain) => write!(f, "{plain}"),
            Refusal::TooManyMoves => f.write_str("too many moves"),
        }
    }
}

impl Error for Refusal {}
