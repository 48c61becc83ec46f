// The nineteen kinds of process by name, as `Kind` of the definitions has them.
ghost use Rattle.std.specs.Prelude.{◌≡◌};
ghost use Rattle.sock.specs.Words.{kind_of};
ghost use Rattle.layout.specs.Kinds.{kind_named, number_of};

use crate::number::wide;
use crate::unit;

// What the first five bits of a head say; `Unused` for the numbers that no kind has.
#[derive(Clone, Copy, Debug, PartialEq, Eq)]
pub enum Kind {
    Nil,
    Assign,
    Seq,
    Par,
    If,
    While,
    Choice,
    OneWay,
    Request,
    Notify,
    Solicit,
    Scope,
    Inst,
    Throw,
    Comp,
    Ch,
    Executor,
    Waiter,
    Notice,
    Unused,
}

impl Kind {
    // The kind with a number; of all numbers, so that who has one may ask.
    pub fn numbered(number: usize) -> Kind
        ensures { result ≡ kind_named number }
    {
        match number {
            0 => Kind::Nil,
            1 => Kind::Assign,
            2 => Kind::Seq,
            3 => Kind::Par,
            4 => Kind::If,
            5 => Kind::While,
            6 => Kind::Choice,
            7 => Kind::OneWay,
            8 => Kind::Request,
            9 => Kind::Notify,
            10 => Kind::Solicit,
            11 => Kind::Scope,
            12 => Kind::Inst,
            13 => Kind::Throw,
            14 => Kind::Comp,
            15 => Kind::Ch,
            16 => Kind::Executor,
            17 => Kind::Waiter,
            18 => Kind::Notice,
            _ => Kind::Unused,
        }
    }

    // The kind of the process with the head h.
    pub fn of(h: u16) -> Kind
        ensures { result ≡ kind_named (kind_of h) }
    {
        Kind::numbered(wide(h) / unit::KIND)
    }
}

// Its number, as the calls answer it.
impl From<Kind> for u8 {
    ghost from_gives = { λ kind n. n ≡ number_of kind };

    fn from(kind: Kind) -> u8 {
        kind as u8
    }
}
