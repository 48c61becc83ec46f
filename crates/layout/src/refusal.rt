// What a call refuses with, by name and by number.
ghost use Rattle.std.specs.Prelude.{◌≡◌, Some};
ghost use Rattle.layout.specs.Refusals.{refusal_number, number_in, text_of};

use std::error::Error;
use std::fmt;

#[derive(Clone, Copy, Debug, PartialEq, Eq)]
pub enum Refusal {
    // The configuration is not readable.
    Unreadable = 1,
    // No such engine, or no enabled process begins at the position.
    NoProcess = 2,
    // The process cannot move so.
    NoMove = 3,
    // As `NoProcess`, for the second engine and position.
    NoPartner = 4,
    // The two do not fit each other, or the branch does not.
    NoFit = 5,
    // The fault meets a side that cannot be killed yet.
    Pending = 6,
    // A solicit when all serials are issued.
    SerialsSpent = 7,
    // The result would be too deep.
    TooDeep = 8,
    // The result would be too long.
    TooLong = 9,
    // The output is shorter than the result.
    OutputShort = 10,
    // Readable, but not a start; a newcomer that is not readable and fresh.
    NotFresh = 11,
    // The serial is 0 or above issued.
    NoSerial = 12,
    // An operand of a decimal operator has a digit above 9.
    NotDecimal = 13,
    // The journal is cut or does not match, or what it restores is not readable.
    Unmatched = 15,
    // The journal lent is too short.
    JournalShort = 16,
    // The index is too short or not in order.
    NoIndex = 17,
    // There are as many engines as there may be.
    Full = 21,
    // The last engine is the only one, is not at its end, or is named elsewhere.
    AtWork = 22,
}

// The number that the calls for C answer.
impl From<Refusal> for u8 {
    ghost from_gives = { λ refusal n. n ≡ refusal_number refusal };

    fn from(refusal: Refusal) -> u8 {
        refusal as u8
    }
}

// 0 where nothing is refused.
pub fn number(answer: Result<(), Refusal>) -> u8
    ensures { result ≡ number_in answer }
{
    match answer {
        Ok(()) => 0,
        Err(refusal) => refusal.into(),
    }
}

// The words of documents 01 and 02.
impl fmt::Display for Refusal {
    ghost output = { λ refusal. Some (text_of refusal) };

    fn fmt<W: fmt::Write>(&self, f: &mut fmt::Formatter<W>) -> fmt::Result {
        f.write_str(match self {
            Refusal::Unreadable => "unreadable",
            Refusal::NoProcess => "nobody there",
            Refusal::NoMove => "no move",
            Refusal::NoPartner => "no partner",
            Refusal::NoFit => "no fit",
            Refusal::Pending => "installing",
            Refusal::SerialsSpent => "serials spent",
            Refusal::TooDeep => "deep",
            Refusal::TooLong => "long",
            Refusal::OutputShort => "short paper",
            Refusal::NotFresh => "not fresh",
            Refusal::NoSerial => "unknown serial",
            Refusal::NotDecimal => "not decimal",
            Refusal::Unmatched => "journal doesn't match",
            Refusal::JournalShort => "journal short",
            Refusal::NoIndex => "index short",
            Refusal::Full => "house full",
            Refusal::AtWork => "still at work",
        })
    }
}

impl Error for Refusal {}
