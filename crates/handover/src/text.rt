// The lines that are printed.
ghost use Rattle.std.specs.Prelude.{◌≡◌, OnOk};
ghost use Rattle.std.specs.Io.KnownBytes.{Appends};
ghost use Rattle.sock.specs.Bytes.{start_line, end_line, cut_line, step_line};
ghost use Rattle.layout.specs.Refusals.{number_in};
ghost use Rattle.stepping.specs.Answers.{told};

use crate::line::Line;
use layout::refusal::{self, Refusal};
use std::io;
use std::io::Write;
use stepping::answer::Accepted;
use stepping::serial;

// "start" and the check's number.
#[tactic(auto, using(crate::proofs::Lines::start_is))]
pub(crate) fn start_line(given: Result<(), Refusal>) -> Line
    ensures { result ≡ start_line (number_in given) }
{
    let mut line = Line::new();
    line.text(b"start ");
    line.field(refusal::number(given), b'\n');
    line
}

// "end" and the words of the configuration.
#[tactic(auto, using(crate::proofs::Lines::end_is))]
pub(crate) fn end_line(words: usize) -> Line
    ensures { result ≡ end_line words }
{
    let mut line = Line::new();
    line.text(b"end ");
    line.field(words, b'\n');
    line
}

#[tactic(auto, unfolding(sock::specs::Bytes::cut_line))]
pub(crate) fn cut_line() -> Line
    ensures { result ≡ cut_line }
{
    let mut line = Line::new();
    line.text(b"cut\n");
    line
}

// What a step's line has of its answer: the number, kind, serial and fault, all other numbers of a refusal 0.
fn parts(given: Result<Accepted, Refusal>) -> (u8, u8, u16, u8)
    ensures { (result.0 ≡ (told given).number) × (result.1 ≡ (told given).kind) × (result.2 ≡ (told given).serial) × (result.3 ≡ (told given).fault) }
{
    match given {
        Ok(a) => (
            0,
            u8::from(a.kind),
            serial::number(a.serial),
            u8::from(a.fault),
        ),
        Err(refusal) => (u8::from(refusal), 0, 0, 0),
    }
}

// The step's number and what it answers.
pub(crate) fn step_line(number: u64, given: Result<Accepted, Refusal>) -> Line
    ensures { result ≡ step_line number (told given) }
{
    let (refusal, kind, serial, fault) = parts(given);
    let mut line = Line::new();
    line.field(number, b' ');
    line.field(refusal, b' ');
    line.field(kind, b' ');
    line.field(serial, b' ');
    line.field(fault, b'\n');
    line
}

// By one write.
pub(crate) fn print<W: Write>(output: &mut W, line: &Line) -> io::Result<()>
    ensures { OnOk result (Appends (W.contents output.old) (W.contents output.new) line.now) }
{
    output.write_all(line.as_bytes())
}
