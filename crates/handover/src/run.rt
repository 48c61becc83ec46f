// The run: the steps, each read as it comes and its line written at once, and the last line.
ghost use Rattle.std.specs.Prelude.{◌≡◌, ltb, length, IfSome, OnOk};
ghost use Rattle.std.specs.Io.KnownBytes.{Appends};
ghost use Rattle.handover.specs.Printed.{last_line, turn_line, turn_words, steps_text, most_steps};
ghost use Rattle.handover.specs.Lines.{line_of, is_last};

use crate::line::{Line, Said};
use crate::state::{STEP_SIZE, Words};
use crate::text::{cut_line, end_line, print, step_line};
use cases::read_full;
use std::io;
use std::io::{Read, Write};

// "end" and the number of words where no bytes are left, else "cut".
#[tactic(auto, using(crate::proofs::Turning::last_end, crate::proofs::Turning::last_cut))]
fn last_line(words: usize, bytes: &[u8]) -> Line
    ensures { result ≡ last_line words bytes.now }
{
    if bytes.is_empty() {
        end_line(words)
    } else {
        cut_line()
    }
}

// What the bytes of a step print, ten or what is left, and the words that the next step reads.
fn turn(words: &mut Words, number: u64, bytes: &[u8]) -> Said
    ensures line { line_of result ≡ turn_line number words.old bytes.now }
    ensures words { words.new ≡ turn_words words.old bytes.now }
    ensures last { is_last result ≡ ltb (length bytes.now) 10 }
{
    match bytes.first_chunk::<STEP_SIZE>() {
        Some(step) => {
            let given = words.advance(step);
            Said::More(step_line(number, given))
        }
        None => Said::Last(last_line(words.as_slice().len(), bytes)),
    }
}

// The lines of the steps and the last one. The step number never comes to its largest value.
pub(crate) fn steps<R: Read, W: Write>(
    input: &mut R,
    output: &mut W,
    mut words: Words,
) -> io::Result<()>
    ensures { OnOk result (IfSome (R.remaining input.old) (λ bytes. Appends (W.contents output.old) (W.contents output.new) (steps_text most_steps 1 words bytes))) }
{
    for number in 1..u64::MAX {
        let mut bytes = [0u8; STEP_SIZE];
        let got = read_full(input, &mut bytes)?;
        match turn(&mut words, number, &bytes[..got]) {
            Said::More(line) => print(output, &line)?,
            Said::Last(line) => return print(output, &line),
        }
    }
    Ok(())
}
