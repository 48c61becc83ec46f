// The program handover: reads a configuration and steps on standard input and prints what the start check and each step answer. What is
// printed, and when to stop, is decided by functions without input or output, which cannot fail. What the whole does is proved of any reader
// and writer that tell their bytes; standard input and output tell none.
#![tactic(auto)]

mod line;
mod run;
mod start;
mod state;
mod text;

ghost use Rattle.std.specs.Prelude.{◌<◌, length, IfSome, OnOk};
ghost use Rattle.std.specs.Io.KnownBytes.{Appends};
ghost use Rattle.sock.specs.Bytes as bytes;
ghost use Rattle.handover.specs.Printed.{most_steps};

use line::Said;
use run::steps;
use start::{begin, read_words};
use std::io;
use std::io::{Read, Write};
use text::print;

// The whole text.
fn handover<R: Read, W: Write>(input: &mut R, output: &mut W) -> io::Result<()>
    ensures { OnOk result (IfSome (R.remaining input.old) (λ given. length given < most_steps → Appends (W.contents output.old) (W.contents output.new) (bytes.handover given))) }
{
    let words = read_words(input)?;
    match begin(&words) {
        Said::More(line) => {
            print(output, &line)?;
            steps(input, output, words)
        }
        Said::Last(line) => print(output, &line),
    }
}

fn main(rt: HostRuntime) -> io::Result<()> {
    handover(&mut rt.stdin(), &mut rt.stdout())
}
