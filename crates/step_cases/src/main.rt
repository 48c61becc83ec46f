// Reads cases on standard input and prints, a line each, what the step answers: its number, kind, serial, fault and length, and a sum over
// all words of the output. A case is, in words of two bytes, high first: the count of words, the step's five numbers, the output's
// length, then the words.
#![tactic(auto)]

ghost use Rattle.std.specs.Prelude.{◌≡◌, OnOk};
ghost use Rattle.std.specs.Io.KnownBytes.{Appends};
ghost use Rattle.sock.specs.Configuration.{standard};
ghost use Rattle.sock.specs.Calls.{step_answer, step_output};
ghost use Rattle.step_cases.specs.Lent.{numbers_of, lent_output, answer_line};

use bytewise::words::held;
use cases::{read_case, sum, word};
use std::io;
use std::io::{Read, Write};
use stepping::bundles::Numbers;
use stepping::serial;

// How many words a case has at most, how many bytes stand before them, and how many bytes there are in all.
const MOST: usize = 8200;

const HEAD: usize = 14;

const ROOM: usize = HEAD + 2 * MOST;

// What the output holds before the step.
const UNWRITTEN: u16 = 42405;

// What the step answers on these words, and the sum over its output.
#[tactic(auto, unfolding(crate::specs::Lent::numbers_of))]
fn answer<W: Write>(output: &mut W, ws: &[u16], head: [u8; HEAD], out: &mut [u16]) -> io::Result<()>
    ensures out { out.new ≡ step_output standard ws.now (numbers_of head) out.old }
    ensures printed { OnOk result (Appends (W.contents output.old) (W.contents output.new) (answer_line (step_answer standard ws.now (numbers_of head) out.old) (step_output standard ws.now (numbers_of head) out.old))) }
{
    let k = Numbers {
        engine: word(head[2], head[3]),
        position: word(head[4], head[5]),
        second: word(head[6], head[7]),
        second_position: word(head[8], head[9]),
        branch: word(head[10], head[11]),
    };
    let (number, kind, serial, fault, length) = match stepping::steps::step(ws, k, out) {
        Ok(a) => (
            0,
            u8::from(a.kind),
            serial::number(a.serial),
            u8::from(a.fault),
            a.length,
        ),
        Err(refusal) => (u8::from(refusal), 0, 0, 0, 0),
    };
    writeln!(
        output,
        "{number} {kind} {serial} {fault} {length} {}",
        sum(out),
    )
}

// The step with an output of `room` words; none, where there is no such room.
#[tactic(auto, unfolding(crate::specs::Lent::lent_output))]
fn lend<W: Write>(
    output: &mut W,
    ws: &[u16],
    head: [u8; HEAD],
    out: &mut [u16],
    room: usize,
) -> io::Result<()>
    ensures { out.new ≡ lent_output ws.now head room out.old }
{
    if out.len() < room {
        return Ok(());
    }
    answer(output, ws, head, &mut out[..room])
}

// A case: the step on its words.
fn turn<W: Write>(output: &mut W, case: &[u8]) -> io::Result<()> {
    let Some((head, bytes)) = case.split_first_chunk::<HEAD>() else {
        return Ok(());
    };
    let mut ws = [0u16; MOST];
    let ws = held(bytes, &mut ws);
    let mut out = [UNWRITTEN; MOST];
    let room = usize::from(word(head[12], head[13]));
    lend(output, ws, *head, &mut out, room)
}

fn main(rt: HostRuntime) -> io::Result<()> {
    let mut input = rt.stdin();
    let mut output = rt.stdout();
    let mut bytes = [0u8; ROOM];
    for _ in 0..u64::MAX {
        match read_case(&mut input, HEAD, &mut bytes)? {
            None => break,
            Some(size) => turn(&mut output, &bytes[..size])?,
        }
    }
    Ok(())
}
