// Reads cases on standard input and prints, a line each, what the five calls that only read answer: readable check, start check, ends (number,
// waiters, workers), of the engine's process the count of words and a sum over them, and pending (number, found, count). A case is, in words of two
// bytes, high first: the count of words, a serial, an engine, a position, then the words.
#![tactic(auto)]

ghost use Rattle.std.specs.Prelude.{OnOk};
ghost use Rattle.std.specs.Io.KnownBytes.{Appends};
ghost use Rattle.reading_cases.specs.Printed.{answers_line};

use bytewise::words::held;
use cases::{read_case, sum, word};
use layout::refusal::number;
use reading::calls::{check_readable, check_start, process_of};
use reading::ends::ends;
use searching::call::pending_at;
use std::io;
use std::io::{Read, Write};

// How many words a case has at most, how many bytes stand before them, and how many bytes there are in all.
const MOST: usize = 8200;

const HEAD: usize = 8;

const ROOM: usize = HEAD + 2 * MOST;

// What the calls answer on these words.
fn answer<W: Write>(
    output: &mut W,
    ws: &[u16],
    serial: u16,
    engine: u16,
    position: u16,
) -> io::Result<()>
    ensures { OnOk result (Appends (W.contents output.old) (W.contents output.new) (answers_line ws.now serial engine position)) }
{
    let (refused, waiters, workers) = match ends(ws, serial) {
        Ok(e) => (0, e.waiters, e.workers),
        Err(refusal) => (u8::from(refusal), 0, 0),
    };
    let process = process_of(ws, engine);
    let (unsought, found, count) = match pending_at(ws, engine, position) {
        Ok(p) => (0, p.found, p.count),
        Err(refusal) => (u8::from(refusal), false, 0),
    };
    writeln!(
        output,
        "{} {} {} {} {} {} {} {} {} {}",
        number(check_readable(ws)),
        number(check_start(ws)),
        refused,
        waiters,
        workers,
        process.len(),
        sum(process),
        unsought,
        u8::from(found),
        count,
    )
}

// A case: what the calls answer on its words.
fn turn<W: Write>(output: &mut W, case: &[u8]) -> io::Result<()> {
    let Some((head, bytes)) = case.split_first_chunk::<HEAD>() else {
        return Ok(());
    };
    let mut ws = [0u16; MOST];
    let ws = held(bytes, &mut ws);
    answer(
        output,
        ws,
        word(head[2], head[3]),
        word(head[4], head[5]),
        word(head[6], head[7]),
    )
}

fn main(rt: HostRuntime) -> io::Result<()> {
    let mut input = rt.stdin();
    let mut output = rt.stdout();
    let mut bytes = [0u8; ROOM];
    for _ in 0..u64::MAX {
        match read_case(&mut input, HEAD, &mut bytes)? {
            None => break,
            Some(size) => turn(&mut output, &bytes[..size])?,
        }
    }
    Ok(())
}
