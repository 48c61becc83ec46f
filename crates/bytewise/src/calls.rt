// The calls on bytes.
ghost use Rattle.std.specs.Prelude.{◌≡◌};
ghost use Rattle.sock.specs.Bytes.{byte_check_readable, byte_check_start, byte_ends, packed_ends, packed_part, byte_process};
ghost use Rattle.sock.specs.Configuration.{standard};
ghost use Rattle.sock.specs.Calls.{process_part};
ghost use Rattle.sock.specs.Pending.{byte_pending, packed_pending};
ghost use Rattle.reading.specs.Answers.{counts_in, starts_of};
ghost use Rattle.reading.specs.Survey.{surveyed};
ghost use Rattle.searching.specs.Answers.{pending_as};

use crate::packing::refused;
use crate::words::held;
use layout::context::ROOT;
use layout::limit::{LONGEST, STANDARD};
use layout::number::wide;
use layout::refusal::{Refusal, number};
use reading::ends::EndCounts;
use reading::starts::Starts;
use reading::survey::survey;
use searching::call::{Pending, pending_at};

// The places of two counts, of whether a process was found, and of a first word.
const WAITERS: u64 = 1 << 16;

const FOUND: u64 = 1 << 48;

const FIRST: u64 = 1 << 32;

// Readable check: 0, or 1 if the configuration is not readable.
#[tactic(auto, using(crate::proofs::Holding::readable_as))]
pub fn check_readable(config: &[u8]) -> u8
    ensures { result ≡ byte_check_readable standard config.now }
{
    let mut scratch = [0u16; LONGEST];
    number(reading::calls::check_readable(held(config, &mut scratch)))
}

// Start check: 1 if the configuration is not readable, 11 if it is not fresh, else 0.
#[tactic(auto, using(crate::proofs::Holding::start_as))]
pub fn check_start(config: &[u8]) -> u8
    ensures { result ≡ byte_check_start standard config.now }
{
    let mut scratch = [0u16; LONGEST];
    number(reading::calls::check_start(held(config, &mut scratch)))
}

#[tactic(auto, unfolding(sock::specs::Bytes::packed_ends))]
fn pack_ends(given: Result<EndCounts, Refusal>) -> u64
    ensures { result ≡ packed_ends (counts_in given) }
{
    match given {
        Ok(e) => u64::from(e.waiters) * WAITERS + u64::from(e.workers),
        Err(refusal) => refused(refusal),
    }
}

// Ends: from the top, the number in 8 bits, 24 zero, the waiters and the workers in 16 each.
#[tactic(auto, using(crate::proofs::Holding::ends_as))]
pub fn ends(config: &[u8], serial: u16) -> u64
    ensures { result ≡ byte_ends config.now serial }
{
    let mut scratch = [0u16; LONGEST];
    pack_ends(reading::ends::ends(held(config, &mut scratch), serial))
}

// Where an engine's process begins, and how many words it has. No place in a configuration is cut.
fn place(ws: &[u16], s: Starts, e: usize) -> u64
    requires { starts_of s ≡ surveyed standard 11 ws.now }
    ensures { result ≡ packed_part (process_part standard ws.now e) }
{
    match s.process(e) {
        None => 0,
        Some((first, end)) => (first as u64) * FIRST + ((end - first) as u64),
    }
}

fn part(ws: &[u16], engine: u16) -> u64
    ensures { result ≡ packed_part (process_part standard ws.now engine) }
{
    match survey(ws, STANDARD, ROOT) {
        None => 0,
        Some(s) => place(ws, s, wide(engine)),
    }
}

// Process of an engine: its first word in the upper 32 bits, the count of its words in the lower, both counted from the configuration's
// start; 0 if unreadable or no such engine.
#[tactic(auto, using(crate::proofs::Holding::process_as))]
pub fn process(config: &[u8], engine: u16) -> u64
    ensures { result ≡ byte_process config.now engine }
{
    let mut scratch = [0u16; LONGEST];
    part(held(config, &mut scratch), engine)
}

#[tactic(auto, unfolding(sock::specs::Pending::packed_pending))]
fn pack_pending(given: Result<Pending, Refusal>) -> u64
    ensures { result ≡ packed_pending (pending_as given) }
{
    match given {
        Ok(p) => u64::from(p.found) * FOUND + u64::from(p.count),
        Err(refusal) => refused(refusal),
    }
}

// Pending: from the top, the number in 8 bits, whether a pending process was found in 8, 16 zero, the count in 32.
#[tactic(auto, using(crate::proofs::Holding::pending_as_lem))]
pub fn pending(engine: u16, position: u16, config: &[u8]) -> u64
    ensures { result ≡ byte_pending config.now engine position }
{
    let mut scratch = [0u16; LONGEST];
    pack_pending(pending_at(held(config, &mut scratch), engine, position))
}
