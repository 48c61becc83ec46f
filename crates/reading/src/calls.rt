// The calls that only read: readable check, start check, process of an engine.
ghost use Rattle.std.specs.Prelude.{◌≡◌, ◌<◌, eqb};
ghost use Rattle.sock.specs.Configuration.{standard};
ghost use Rattle.sock.specs.Calls.{check_readable, check_start, process_of};
ghost use Rattle.layout.specs.Limits.{figures};
ghost use Rattle.layout.specs.Refusals.{number_in};
ghost use Rattle.reading.specs.Tally.{none_nil};

use crate::starts::Starts;
use crate::survey::survey;
use layout::context::{FRESH_ROOT, ROOT};
use layout::limit::{Limits, STANDARD};
use layout::number::{wide, word};
use layout::refusal::Refusal;

// Readable check at the limits given.
#[tactic(auto, using(crate::proofs::Checks::not_readable, crate::proofs::Checks::is_readable))]
pub fn readable_at(ws: &[u16], limits: Limits) -> Result<(), Refusal>
    ensures { number_in result ≡ check_readable (figures limits) ws.now }
{
    match survey(ws, limits, ROOT) {
        None => Err(Refusal::Unreadable),
        Some(_) => Ok(()),
    }
}

// Readable check.
pub fn check_readable(ws: &[u16]) -> Result<(), Refusal>
    ensures { number_in result ≡ check_readable standard ws.now }
{
    readable_at(ws, STANDARD)
}

// Whether no engine's process is nil.
#[tactic(auto, using(crate::proofs::Freshness::nil_all))]
fn none_nil(ws: &[u16], s: Starts) -> bool
    ensures { result ≡ none_nil ws.now s.starts s.engines 0 }
{
    let starts = s.starts;
    starts[..s.engines].iter().all(|at| word(ws, *at) != 0)
}

// Whether every engine's process is a scope that has not begun, and no serial is issued.
#[tactic(auto, using(crate::proofs::Checks::not_code, crate::proofs::Checks::some_issued, crate::proofs::Checks::none_issued))]
fn is_fresh(ws: &[u16], limits: Limits) -> bool
    ensures { result ≡ eqb (check_start (figures limits) ws.now) 0 }
{
    match survey(ws, limits, FRESH_ROOT) {
        None => false,
        Some(s) => word(ws, 1) == 0 && none_nil(ws, s),
    }
}

// Start check at the limits given: refused if the configuration is not readable, then if it is not fresh.
#[tactic(auto, using(crate::proofs::Checks::start_stale, crate::proofs::Checks::start_unread))]
pub fn start_at(ws: &[u16], limits: Limits) -> Result<(), Refusal>
    ensures { number_in result ≡ check_start (figures limits) ws.now }
{
    if is_fresh(ws, limits) {
        return Ok(());
    }
    readable_at(ws, limits)?;
    Err(Refusal::NotFresh)
}

// Start check.
pub fn check_start(ws: &[u16]) -> Result<(), Refusal>
    ensures { number_in result ≡ check_start standard ws.now }
{
    start_at(ws, STANDARD)
}

// Process of an engine, as the part of the words lent; empty if unreadable or no such engine.
pub fn process_of(ws: &[u16], engine: u16) -> &[u16]
    ensures { result.now ≡ process_of standard ws.now engine }
{
    match survey(ws, STANDARD, ROOT) {
        None => &ws[..0],
        Some(s) => match s.process(wide(engine)) {
            None => &ws[..0],
            Some((first, end)) => &ws[first..end],
        },
    }
}
