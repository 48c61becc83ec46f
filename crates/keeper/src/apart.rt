// Ends of the serial that stand but do not name each other: no step brings them together, since every end keeps its engine and what it names. So a
// configuration without a pair is lost, and that is told from the words before the game begins.
ghost use Rattle.std.specs.Prelude.{◌≡◌};
ghost use Rattle.reading.specs.Answers.{starts_of};
ghost use Rattle.keeper.specs.Pairs.{working_at, waiting_at, client_at, within_w, names_w, pair_w, awaited_w, apart_w};

use layout::context::ROOT;
use layout::field::{executors_client, name_of, notices_client, waiters_server};
use layout::kind::Kind;
use layout::limit::STANDARD;
use layout::number::{further, word};
use reading::starts::Starts;
use reading::survey::survey;

// Whether a working end of the serial may stand at a place.
#[tactic(auto, unfolding(crate::specs::Pairs::working_at))]
fn working_at(ws: &[u16], serial: u16, at: usize) -> bool
    ensures { result ≡ working_at serial ws.now at }
{
    matches!(Kind::of(word(ws, at)), Kind::Executor | Kind::Notice)
        && word(ws, further(at, 2)) == serial
}

// Whether a waiter of it may.
#[tactic(auto, unfolding(crate::specs::Pairs::waiting_at))]
fn waiting_at(ws: &[u16], serial: u16, at: usize) -> bool
    ensures { result ≡ waiting_at serial ws.now at }
{
    Kind::of(word(ws, at)) == Kind::Waiter && word(ws, further(at, 2)) == serial
}

// The engine that the working end at a place names.
#[tactic(auto, unfolding(crate::specs::Pairs::client_at))]
fn client_at(ws: &[u16], at: usize) -> usize
    ensures { result ≡ client_at ws.now at }
{
    let w = word(ws, further(at, 1));
    match Kind::of(word(ws, at)) {
        Kind::Executor => executors_client(w),
        _ => notices_client(w),
    }
}

// Whether a place is within an engine's process.
#[tactic(auto, unfolding(crate::specs::Pairs::within_w))]
fn within(s: &Starts, e: usize, at: usize) -> bool
    ensures { result ≡ within_w (starts_of s.now) e at }
{
    match s.process(e) {
        Some((begin, end)) => begin <= at && at < end,
        None => false,
    }
}

// Whether the working end at `at` and the waiter at `to` name each other's engine, and the same operation.
#[tactic(auto, unfolding(crate::specs::Pairs::names_w))]
fn names(ws: &[u16], s: &Starts, at: usize, to: usize) -> bool
    ensures { result ≡ names_w (starts_of s.now) ws.now at to }
{
    let server = waiters_server(word(ws, further(to, 1)));
    name_of(word(ws, at)) == name_of(word(ws, to))
        && within(s, client_at(ws, at), to)
        && within(s, server, at)
}

// Whether the waiter that may stand at `to` is the one of the working end at `at`.
#[tactic(auto, unfolding(crate::specs::Pairs::pair_w))]
fn pair(ws: &[u16], s: &Starts, serial: u16, at: usize, to: usize) -> bool
    ensures { result ≡ pair_w (starts_of s.now) serial ws.now at to }
{
    waiting_at(ws, serial, to) && names(ws, s, at, to)
}

// Whether a working end that may stand at a place may have its waiter.
fn awaited(ws: &[u16], s: &Starts, serial: u16, at: usize) -> bool
    ensures { result ≡ awaited_w (starts_of s.now) serial ws.now at }
{
    if !working_at(ws, serial, at) {
        return false;
    }
    for to in 0..ws.len() {
        if pair(ws, s, serial, at, to) {
            return true;
        }
    }
    false
}

// Whether no working end of the serial has its waiter, so that it is never delivered.
pub fn apart(ws: &[u16], serial: u16) -> bool
    ensures { result ≡ apart_w serial ws.now }
{
    let Some(s) = survey(ws, STANDARD, ROOT) else {
        return false;
    };
    for at in 0..ws.len() {
        if awaited(ws, &s, serial, at) {
            return false;
        }
    }
    true
}
