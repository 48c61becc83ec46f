// The checks, the step, and the step with a journal.
ghost use Rattle.std.specs.Prelude.{◌≡◌};
ghost use Rattle.sock.specs.Cabinets.{small};
ghost use Rattle.sock.specs.Calls.{check_readable, check_start, step_answer, step_output};
ghost use Rattle.sock.specs.Journal.{journal_answer, journal_output, journal_written};
ghost use Rattle.layout.specs.Refusals.{number_in};
ghost use Rattle.stepping.specs.Answers.{told};
ghost use Rattle.stepping.specs.Bundles.{numbers_as};

use journal::steps::step_in;
use layout::limit::{self, SMALL_LONGEST};
use layout::refusal::Refusal;
use reading::calls::{readable_at, start_at};
use stepping::answer::Accepted;
use stepping::bundles::Numbers;
use stepping::limits::SMALL;
use stepping::steps::step_at;

// Notes for every configuration, two words for each of its words.
const NOTES: usize = 4096;

// Readable check: refused if the configuration is not readable here.
pub fn check_readable(ws: &[u16]) -> Result<(), Refusal>
    ensures { number_in result ≡ check_readable small ws.now }
{
    readable_at(ws, limit::SMALL)
}

// Start check: refused if the configuration is not readable here, then if it is not fresh.
pub fn check_start(ws: &[u16]) -> Result<(), Refusal>
    ensures { number_in result ≡ check_start small ws.now }
{
    start_at(ws, limit::SMALL)
}

// The step: an input beyond the limits is `Unreadable`, a result beyond them `TooDeep` or `TooLong`, depth first.
pub fn step(ws: &[u16], k: Numbers, out: &mut [u16]) -> Result<Accepted, Refusal>
    ensures answered { told result ≡ step_answer small ws.now (numbers_as k) out.old }
    ensures wrote { out.new ≡ step_output small ws.now (numbers_as k) out.old }
{
    let mut notes = [0u16; NOTES];
    step_at(ws, k, SMALL, &mut notes, out)
}

// The step with a journal.
#[tactic(auto, using(journal::proofs::Stepping::large_answer, journal::proofs::Stepping::large_output, journal::proofs::Stepping::large_journal))]
pub fn step_journal(
    ws: &[u16],
    k: Numbers,
    out: &mut [u16],
    journal: &mut [u16],
) -> Result<Accepted, Refusal>
    ensures answered { told result ≡ journal_answer small ws.now (numbers_as k) out.old journal.old }
    ensures wrote { out.new ≡ journal_output small ws.now (numbers_as k) out.old journal.old }
    ensures noted { journal.new ≡ journal_written small ws.now (numbers_as k) out.old journal.old }
{
    step_in::<NOTES, SMALL_LONGEST>(ws, k, SMALL, out, journal)
}
