// The step that fills a journal. Its result is worked out in scratch, where it can be compared before anything lent is written.
ghost use Rattle.std.specs.Prelude.{◌≡◌, ◌+◌, ◌≤◌, ◌<◌, ◌^◌, length};
ghost use Rattle.sock.specs.Configuration.{standard};
ghost use Rattle.sock.specs.Calls.{answer_of, output_of, step_output};
ghost use Rattle.sock.specs.Calls as calls;
ghost use Rattle.sock.specs.Journal.{journal_step, journal_after, journal_answer, journal_output, journal_written};
ghost use Rattle.stepping.specs.Answers.{told};
ghost use Rattle.layout.specs.Limits.{figures};
ghost use Rattle.stepping.specs.Bundles.{numbers_as};
ghost use Rattle.stepping.specs.Lent.{Blank};
ghost use Rattle.journal.specs.Answers.{comparing};
ghost use Rattle.journal.specs.Stepping.{compared_of, needed_of, room_in};

use crate::compare::{Alike, both};
use crate::lay::lay;
use layout::limit::LONGEST;
use layout::refusal::Refusal;
use stepping::answer::{Accepted, output_short};
use stepping::bundles::Numbers;
use stepping::limits::{Modest, STANDARD};
use stepping::steps::{FEW, MANY, SHORT, step_at};
use writers::write::copy;

// How long a result may be in the short scratch.
const TWICE: usize = 2 * SHORT;

// As many words as the journal of any step has at most (`Events.journal-enough`).
pub const JOURNAL_ENOUGH: usize = 16386;

// A step, and what its result has alike with what it read.
#[derive(Clone, Copy)]
pub struct Compared {
    pub accepted: Accepted,
    pub alike: Alike,
}

// Words of a journal, for lengths with so many words alike.
#[tactic(auto, unfolding(crate::specs::Stepping::needed_of))]
fn needed(old: usize, new: usize, alike: Alike) -> usize
    requires { (alike.first + alike.last ≤ old) × (alike.first + alike.last ≤ new) × (old ≤ 65535) × (new ≤ 65535) }
    ensures { result ≡ needed_of old new alike.first alike.last }
{
    let same = alike.first + alike.last;
    4 + (old - same) + (new - same)
}

// The step with its result in scratch; `JournalShort` if the journal that it would write has more than `room` words.
// The notes are the step's, all 0. Inlined, since a call more takes some fifty instructions.
#[inline(always)]
#[tactic(auto, using(crate::proofs::Stepping::compared_refused))]
pub fn compare(
    ws: &[u16],
    k: Numbers,
    m: Modest,
    notes: &mut [u16],
    room: usize,
    res: &mut [u16],
) -> Result<Compared, Refusal>
    requires { Blank notes.old }
    ensures { (comparing result ≡ compared_of room ws.now (calls.step (figures m.limits) ws.now (numbers_as k) (length res.old))) × (res.new ≡ step_output (figures m.limits) ws.now (numbers_as k) res.old) }
{
    let accepted = step_at(ws, k, m, notes, res)?;
    let n = usize::from(accepted.length);
    let alike = both(ws, &res[..n]);
    if room < needed(ws.len(), n, alike) {
        return Err(Refusal::JournalShort);
    }
    Ok(Compared { accepted, alike })
}

// The step worked out in `res`, and then written to the output and the journal.
#[tactic(auto, using(crate::proofs::Stepping::kept_answer))]
pub fn written(
    ws: &[u16],
    k: Numbers,
    m: Modest,
    notes: &mut [u16],
    res: &mut [u16],
    out: &mut [u16],
    journal: &mut [u16],
) -> Result<Accepted, Refusal>
    requires { Blank notes.old × (length res.old ≤ length out.old) }
    ensures answered { told result ≡ answer_of (journal_step (figures m.limits) ws.now (numbers_as k) (length res.old) (length journal.old)) }
    ensures wrote { out.new ≡ output_of (journal_step (figures m.limits) ws.now (numbers_as k) (length res.old) (length journal.old)) out.old }
    ensures noted { journal.new ≡ journal_after ws.now (journal_step (figures m.limits) ws.now (numbers_as k) (length res.old) (length journal.old)) journal.old }
{
    let c = compare(ws, k, m, notes, journal.len(), res)?;
    let n = usize::from(c.accepted.length);
    copy(res, 0, n, out, 0);
    lay(ws, &res[..n], c.alike, journal);
    Ok(c.accepted)
}

// How many words of scratch the result may take.
#[tactic(auto, using(crate::proofs::Stepping::room_least))]
pub fn room_in(most: usize, room: usize) -> usize
    ensures { (result ≡ room_in most room) × (result ≤ most) × (result ≤ room) }
{
    most.min(room)
}

// The step at the limits given, with so many notes and scratch for so many words of a result. Not inlined, so that a short configuration pays for
// no long scratch, and a first try's is off the stack when the second begins.
#[inline(never)]
pub fn step_in<const NOTES: usize, const RESULT: usize>(
    ws: &[u16],
    k: Numbers,
    m: Modest,
    out: &mut [u16],
    journal: &mut [u16],
) -> Result<Accepted, Refusal>
    requires { (NOTES < 2 ^ 32) × (RESULT < 2 ^ 32) }
    ensures answered { told result ≡ answer_of (journal_step (figures m.limits) ws.now (numbers_as k) (room_in RESULT (length out.old)) (length journal.old)) }
    ensures wrote { out.new ≡ output_of (journal_step (figures m.limits) ws.now (numbers_as k) (room_in RESULT (length out.old)) (length journal.old)) out.old }
    ensures noted { journal.new ≡ journal_after ws.now (journal_step (figures m.limits) ws.now (numbers_as k) (room_in RESULT (length out.old)) (length journal.old)) journal.old }
{
    let mut notes = [0u16; NOTES];
    let mut result = [0u16; RESULT];
    let room = room_in(RESULT, out.len());
    written(ws, k, m, &mut notes, &mut result[..room], out, journal)
}

// With scratch for every result.
#[tactic(auto, using(crate::proofs::Stepping::large_answer, crate::proofs::Stepping::large_output, crate::proofs::Stepping::large_journal))]
fn large(ws: &[u16], k: Numbers, out: &mut [u16], journal: &mut [u16]) -> Result<Accepted, Refusal>
    ensures answered { told result ≡ journal_answer standard ws.now (numbers_as k) out.old journal.old }
    ensures wrote { out.new ≡ journal_output standard ws.now (numbers_as k) out.old journal.old }
    ensures noted { journal.new ≡ journal_written standard ws.now (numbers_as k) out.old journal.old }
{
    step_in::<MANY, LONGEST>(ws, k, STANDARD, out, journal)
}

// The step with a journal: the next configuration's words in the output, and in the journal what it takes to go back. A refusal changes no
// word of either, and words behind the result and behind the journal stay. A long scratch would take most of a short configuration's time,
// so that is first tried with a short one; `OutputShort` may then be for that alone.
pub fn step(
    ws: &[u16],
    k: Numbers,
    out: &mut [u16],
    journal: &mut [u16],
) -> Result<Accepted, Refusal>
    ensures answered { told result ≡ journal_answer standard ws.now (numbers_as k) out.old journal.old }
    ensures wrote { out.new ≡ journal_output standard ws.now (numbers_as k) out.old journal.old }
    ensures noted { journal.new ≡ journal_written standard ws.now (numbers_as k) out.old journal.old }
{
    if SHORT < ws.len() {
        return large(ws, k, out, journal);
    }
    let given = step_in::<FEW, TWICE>(ws, k, STANDARD, out, journal);
    if output_short(given) {
        return large(ws, k, out, journal);
    }
    given
}
