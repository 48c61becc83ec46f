// Leaving: the last engine's values and its nil go, if nothing names it.
ghost use Rattle.std.specs.Prelude.{◌≡◌, ◌-◌};
ghost use Rattle.sock.specs.Configuration.{standard};
ghost use Rattle.sock.specs.Engines.{leave_answer, leave_output};
ghost use Rattle.reading.specs.Walk.{process_end};
ghost use Rattle.engines.specs.Answers.{written_in};
ghost use Rattle.engines.specs.Leaving.{all_read, rests_w};

use layout::context::ROOT;
use layout::limit::{DEEPEST, STANDARD, VALUES};
use layout::number::{wide, word, word_of};
use layout::refusal::Refusal;
use layout::unit::WORD;
use reading::reader::read;
use reading::starts::Starts;
use reading::survey::survey;
use writers::write::{copy, put};

// Whether all processes but the last are readable among n engines: then none of their ends names a later engine.
fn among(ws: &[u16], s: Starts, bound: usize) -> bool
    ensures { result ≡ all_read (process_end 64 ws.now bound 11) s.starts (s.engines - 1) 0 }
{
    let starts = s.starts;
    starts[..s.engines - 1]
        .iter()
        .all(|at| read(ws, *at, DEEPEST, ROOT, bound).is_some())
}

// Whether the last engine may leave: it is not the only one, its process is nil, and no end of the others names it.
#[tactic(auto, unfolding(crate::specs::Leaving::rests_w))]
fn rests(ws: &[u16], s: Starts) -> bool
    ensures { result ≡ rests_w ws.now s.starts s.engines }
{
    let last = s.engines - 1;
    if last == 0 {
        return false;
    }
    let starts = s.starts;
    word(ws, starts[last]) == 0 && among(ws, s, last * WORD + wide(word(ws, 1)))
}

// The values and the nil of an engine that leaves.
const GONE: usize = VALUES + 1;

// Leaving: the configuration's words without the last engine's in the output, and how many. Refused if the words are not readable, if the last
// engine may not leave, if the output is too short; a refusal changes no word.
#[tactic(auto, unfolding(sock::specs::Engines::leave_answer, sock::specs::Engines::leave_output, sock::specs::Journal::taken_of, sock::specs::Journal::restored_over), using(crate::proofs::Going::leave_unread, crate::proofs::Going::at_work, crate::proofs::Going::leave_short, crate::proofs::Going::leave_done, crate::proofs::Going::left_laid))]
pub fn leave(ws: &[u16], out: &mut [u16]) -> Result<u16, Refusal>
    ensures answered { written_in result ≡ leave_answer standard ws.now out.old }
    ensures wrote { out.new ≡ leave_output standard ws.now out.old }
{
    let s = survey(ws, STANDARD, ROOT).ok_or(Refusal::Unreadable)?;
    if !rests(ws, s) {
        return Err(Refusal::AtWork);
    }
    let m = ws.len().saturating_sub(GONE);
    if out.len() < m {
        return Err(Refusal::OutputShort);
    }
    copy(ws, 0, m, out, 0);
    put(out, 0, word(ws, 0) - 1);
    Ok(word_of(m))
}
