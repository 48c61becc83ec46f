// Where each engine's process begins, once the whole configuration is known to be readable.
ghost use Rattle.std.specs.Prelude.{◌≡◌, ◌<◌, ◌≤◌, length, replicate};
ghost use Rattle.layout.specs.Limits.{figures};
ghost use Rattle.reading.specs.Survey.{engines_from, opens, surveyed};
ghost use Rattle.reading.specs.Answers.{starts_in};
ghost use Rattle.reading.specs.Walk.{process_end};

use crate::reader::read;
use crate::starts::Starts;
use layout::limit::{ENGINES, HEADER, Limits, VALUES};
use layout::number::wide;
use layout::unit::WORD;

// Whether the words begin and end as a configuration may: n from 1 on and at most 8, and no more words than the limits have.
#[tactic(auto, unfolding(crate::specs::Survey::opens))]
pub fn opened(ws: &[u16], limits: Limits) -> bool
    ensures { result ≡ opens (figures limits) ws.now }
{
    HEADER <= ws.len() && ws.len() <= limits.longest && (1..=ENGINES).contains(&wide(ws[0]))
}

// Every process in one context: an engine's root, that of one that has not begun; where no process stands, nothing is readable.
#[tactic(auto, unfolding(crate::specs::Survey::surveyed, crate::specs::Survey::opens, crate::specs::Survey::no_starts))]
pub fn survey(ws: &[u16], limits: Limits, context: usize) -> Option<Starts>
    ensures { starts_in result ≡ surveyed (figures limits) context ws.now }
{
    if !opened(ws, limits) {
        return None;
    }
    let n = wide(ws[0]);
    engines(ws, limits.deepest, context, n, n * WORD + wide(ws[1]))
}

#[tactic(auto, using(crate::proofs::Surveys::engines_turn, crate::proofs::Surveys::engines_done, crate::proofs::Beyond::read_inside, crate::proofs::Given::some_end, crate::proofs::Given::none_end))]
fn engines(ws: &[u16], deepest: usize, context: usize, n: usize, bound: usize) -> Option<Starts>
    requires { (2 ≤ length ws.now) × (0 < n) × (n ≤ 8) }
    ensures { starts_in result ≡ engines_from (process_end deepest ws.now bound context) ws.now n n 0 2 (replicate 9 0) }
{
    let mut starts = [0usize; 9];
    let mut at = HEADER;
    for e in 0..n {
        if ws.len() - at < VALUES {
            return None;
        }
        starts[e] = at + VALUES;
        at = read(ws, at + VALUES, deepest, context, bound)?;
    }
    if at != ws.len() {
        return None;
    }
    starts[n] = at + VALUES;
    Some(Starts { engines: n, starts })
}
