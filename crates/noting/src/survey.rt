// Where each engine's process begins, once the whole configuration is known to be readable; and the notes of what is enabled, in the engines asked for.
ghost use Rattle.std.specs.Prelude.{◌≡◌, ◌<◌, ◌≤◌, length, replicate};
ghost use Rattle.layout.specs.Contexts.{root};
ghost use Rattle.layout.specs.Limits.{figures};
ghost use Rattle.reading.specs.Answers.{starts_in};
ghost use Rattle.reading.specs.Survey.{engines_from, surveyed};
ghost use Rattle.reading.specs.Walk.{end_as, process_end};
ghost use Rattle.noting.specs.Noting.{noted_in, engine_notes, engines_notes, survey_notes};

use crate::enabled::root;
use layout::context::ROOT;
use layout::limit::{HEADER, Limits, VALUES};
use layout::number::wide;
use layout::unit::WORD;
use reading::reader::{Reader, read};
use reading::starts::Starts;
use reading::survey::opened;

// The engines whose processes are noted: all, or the two that a step names. The others are only read.
#[derive(Clone, Copy)]
pub enum Named {
    All,
    Two(u16, u16),
}

impl Named {
    // Whether an engine is one of them.
    #[tactic(auto, unfolding(crate::specs::Noting::noted_in))]
    fn has(self, engine: usize) -> bool
        ensures { result ≡ noted_in self engine }
    {
        match self {
            Named::All => true,
            Named::Two(a, b) => engine == wide(a) || engine == wide(b),
        }
    }
}

// As `reading::survey`, for processes that run.
#[tactic(auto, unfolding(reading::specs::Survey::surveyed, reading::specs::Survey::opens, reading::specs::Survey::no_starts, crate::specs::Noting::survey_notes))]
pub fn survey(ws: &[u16], limits: Limits, named: Named, notes: &mut [u16]) -> Option<Starts>
    ensures answered { starts_in result ≡ surveyed (figures limits) root ws.now }
    ensures written { notes.new ≡ survey_notes (figures limits) named ws.now notes.old }
{
    if !opened(ws, limits) {
        return None;
    }
    let n = wide(ws[0]);
    let reader = Reader {
        ws,
        bound: n * WORD + wide(ws[1]),
    };
    engines(&reader, limits.deepest, n, named, notes)
}

// One engine's process, which begins at `at`.
#[tactic(auto, unfolding(crate::specs::Noting::engine_notes))]
fn engine(
    reader: &Reader,
    at: usize,
    deepest: usize,
    noted: bool,
    notes: &mut [u16],
) -> Option<usize>
    ensures ended { result ≡ end_as (process_end deepest reader.now.ws.now reader.now.bound root at) }
    ensures written { notes.new ≡ engine_notes deepest reader.now.ws.now reader.now.bound noted at notes.old }
{
    if noted {
        return root(reader, at, deepest, notes);
    }
    read(reader.ws, at, deepest, ROOT, reader.bound)
}

// The loop of `reading::survey` again, and not that one with a closure, whose contract would have to tell what each call leaves in the notes.
#[tactic(auto, using(reading::proofs::Surveys::engines_turn, reading::proofs::Surveys::engines_done, reading::proofs::Surveys::process_inside, reading::proofs::Given::some_end, reading::proofs::Given::none_end, crate::proofs::Notes::engines_turn, crate::proofs::Notes::engines_done))]
fn engines(
    reader: &Reader,
    deepest: usize,
    n: usize,
    named: Named,
    notes: &mut [u16],
) -> Option<Starts>
    requires { (2 ≤ length reader.now.ws.now) × (0 < n) × (n ≤ 8) }
    ensures answered { starts_in result ≡ engines_from (process_end deepest reader.now.ws.now reader.now.bound root) reader.now.ws.now n n 0 2 (replicate 9 0) }
    ensures written { notes.new ≡ engines_notes deepest reader.now.ws.now reader.now.bound named n 0 2 notes.old }
{
    let ws = reader.ws;
    let mut starts = [0usize; 9];
    let mut at = HEADER;
    for e in 0..n {
        if ws.len() - at < VALUES {
            return None;
        }
        starts[e] = at + VALUES;
        at = engine(reader, at + VALUES, deepest, named.has(e), notes)?;
    }
    if at != ws.len() {
        return None;
    }
    starts[n] = at + VALUES;
    Some(Starts { engines: n, starts })
}
