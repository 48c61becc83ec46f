// The newcomer's words, read by themselves.
ghost use Rattle.std.specs.Prelude.{◌≡◌, ◌≤◌};
ghost use Rattle.sock.specs.Configuration.{standard};
ghost use Rattle.sock.specs.Engines.{newcomer};
ghost use Rattle.engines.specs.Comer.{is_there};

use layout::context::FRESH_ROOT;
use layout::limit::{DEEPEST, VALUES};
use layout::number::word;
use layout::unit::WORD;
use reading::reader::read;

// Whether they are 64 value words and a process that has not begun, with nothing behind it, among `n` engines. What may be nil is known by its
// head; how many words there are is not asked here.
#[tactic(auto, using(crate::proofs::Coming::few_words, crate::proofs::Coming::head_nil, crate::proofs::Coming::whole_read, reading::proofs::Given::none_end, reading::proofs::Given::some_end))]
pub(crate) fn begins(engine: &[u16], n: usize) -> bool
    requires { n ≤ 8 }
    ensures { result ≡ is_there (newcomer standard n engine.now) }
{
    if engine.len() < VALUES {
        return false;
    }
    if word(engine, VALUES) == 0 {
        return false;
    }
    match read(engine, VALUES, DEEPEST, FRESH_ROOT, n * WORD) {
        None => false,
        Some(end) => end == engine.len(),
    }
}
