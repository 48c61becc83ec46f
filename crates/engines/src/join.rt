// Joining: the newcomer's words behind the others, and one engine more.
ghost use Rattle.std.specs.Prelude.{◌≡◌, ◌<◌, length};
ghost use Rattle.sock.specs.Configuration.{standard};
ghost use Rattle.sock.specs.Calls.{passed};
ghost use Rattle.sock.specs.Journal.{taken_of, restored_over};
ghost use Rattle.sock.specs.Engines.{admitting, join_answer, join_output};
ghost use Rattle.layout.specs.Refusals.{number_in};
ghost use Rattle.engines.specs.Answers.{written_in};
ghost use Rattle.engines.specs.Placing.{words_with, fitted};

use crate::comer::begins;
use layout::limit::{ENGINES, LONGEST};
use layout::number::{wide, word, word_of};
use layout::refusal::Refusal;
use reading::calls::check_readable;
use writers::write::{copy, put};

// The words of `ws` with those of `engine` behind them, and `n` engines, if they are not too long and have room.
#[tactic(auto, unfolding(sock::specs::Journal::taken_of, sock::specs::Journal::restored_over), using(crate::proofs::Joining::too_long, crate::proofs::Joining::too_short, crate::proofs::Joining::all_fit, crate::proofs::Joining::fits, crate::proofs::Joining::placed_words))]
fn append(ws: &[u16], engine: &[u16], n: u16, out: &mut [u16]) -> Result<u16, Refusal>
    requires { 0 < length ws.now }
    ensures answered { written_in result ≡ taken_of (fitted standard (words_with n ws.now engine.now) (length out.old)) }
    ensures wrote { out.new ≡ restored_over (fitted standard (words_with n ws.now engine.now) (length out.old)) out.old }
{
    let m = ws.len() + engine.len();
    if LONGEST < m {
        return Err(Refusal::TooLong);
    }
    if out.len() < m {
        return Err(Refusal::OutputShort);
    }
    copy(ws, 0, ws.len(), out, 0);
    copy(engine, 0, engine.len(), out, ws.len());
    put(out, 0, n);
    Ok(word_of(m))
}

// Whether one more may join: refused if the words are not readable, then if there are eight engines.
#[tactic(auto, using(crate::proofs::Joining::not_read, crate::proofs::Joining::full, crate::proofs::Joining::has_room))]
pub fn admit(ws: &[u16]) -> Result<(), Refusal>
    ensures { number_in result ≡ passed (admitting standard ws.now) }
{
    check_readable(ws)?;
    if ENGINES <= wide(word(ws, 0)) {
        return Err(Refusal::Full);
    }
    Ok(())
}

// Joining: the configuration's words with the newcomer's in the output, and how many. Refused if the words are not readable, if there are eight
// engines, if the newcomer is not readable and fresh, if they are too long together, if the output is too short; a refusal changes no word.
#[tactic(auto, unfolding(sock::specs::Engines::join_answer, sock::specs::Engines::join_output, sock::specs::Journal::taken_of, sock::specs::Journal::restored_over), using(crate::proofs::Joining::not_admitted, crate::proofs::Joining::unchanged, crate::proofs::Joining::few_admitted, crate::proofs::Joining::read_some, crate::proofs::Joining::no_newcomer, crate::proofs::Joining::placed))]
pub fn join(ws: &[u16], engine: &[u16], out: &mut [u16]) -> Result<u16, Refusal>
    ensures answered { written_in result ≡ join_answer standard ws.now engine.now out.old }
    ensures wrote { out.new ≡ join_output standard ws.now engine.now out.old }
{
    admit(ws)?;
    let n = word(ws, 0) + 1;
    if !begins(engine, wide(n)) {
        return Err(Refusal::NotFresh);
    }
    append(ws, engine, n, out)
}
