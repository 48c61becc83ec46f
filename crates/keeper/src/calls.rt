// The call keeper on words: the refusals in their order, then the game.
ghost use Rattle.std.specs.Prelude.{◌≡◌, ◌≤◌, length};
ghost use Rattle.keeper.specs.Calls.{keeper_number, keeper_outcome, outcome_of, Showing};
ghost use Rattle.keeper.specs.Answers.{number_in, outcome_in, outcome_number, move_in, move_of};
ghost use Rattle.keeper.specs.Hopes.{gone_in};

use crate::apart::apart;
use crate::game::Game;
use crate::hope::lost;
use crate::moves::{Side, numbers_at};
use crate::refusal::Refusal;
use layout::number::wide;
use layout::refusal::Refusal as Plain;
use reading::ends::{EndCounts, ends};
use stepping::bundles::Numbers;

// The most moves, and the words of scratch that document 02 asks for. The game writes one configuration for each move, so the last seventh stays.
const MOVES: u16 = 6;

const SCRATCH: usize = 57344;

// Whether the keeper can force it: no, yes by the move shown, yes by a pass.
#[derive(Clone, Copy)]
pub enum Outcome {
    No,
    ByMove(Numbers),
    ByPass,
}

// The game, within limits.
fn play(ws: &[u16], game: Game, k: u16, scratch: &mut [u16]) -> Outcome
    requires { (k ≤ 6) × (57344 ≤ length scratch.old) }
    ensures decided { outcome_number result ≡ outcome_of game.engines game.serial k ws.now }
    ensures shown { Showing game.engines game.serial k ws.now (outcome_number result) (move_of result) }
{
    let v = game.force(ws, scratch, wide(k), Side::Keeper);
    if !v.forced {
        return Outcome::No;
    }
    match v.decided {
        Some(i) => Outcome::ByMove(numbers_at(i)),
        None => Outcome::ByPass,
    }
}

// Whether the serial has no waiter left, or no executor and no notice.
#[tactic(auto, unfolding(crate::specs::Hopes::gone_in))]
fn gone(e: EndCounts) -> bool
    ensures { result ≡ gone_in e.waiters e.workers }
{
    e.waiters == 0 || e.workers == 0
}

// Whether the keeper, whose engines are the bits of a set, can force that the serial is delivered by a reply within k moves, his first. A refusal
// changes no word of the scratch.
pub fn keeper(
    ws: &[u16],
    engines: u8,
    serial: u16,
    k: u16,
    scratch: &mut [u16],
) -> Result<Outcome, Refusal>
    ensures numbered { number_in result ≡ keeper_number ws.now serial k (length scratch.old) }
    ensures decided { outcome_in result ≡ keeper_outcome ws.now engines serial k (length scratch.old) }
    ensures shown { Showing engines serial k ws.now (outcome_in result) (move_in result) }
    ensures kept { (number_in result ≡ 0 → ⊥) → scratch.new ≡ scratch.old }
{
    let e = ends(ws, serial)?;
    if MOVES < k {
        return Err(Refusal::TooManyMoves);
    }
    if scratch.len() < SCRATCH {
        return Err(Plain::OutputShort.into());
    }
    if gone(e) {
        return Ok(Outcome::No);
    }
    if lost(ws, serial, wide(k)) {
        return Ok(Outcome::No);
    }
    if apart(ws, serial) {
        return Ok(Outcome::No);
    }
    Ok(play(ws, Game { engines, serial }, k, scratch))
}
