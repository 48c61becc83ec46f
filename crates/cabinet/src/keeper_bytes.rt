// Keeper against the river for C (document 02, m). The configuration is bytes; the scratch is words, since configurations are held there as the
// step reads and writes them. The header's `sock_keeper` hands its scratch on, half its bytes in words.
ghost use Rattle.std.specs.Prelude.{◌≡◌, length};
ghost use Rattle.stepping.specs.Bundles.{numbers_as};
ghost use Rattle.keeper.specs.Answers.{number_in, outcome_in, move_in};
ghost use Rattle.keeper.specs.Calls.{keeper_number};
ghost use Rattle.keeper.specs.Bytes.{config_in, packed_keeper, packed_move, Narrow, ByteAnswer};

use bytewise::packing::NUMBER;
use bytewise::words::held;
use keeper::calls::{Outcome, keeper};
use keeper::refusal::Refusal;
use layout::limit::LONGEST;
use stepping::bundles::Numbers;

// The places of an answer's parts.
const OUTCOME: u64 = 1 << 48;

const BRANCH: u64 = 1 << 32;

const ENGINE: u64 = 1 << 29;

const POSITION: u64 = 1 << 16;

const SECOND: u64 = 1 << 13;

// The five numbers of a move.
#[tactic(auto, unfolding(keeper::specs::Bytes::packed_move))]
fn pack_move(m: Numbers) -> u64
    requires { Narrow (numbers_as m) }
    ensures { result ≡ packed_move (numbers_as m) }
{
    u64::from(m.branch) * BRANCH
        + u64::from(m.engine) * ENGINE
        + u64::from(m.position) * POSITION
        + u64::from(m.second) * SECOND
        + u64::from(m.second_position)
}

// The number in 8 bits, the outcome in 8 (0 no, 1 yes by a move, 2 yes by a pass), 8 zero, the branch in 8, engine 3, position 13, second engine 3,
// second position 13.
#[tactic(auto, unfolding(keeper::specs::Bytes::packed_keeper, keeper::specs::Bytes::packed_move))]
fn pack(given: Result<Outcome, Refusal>) -> u64
    requires { Narrow (move_in given) }
    ensures { result ≡ packed_keeper (number_in given) (outcome_in given) (move_in given) }
{
    match given {
        Ok(Outcome::No) => 0,
        Ok(Outcome::ByMove(m)) => OUTCOME + pack_move(m),
        Ok(Outcome::ByPass) => 2 * OUTCOME,
        Err(refusal) => u64::from(u8::from(refusal)) * NUMBER,
    }
}

// Keeper against the river, packed. A refusal changes no word of the scratch.
pub fn sock_keeper_words(
    config: &[u8],
    engines: u8,
    serial: u16,
    k: u16,
    scratch: &mut [u16],
) -> u64
    ensures answered { ByteAnswer config.now engines serial k (length scratch.old) result }
    ensures kept { (keeper_number (config_in config.now) serial k (length scratch.old) ≡ 0 → ⊥) → scratch.new ≡ scratch.old }
{
    let mut words = [0u16; LONGEST];
    let ws = held(config, &mut words);
    pack(keeper(ws, engines, serial, k, scratch))
}
