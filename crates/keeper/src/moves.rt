// Who moves, and the five numbers of a move as one number, so that a search goes through them in order: engine, position, second engine,
// position there, branch, in 3, 13, 3, 13 and 4 bits. No accepted step has larger ones.
ghost use Rattle.std.specs.Prelude.{◌≡◌, ◌^◌, ◌<◌, ◌≤◌, not};
ghost use Rattle.keeper.specs.Answers.{is_river};
ghost use Rattle.keeper.specs.Game.{kept, of_side};
ghost use Rattle.keeper.specs.Moves.{numbers_at, past_of};
ghost use Rattle.keeper.specs.Seeking.{side_of};

use layout::number::{wide, word_of};
use stepping::bundles::Numbers;

// Keeper and river move in turn.
#[derive(Clone, Copy, Debug, PartialEq, Eq)]
pub enum Side {
    Keeper,
    River,
}

impl Side {
    pub fn other(self) -> Side
        ensures { is_river result ≡ not (is_river self) }
    {
        match self {
            Side::Keeper => Side::River,
            Side::River => Side::Keeper,
        }
    }
}

// How many moves have the same second position, second engine, position and engine; how many there are.
pub const PLACE: usize = 16;

pub const SECOND: usize = 131072;

pub const POSITION: usize = 1048576;

pub const ENGINE: usize = 8589934592;

pub const COUNT: usize = 68719476736;

#[tactic(auto, unfolding(crate::specs::Moves::numbers_at))]
pub fn numbers_at(i: usize) -> Numbers
    ensures { result ≡ numbers_at i }
{
    Numbers {
        engine: word_of(i / ENGINE % 8),
        position: word_of(i / POSITION % 8192),
        second: word_of(i / SECOND % 8),
        second_position: word_of(i / PLACE % 8192),
        branch: word_of(i % PLACE),
    }
}

// The first behind those that have the same part of so many.
#[tactic(auto, unfolding(crate::specs::Moves::past_of))]
pub fn past(i: usize, unit: usize) -> usize
    requires { (i < 68719476736) × (0 < unit) × (unit ≤ 8589934592) }
    ensures { result ≡ past_of i unit }
{
    (i / unit + 1) * unit
}

// Who moves: the set of the keeper's engines, and the side.
#[derive(Clone, Copy)]
pub struct Mover {
    pub engines: u8,
    pub side: Side,
}

impl Mover {
    // Whether an engine is in the set of the keeper's.
    #[tactic(auto, unfolding(crate::specs::Game::kept))]
    fn kept(self, engine: u16) -> bool
        requires { engine < 8 }
        ensures { result ≡ kept self.engines engine }
    {
        (self.engines >> engine) % 2 == 1
    }

    // Whether an engine is of the side.
    #[tactic(auto, unfolding(crate::specs::Game::of_side))]
    pub fn owns(self, engine: u16) -> bool
        requires { engine < 8 }
        ensures { result ≡ of_side self.engines (side_of (is_river self.side)) engine }
    {
        let keepers = self.kept(engine);
        match self.side {
            Side::Keeper => keepers,
            Side::River => !keepers,
        }
    }
}
