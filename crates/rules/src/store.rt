// Which of an engine's variables take which values in a step: none, one, or those of a message, up to four.
ghost use Rattle.std.specs.Prelude.{◌≡◌};
ghost use Rattle.rules.specs.Storing.{storing, unchanged, takes};

use layout::limit::MESSAGE;

// No variable has this number. A `Taking` is no `Option` of the pair: its mirror `taking_w` keeps a value beside 32, which that would lose. Nor is
// a variable alone one: a message's values are asked for the sender's variable, none or not, and an `Option` would be made this number again there.
pub const NO_VARIABLE: usize = 32;

// The variable takes the value, unless it is none.
#[derive(Clone, Copy)]
pub struct Taking {
    pub variable: usize,
    pub value: u32,
}

const NO_TAKING: Taking = Taking {
    variable: NO_VARIABLE,
    value: 0,
};

// A message has up to four variables. They take their values in order; where the first is none, none of them does.
pub type Store = [Taking; MESSAGE];

pub fn nothing() -> Store
    ensures { storing result ≡ unchanged }
{
    [NO_TAKING; MESSAGE]
}

pub fn one(variable: usize, value: u32) -> Store
    ensures { storing result ≡ takes variable value }
{
    let first = Taking { variable, value };
    [first, NO_TAKING, NO_TAKING, NO_TAKING]
}
