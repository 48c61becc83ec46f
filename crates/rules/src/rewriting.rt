// What a process turns into, in words: fresh ones, then a part of its own.
ghost use Rattle.std.specs.Prelude.{◌≡◌};
ghost use Rattle.rules.specs.Storing.{storing};
ghost use Rattle.rules.specs.Rewriting.{turned, vanishing, keeping, part_w};

use crate::store::Store;
use layout::number::word;

// The first `fresh` fresh words stay and, of the process's own `end` words, those from..upto.
#[derive(Clone, Copy)]
pub struct Kept {
    pub fresh: usize,
    pub from: usize,
    pub upto: usize,
    pub end: usize,
}

// The process turns into what is kept, or into nil where nothing is. The engine's variables take what `store` says.
#[derive(Clone, Copy)]
pub struct Rewriting {
    pub kept: Option<Kept>,
    pub store: Store,
}

pub fn to_nil(store: Store) -> Rewriting
    ensures { turned result ≡ vanishing (storing store) }
{
    Rewriting { kept: None, store }
}

pub fn keep(fresh: usize, from: usize, upto: usize, end: usize, store: Store) -> Rewriting
    ensures { turned result ≡ keeping fresh from upto end (storing store) }
{
    let kept = Some(Kept {
        fresh,
        from,
        upto,
        end,
    });
    Rewriting { kept, store }
}

// Its own process from..upto, which may be nil.
#[tactic(auto, unfolding(crate::specs::Rewriting::part_w))]
pub fn to_part(part: &[u16], from: usize, upto: usize, end: usize, store: Store) -> Rewriting
    ensures { turned result ≡ part_w part.now from upto end (storing store) }
{
    if word(part, from) == 0 {
        return to_nil(store);
    }
    keep(0, from, upto, end, store)
}
