// A scope's list without the entry of a key, into scratch.
ghost use Rattle.std.specs.Prelude.{◌≡◌};
ghost use Rattle.handling.specs.Taking.{span_as, less_if, pass_w, take_w};

use layout::field::key_of;
use layout::number::{further, wide, word};
use skipping::skip::skip;
use writers::write::{copy, put};

// The words from..upto.
#[derive(Clone, Copy)]
pub struct Span {
    pub from: usize,
    pub upto: usize,
}

// The place behind the new list; the process taken out stands from..upto, or upto is 0. An entry of the key that ends nowhere leaves
// `from` beside that 0.
#[derive(Clone, Copy)]
pub struct Taken {
    pub to: usize,
    pub from: usize,
    pub upto: usize,
}

impl Taken {
    // The process taken out, if there was one.
    pub fn process(&self) -> Option<Span>
        ensures { result ≡ span_as self.now.from self.now.upto }
    {
        if self.upto == 0 {
            return None;
        }
        Some(Span {
            from: self.from,
            upto: self.upto,
        })
    }
}

// How far it has come: the next entry, and what is taken so far, as in `Taken`.
#[derive(Clone, Copy)]
pub struct Passing {
    pub at: usize,
    pub to: usize,
    pub from: usize,
    pub upto: usize,
}

#[tactic(auto, unfolding(crate::specs::Taking::less_if))]
fn less_if(n: u16, upto: usize) -> u16
    ensures { result ≡ less_if n upto }
{
    if upto == 0 { n } else { n.saturating_sub(1) }
}

// The next entry stays, or is the one taken out.
#[tactic(auto, unfolding(crate::specs::Taking::pass_w))]
fn pass(ws: &[u16], s: Passing, key: usize, depth: usize, out: &mut [u16]) -> Passing
    ensures { (result ≡ (pass_w depth ws.now key s out.old).state) × (out.new ≡ (pass_w depth ws.now key s out.old).out) }
{
    let from = further(s.at, 1);
    let e = skip(ws, from, depth);
    if key_of(word(ws, s.at)) == key {
        return Passing {
            at: e,
            from,
            upto: e,
            ..s
        };
    }
    let t = copy(ws, s.at, e, out, s.to);
    Passing { at: e, to: t, ..s }
}

// The list whose count is at `list`, from 0 on.
#[tactic(auto, using(crate::proofs::Turns::passes_turn, crate::proofs::Turns::passes_end), unfolding(crate::specs::Taking::take_w, crate::specs::Taking::took_w))]
pub fn take(ws: &[u16], list: usize, key: usize, depth: usize, out: &mut [u16]) -> Taken
    ensures { (result ≡ (take_w depth ws.now list key out.old).answer) × (out.new ≡ (take_w depth ws.now list key out.old).out) }
{
    let count = word(ws, list);
    let n = wide(count);
    let mut s = Passing {
        at: further(list, 1),
        to: 1,
        from: 0,
        upto: 0,
    };
    for _ in 0..n {
        s = pass(ws, s, key, depth, out);
    }
    put(out, 0, less_if(count, s.upto));
    Taken {
        to: s.to,
        from: s.from,
        upto: s.upto,
    }
}
