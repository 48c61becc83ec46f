// cH replaced by the old process, into scratch; nil before seq and beside par is dropped. Lists keep their cH.
// An output and a place in it stay two parameters: over a side that is nil the next is written, at a place before the one reached. A value of
// both that each call moves on is no plainer: it would have to be set back there, and each method would have to say besides that the output is
// still the same one (`same_output` in `stepping`'s `Output`).
ghost use Rattle.std.specs.Prelude.{◌≡◌};
ghost use Rattle.handling.specs.Measuring.{expression_levels, code_levels};
ghost use Rattle.handling.specs.Replacing.{old_end, old_out, replace_w, seq_w, par_w, close_par, condition_w, kept_w, other_w, c_hw, nil_w, missing};

use crate::measure::{Measured, code_levels, expression_levels, level, own};
use layout::field::count_of;
use layout::head;
use layout::kind::Kind;
use layout::number::further;
use writers::write::{copy, down, put};

// Where the source ends, where the writing has come to, whether only nil was written, and how deep that is. `end` is 0 where nothing stands, as
// in `Measured`: whoever passes over goes on from it, and nobody asks.
#[derive(Clone, Copy)]
pub struct Rebuilt {
    pub end: usize,
    pub to: usize,
    pub nil: bool,
    pub levels: usize,
}

// The process that takes cH's place: the words from..upto unless it is nil, and its levels.
#[derive(Clone, Copy)]
pub struct Old {
    pub from: usize,
    pub upto: usize,
    pub nil: bool,
    pub levels: usize,
}

// What stays the same all through the replacing: the words, and the process that takes cH's place.
#[derive(Clone, Copy)]
struct Replacing<'a> {
    ws: &'a [u16],
    old: Old,
}

impl<'a> Replacing<'a> {
    #[tactic(auto, unfolding(crate::specs::Replacing::old_end, crate::specs::Replacing::old_out))]
    fn put_old(&self, out: &mut [u16], to: usize) -> usize
        ensures { (result ≡ old_end self.now.ws.now self.now.old to) × (out.new ≡ old_out self.now.ws.now self.now.old out.old to) }
    {
        if self.old.nil {
            return put(out, to, head::NIL);
        }
        copy(self.ws, self.old.from, self.old.upto, out, to)
    }

    // The process at `at`, of at most `depth` levels.
    #[cycle(condition_in_par_in_seq_kept_process)]
    #[tactic(auto, unfolding(crate::specs::Replacing::replace_w, crate::specs::Replacing::node_w))]
    fn process(&self, at: usize, depth: usize, out: &mut [u16], to: usize) -> Rebuilt
        ensures { (result ≡ (replace_w depth self.now.ws.now self.now.old at out.old to).answer) × (out.new ≡ (replace_w depth self.now.ws.now self.now.old at out.old to).out) }
    {
        if depth == 0 {
            return nowhere();
        }
        if self.ws.len() <= at {
            return nowhere();
        }
        match Kind::of(self.ws[at]) {
            Kind::Nil => nil(at, out, to),
            Kind::Seq => self.in_seq(at, depth - 1, out, to),
            Kind::Par => self.in_par(at, depth - 1, out, to),
            Kind::If => self.condition(at, 2, depth - 1, out, to),
            Kind::While => self.condition(at, 1, depth - 1, out, to),
            Kind::Choice => {
                let count = count_of(self.ws[at]) * 2;
                self.kept(at, own(self.ws, at), count, depth - 1, out, to)
            }
            Kind::Request => self.kept(at, own(self.ws, at), 1, depth - 1, out, to),
            Kind::Scope => self.kept(at, level(at, 3), 1, depth - 1, out, to),
            Kind::Ch => self.in_place(at, out, to),
            _ => other(self.ws, at, depth, out, to),
        }
    }

    #[tactic(auto, unfolding(crate::specs::Replacing::c_hw))]
    fn in_place(&self, at: usize, out: &mut [u16], to: usize) -> Rebuilt
        ensures { (result ≡ (c_hw self.now.ws.now self.now.old at out.old to).answer) × (out.new ≡ (c_hw self.now.ws.now self.now.old at out.old to).out) }
    {
        let end = further(at, 1);
        Rebuilt {
            end,
            to: self.put_old(out, to),
            nil: self.old.nil,
            levels: self.old.levels,
        }
    }

    #[cycle(condition_in_par_in_seq_kept_process)]
    #[tactic(auto, unfolding(crate::specs::Replacing::seq_w, crate::specs::Replacing::after_first))]
    fn in_seq(&self, at: usize, depth: usize, out: &mut [u16], to: usize) -> Rebuilt
        ensures { (result ≡ (seq_w (replace_w depth self.now.ws.now self.now.old) at out.old to).answer) × (out.new ≡ (seq_w (replace_w depth self.now.ws.now self.now.old) at out.old to).out) }
    {
        let t = put(out, to, head::SEQ);
        let p = self.process(further(at, 1), depth, out, t);
        let e = p.end;
        if p.nil {
            return self.process(e, depth, out, to);
        }
        let n = p.to;
        let q = self.process(e, depth, out, n);
        Rebuilt {
            end: q.end,
            to: q.to,
            nil: false,
            levels: further(p.levels.max(q.levels), 1),
        }
    }

    #[cycle(condition_in_par_in_seq_kept_process)]
    #[tactic(auto, unfolding(crate::specs::Replacing::par_w, crate::specs::Replacing::par_after, crate::specs::Replacing::close_par))]
    fn in_par(&self, at: usize, depth: usize, out: &mut [u16], to: usize) -> Rebuilt
        ensures { (result ≡ (par_w (replace_w depth self.now.ws.now self.now.old) at out.old to).answer) × (out.new ≡ (par_w (replace_w depth self.now.ws.now self.now.old) at out.old to).out) }
    {
        let t = put(out, to, head::PAR);
        let p = self.process(further(at, 1), depth, out, t);
        let e = p.end;
        if p.nil {
            return self.process(e, depth, out, to);
        }
        let n = p.to;
        let q = self.process(e, depth, out, n);
        if q.nil {
            down(out, t, n);
            return Rebuilt {
                end: q.end,
                to: n.saturating_sub(1),
                nil: false,
                levels: p.levels,
            };
        }
        Rebuilt {
            end: q.end,
            to: q.to,
            nil: false,
            levels: further(p.levels.max(q.levels), 1),
        }
    }

    // An if or a while: its condition, then its parts.
    #[cycle(condition_in_par_in_seq_kept_process)]
    #[tactic(auto, unfolding(crate::specs::Replacing::condition_w))]
    fn condition(
        &self,
        at: usize,
        count: usize,
        depth: usize,
        out: &mut [u16],
        to: usize,
    ) -> Rebuilt
        ensures { (result ≡ (condition_w (expression_levels depth self.now.ws.now) (replace_w depth self.now.ws.now self.now.old) self.now.ws.now at count out.old to).answer) × (out.new ≡ (condition_w (expression_levels depth self.now.ws.now) (replace_w depth self.now.ws.now self.now.old) self.now.ws.now at count out.old to).out) }
    {
        let e = expression_levels(self.ws, further(at, 1), depth);
        let own = Measured {
            end: e.end,
            levels: further(e.levels, 1),
        };
        self.kept(at, own, count, depth, out, to)
    }

    // The words from `at` to the end of `own` stay, then come `count` parts.
    #[cycle(condition_in_par_in_seq_kept_process)]
    #[tactic(auto, using(crate::proofs::Replacements::parts_turn, crate::proofs::Replacements::parts_end), unfolding(crate::specs::Replacing::kept_w))]
    fn kept(
        &self,
        at: usize,
        own: Measured,
        count: usize,
        depth: usize,
        out: &mut [u16],
        to: usize,
    ) -> Rebuilt
        ensures { (result ≡ (kept_w (replace_w depth self.now.ws.now self.now.old) self.now.ws.now at own.end own.levels count out.old to).answer) × (out.new ≡ (kept_w (replace_w depth self.now.ws.now self.now.old) self.now.ws.now at own.end own.levels count out.old to).out) }
    {
        let mut a = own.end;
        let mut t = copy(self.ws, at, a, out, to);
        let mut deepest = own.levels;
        for _ in 0..count {
            let p = self.process(a, depth, out, t);
            a = p.end;
            t = p.to;
            deepest = deepest.max(further(p.levels, 1));
        }
        Rebuilt {
            end: a,
            to: t,
            nil: false,
            levels: deepest,
        }
    }
}

// Of what is not there nothing is written.
fn nowhere() -> Rebuilt
    ensures { result ≡ missing }
{
    Rebuilt {
        end: 0,
        to: 0,
        nil: false,
        levels: 0,
    }
}

#[tactic(auto, unfolding(crate::specs::Replacing::nil_w))]
fn nil(at: usize, out: &mut [u16], to: usize) -> Rebuilt
    ensures { (result ≡ (nil_w at out.old to).answer) × (out.new ≡ (nil_w at out.old to).out) }
{
    Rebuilt {
        end: further(at, 1),
        to: put(out, to, head::NIL),
        nil: true,
        levels: 1,
    }
}

// A process without parts that could hold cH.
#[tactic(auto, unfolding(crate::specs::Replacing::other_w))]
fn other(ws: &[u16], at: usize, depth: usize, out: &mut [u16], to: usize) -> Rebuilt
    ensures { (result ≡ (other_w (code_levels depth ws.now) ws.now at out.old to).answer) × (out.new ≡ (other_w (code_levels depth ws.now) ws.now at out.old to).out) }
{
    let m = code_levels(ws, at, depth);
    let end = m.end;
    Rebuilt {
        end,
        to: copy(ws, at, end, out, to),
        nil: false,
        levels: m.levels,
    }
}

// The process at `at`, of at most `depth` levels, with `old` in cH's place.
pub fn replace(ws: &[u16], at: usize, old: Old, depth: usize, out: &mut [u16], to: usize) -> Rebuilt
    ensures { (result ≡ (replace_w depth ws.now old at out.old to).answer) × (out.new ≡ (replace_w depth ws.now old at out.old to).out) }
{
    Replacing { ws, old }.process(at, depth, out, to)
}
