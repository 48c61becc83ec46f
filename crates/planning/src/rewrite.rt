// Rewriting a plan into scratch: every fixed scope becomes a scope that installs its handlers, its processes joined by the head given. The
// words are not yet known to be readable; none are written to the end where they are not laid out as the table says.
//
// A fixed scope has its compensation process before its body, and what it becomes has it behind. So the compensation process is rewritten
// into the other scratch, from `spare` on, and copied from there; meanwhile the two change their parts.
ghost use Rattle.std.specs.Prelude.{◌≡◌, ◌<◌, ◌&&◌, ◌||◌, eqb, true, false, length, get_or, Some};
ghost use Rattle.sock.specs.Words.{kind_of, name_of};
ghost use Rattle.planning.specs.Translation.{own_ch};
ghost use Rattle.planning.specs.Walk.{one_in, both_in, spot_of, keys_of, key_w, copied_w, front_w, one_w, parts_of, process_w, node_w, fixed_w, rest_w, body_w, listed_w, each_w, engine_w, engines_w, rewrite_w};

use crate::skip::{on, own};
use crate::spot::Spot;
use layout::field::{count_of, key_of};
use layout::key::{NO_KEY, SCOPE_KEYS};
use layout::kind::Kind;
use layout::limit::{DEEPEST, HEADER, VALUES};
use layout::number::wide;
use layout::{head, unit};
use sock::{Counts, counts_of};
use writers::write::{copy, put};

// The planners' kind, a number that no kind of the cabinets has.
const FIXED: usize = 19;

// An unmarked scope's head, and a scope's key word, with the name 0.
const SCOPE: u16 = 22528;

const SCOPE_KEY: u16 = 32768;

// How many levels a process may have, and whether it stands free in a fixed scope's own handler.
#[derive(Clone, Copy)]
pub(crate) struct Place {
    pub(crate) depth: usize,
    pub(crate) free: bool,
}

impl Place {
    // The place of a fixed scope's own handler.
    fn own_handler(self) -> Place
        ensures { (result.depth ≡ self.depth) × (result.free ≡ true) }
    {
        Place { free: true, ..self }
    }
}

// Which keys processes have before them: none, faults' only, any.
#[derive(Clone, Copy)]
pub(crate) enum Keys {
    Without,
    Faults,
    All,
}

fn kind_of(h: u16) -> usize
    ensures { result ≡ kind_of h }
{
    wide(h) / unit::KIND
}

// The name in a head, as a word.
fn name(h: u16) -> u16
    ensures { (result ≡ name_of h) × (result < 64) }
{
    h / 32 % 64
}

// Whether lists of this kind have a cH of their own.
#[tactic(auto, unfolding(crate::specs::Translation::own_ch))]
fn own_ch(h: u16) -> bool
    ensures { result ≡ own_ch (kind_of h) }
{
    matches!(Kind::of(h), Kind::Solicit | Kind::Inst | Kind::Waiter)
}

// Whether cH was met, a process with the head h being the last.
fn met(caught: bool, free: bool, h: u16) -> bool
    ensures { result ≡ (caught || free && eqb (kind_of h) 15) }
{
    caught || free && Kind::of(h) == Kind::Ch
}

// The words from the spot up to `end`, those of the process with the head h but for its list and parts.
#[tactic(auto, unfolding(crate::specs::Walk::copied_w))]
fn copied(ws: &[u16], end: usize, free: bool, s: Spot, a: &mut [u16]) -> Spot
    requires { (0 < end) × (s.at < length ws.now) }
    ensures { one_in (Some result) a.new ≡ copied_w ws.now end (kind_of (get_or ws.now s.at 0)) free (spot_of s) a.old }
{
    Spot {
        at: end,
        to: copy(ws, s.at, end, a, s.to),
        caught: met(s.caught, free, ws[s.at]),
    }
}

// An entry's key, if there are to be keys.
#[tactic(auto, unfolding(crate::specs::Walk::key_w))]
fn key(ws: &[u16], keys: Keys, s: Spot, a: &mut [u16]) -> Option<Spot>
    ensures { one_in result a.new ≡ key_w ws.now (keys_of keys) (spot_of s) a.old }
{
    let above = match keys {
        Keys::Without => return Some(s),
        Keys::Faults => SCOPE_KEYS,
        Keys::All => NO_KEY,
    };
    if ws.len() <= s.at {
        return None;
    }
    let w = ws[s.at];
    if wide(w) % unit::KEY != 0 || above <= key_of(w) {
        return None;
    }
    Some(s.next(put(a, s.to, w)))
}

// An inst of one entry, up to the entry's process: under the name in the head h.
#[tactic(auto, unfolding(crate::specs::Walk::one_w))]
fn one(a: &mut [u16], to: usize, h: u16) -> usize
    ensures { (result ≡ (one_w h a.old to).to) × (a.new ≡ (one_w h a.old to).out) }
{
    let t = put(a, to, head::INST);
    let u = put(a, t, 1);
    put(a, u, SCOPE_KEY + name(h) * 512)
}

// How many processes follow the head h.
#[tactic(auto, unfolding(crate::specs::Walk::parts_of))]
fn parts(h: u16, c: Counts) -> usize
    ensures { result ≡ parts_of h c }
{
    if Kind::of(h) == Kind::Choice {
        return count_of(h) * 2;
    }
    usize::from(c.processes)
}

// What stays the same all through a rewriting: the words, and the head that joins.
#[derive(Clone, Copy)]
struct Rewriting<'a> {
    ws: &'a [u16],
    join: u16,
}

impl<'a> Rewriting<'a> {
    // The front of what a fixed scope becomes: the scope's own words and empty list, the first head that joins, the head of the first inst.
    #[tactic(auto, unfolding(crate::specs::Walk::front_w))]
    fn front(&self, h: u16, a: &mut [u16], to: usize) -> usize
        ensures { (result ≡ (front_w h self.now.join a.old to).to) × (a.new ≡ (front_w h self.now.join a.old to).out) }
    {
        let t = put(a, to, SCOPE + name(h) * 32);
        let u = put(a, t, 0);
        let v = put(a, u, 0);
        let w = put(a, v, self.join);
        put(a, w, head::INST)
    }

    // The process at the spot.
    #[cycle(block_body_each_fixed_listed_node_process_rest)]
    #[tactic(auto, unfolding(crate::specs::Walk::process_w), using(crate::proofs::Steps::process_step, crate::proofs::Steps::process_lost))]
    fn process(
        &self,
        place: Place,
        s: Spot,
        a: &mut [u16],
        b: &mut [u16],
        spare: usize,
    ) -> Option<Spot>
        ensures { both_in result a.new b.new ≡ process_w place.depth self.now.join self.now.ws.now place.free (spot_of s) a.old b.old spare }
    {
        if place.depth == 0 || self.ws.len() <= s.at {
            return None;
        }
        let below = Place {
            depth: place.depth - 1,
            ..place
        };
        if kind_of(self.ws[s.at]) == FIXED {
            return self.fixed(below, s, a, b, spare);
        }
        self.node(below, s, a, b, spare)
    }

    // A process of one of the nineteen kinds, whose parts may have the levels of `place`.
    #[cycle(block_body_each_fixed_listed_node_process_rest)]
    #[tactic(auto, unfolding(crate::specs::Walk::node_w, crate::specs::Walk::copied_w, crate::specs::Walk::listed_w), using(crate::proofs::Steps::each_none, reading::proofs::Given::none_end, reading::proofs::Given::some_end))]
    fn node(
        &self,
        place: Place,
        s: Spot,
        a: &mut [u16],
        b: &mut [u16],
        spare: usize,
    ) -> Option<Spot>
        requires { s.at < length self.now.ws.now }
        ensures { both_in result a.new b.new ≡ node_w place.depth (process_w place.depth self.now.join self.now.ws.now) self.now.ws.now place.free (spot_of s) a.old b.old spare }
    {
        let h = self.ws[s.at];
        let c = counts_of(kind_of(h));
        let end = own(self.ws, s.at, place.depth, c)?;
        let x = copied(self.ws, end, place.free, s, a);
        let entries = Place {
            free: place.free && !own_ch(h),
            ..place
        };
        let y = self.block(entries, c, x, a, b, spare)?;
        self.each(place, Keys::Without, parts(h, c), y, a, b, spare)
    }

    // A fixed scope: up to its termination process.
    #[cycle(block_body_each_fixed_listed_node_process_rest)]
    #[tactic(auto, unfolding(crate::specs::Walk::fixed_w, crate::specs::Walk::then_w), using(crate::proofs::Steps::rest_none))]
    fn fixed(
        &self,
        place: Place,
        s: Spot,
        a: &mut [u16],
        b: &mut [u16],
        spare: usize,
    ) -> Option<Spot>
        requires { s.at < length self.now.ws.now }
        ensures { both_in result a.new b.new ≡ fixed_w (process_w place.depth self.now.join self.now.ws.now) self.now.join self.now.ws.now place.free (spot_of s) a.old b.old spare }
    {
        let h = self.ws[s.at];
        if wide(h) % unit::SECOND != 0 {
            return None;
        }
        let handlers = place.own_handler();
        let f = s.next(self.front(h, a, s.to));
        let x = self.listed(handlers, Keys::Faults, f, a, b, spare)?;
        let u = put(a, x.to, self.join);
        let t = x.writing(one(a, u, h));
        let y = self.process(handlers, t, a, b, spare)?;
        self.rest(place, h, y, a, b, spare)
    }

    // Its compensation process and its body.
    #[cycle(block_body_each_fixed_listed_node_process_rest)]
    #[tactic(auto, unfolding(crate::specs::Walk::rest_w, crate::specs::Walk::close_w, crate::specs::Walk::body_w), using(crate::proofs::Steps::process_none))]
    fn rest(
        &self,
        place: Place,
        h: u16,
        s: Spot,
        a: &mut [u16],
        b: &mut [u16],
        spare: usize,
    ) -> Option<Spot>
        ensures { both_in result a.new b.new ≡ rest_w (process_w place.depth self.now.join self.now.ws.now) self.now.join self.now.ws.now place.free h (spot_of s) a.old b.old spare }
    {
        let handlers = place.own_handler();
        let c = self.process(handlers, s.writing(spare), b, a, s.to)?;
        let p = self.body(place, c.writing(s.to), a, b, c.to)?;
        let t = one(a, p.to, h);
        Some(p.writing(copy(b, spare, c.to, a, t)))
    }

    // The body and the head that joins it; nothing for nil.
    #[cycle(block_body_each_fixed_listed_node_process_rest)]
    #[tactic(auto, unfolding(crate::specs::Walk::body_w))]
    fn body(
        &self,
        place: Place,
        s: Spot,
        a: &mut [u16],
        b: &mut [u16],
        spare: usize,
    ) -> Option<Spot>
        ensures { both_in result a.new b.new ≡ body_w (process_w place.depth self.now.join self.now.ws.now) self.now.join self.now.ws.now place.free (spot_of s) a.old b.old spare }
    {
        if self.ws.len() <= s.at {
            return None;
        }
        if self.ws[s.at] == head::NIL {
            return Some(s.next(s.to));
        }
        let p = s.writing(put(a, s.to, self.join));
        self.process(place, p, a, b, spare)
    }

    // The list of a process of a kind with these counts, if it has one.
    #[cycle(block_body_each_fixed_listed_node_process_rest)]
    #[tactic(auto, unfolding(crate::specs::Walk::listed_w))]
    fn block(
        &self,
        place: Place,
        c: Counts,
        s: Spot,
        a: &mut [u16],
        b: &mut [u16],
        spare: usize,
    ) -> Option<Spot>
        ensures { both_in result a.new b.new ≡ listed_w (process_w place.depth self.now.join self.now.ws.now) self.now.ws.now place.free (eqb c.lists 0) 128 (spot_of s) a.old b.old spare }
    {
        if c.lists == 0 {
            return Some(s);
        }
        self.listed(place, Keys::All, s, a, b, spare)
    }

    // A list with such keys.
    #[cycle(block_body_each_fixed_listed_node_process_rest)]
    #[tactic(auto, unfolding(crate::specs::Walk::listed_w))]
    fn listed(
        &self,
        place: Place,
        keys: Keys,
        s: Spot,
        a: &mut [u16],
        b: &mut [u16],
        spare: usize,
    ) -> Option<Spot>
        ensures { both_in result a.new b.new ≡ listed_w (process_w place.depth self.now.join self.now.ws.now) self.now.ws.now place.free false (keys_of keys) (spot_of s) a.old b.old spare }
    {
        if self.ws.len() <= s.at {
            return None;
        }
        let count = self.ws[s.at];
        let f = s.next(put(a, s.to, count));
        self.each(place, keys, wide(count), f, a, b, spare)
    }

    // `count` processes, each behind its key if there are to be keys.
    #[cycle(block_body_each_fixed_listed_node_process_rest)]
    #[tactic(auto, using(crate::proofs::Steps::each_turn, crate::proofs::Steps::each_done, crate::proofs::Steps::each_none, crate::proofs::Steps::process_none))]
    fn each(
        &self,
        place: Place,
        keys: Keys,
        count: usize,
        s: Spot,
        a: &mut [u16],
        b: &mut [u16],
        spare: usize,
    ) -> Option<Spot>
        ensures { both_in result a.new b.new ≡ each_w (process_w place.depth self.now.join self.now.ws.now) self.now.ws.now place.free (keys_of keys) count (spot_of s) a.old b.old spare }
    {
        let mut x = s;
        for _ in 0..count {
            let k = key(self.ws, keys, x, a)?;
            x = self.process(place, k, a, b, spare)?;
        }
        Some(x)
    }

    // An engine: its values and its process.
    #[tactic(auto, unfolding(crate::specs::Walk::engine_w), using(reading::proofs::Given::none_end, reading::proofs::Given::some_end))]
    fn engine(&self, s: Spot, a: &mut [u16], b: &mut [u16]) -> Option<Spot>
        ensures { both_in result a.new b.new ≡ engine_w self.now.join self.now.ws.now (spot_of s) a.old b.old }
    {
        let end = on(self.ws, s.at, VALUES)?;
        let p = Spot {
            at: end,
            to: copy(self.ws, s.at, end, a, s.to),
            caught: s.caught,
        };
        let root = Place {
            depth: DEEPEST,
            free: false,
        };
        self.process(root, p, a, b, 0)
    }

    #[tactic(auto, using(crate::proofs::Steps::engines_turn, crate::proofs::Steps::engines_done, crate::proofs::Steps::engines_none))]
    fn engines(&self, count: usize, s: Spot, a: &mut [u16], b: &mut [u16]) -> Option<Spot>
        ensures { both_in result a.new b.new ≡ engines_w self.now.join self.now.ws.now count (spot_of s) a.old b.old }
    {
        let mut x = s;
        for _ in 0..count {
            x = self.engine(x, a, b)?;
        }
        Some(x)
    }
}

// All words.
#[tactic(auto, unfolding(crate::specs::Walk::rewrite_w))]
pub(crate) fn rewrite(ws: &[u16], join: u16, a: &mut [u16], b: &mut [u16]) -> Option<Spot>
    ensures { both_in result a.new b.new ≡ rewrite_w join ws.now a.old b.old }
{
    if ws.len() < HEADER {
        return None;
    }
    let f = Spot {
        at: HEADER,
        to: copy(ws, 0, HEADER, a, 0),
        caught: false,
    };
    let x = Rewriting { ws, join }.engines(wide(ws[0]), f, a, b)?;
    (x.at == ws.len()).then_some(x)
}
