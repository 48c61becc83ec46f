// Finding an enabled process by its position: the cut that its end would make, the nearest scope, and the scope that catches its fault.
ghost use Rattle.std.specs.Prelude.{◌≡◌, ◌+◌, ◌<◌, length, get_or, IfSome};
ghost use Rattle.sock.specs.Words.{kind_of};
ghost use Rattle.layout.specs.Keys.{scope_keys};
ghost use Rattle.reading.specs.Walk.{key_as};
ghost use Rattle.skipping.specs.Pass.{pass_list};
ghost use Rattle.layout.specs.Own.{own_end};
ghost use Rattle.finding.specs.Find.{at_most, find_w, node_w, outside_w, cut, shut_in, here_w, in_seq_w, in_par_w, left_w, beside_w, in_body_w, in_scope_w, scope_of, level_of, catcher_of, fault_at, catches_w};

use layout::field::{is_zombie, name_of};
use layout::head;
use layout::kind::Kind;
use layout::own::own_end;
use skipping::pass::Noted;
use skipping::skip::has_key;

// The process at `at`, `level` levels deep. Were it nil, the words from..upto and gap..end would go; `hollow` tells that a nil would stand at `from`.
// `scope` is the head of the nearest scope, `scope_level` its level, `catcher` the head of the scope that stops the fault of a throw; 0
// where there is none. `closed`: the cut goes on no further outwards. It says more than `hollow`, since a body's nil stays, and each of the two is
// asked alone: `closed` by the search, `hollow` by the rules.
#[derive(Clone, Copy)]
pub struct Site {
    pub at: usize,
    pub level: usize,
    pub from: usize,
    pub upto: usize,
    pub gap: usize,
    pub end: usize,
    pub hollow: bool,
    pub closed: bool,
    pub scope: usize,
    pub scope_level: usize,
    pub catcher: usize,
}

// The process, or where the one that was passed ends. The search goes on from that end, also from the 0 of one that is not known, and no one else
// asks for it; so it is no `Option`.
#[derive(Clone, Copy)]
pub enum Found {
    Hit(Site),
    Past(usize),
}

// Levels are counted up to this.
const LEVELS: usize = 32767;

// The enabled process whose head is at `target`, in the process at `at`, `level` levels deep; or where that process ends. More levels than
// 32,767 are counted as so many.
pub fn locate(noted: &Noted, at: usize, target: usize, depth: usize, level: usize) -> Found
    ensures { result ≡ find_w (at_most depth) noted.now.ws.now noted.now.notes.now target (at_most level) at }
{
    let search = Search {
        noted: *noted,
        target,
    };
    search.find(at, depth.min(LEVELS), level.min(LEVELS))
}

// What stays the same all through a search: the words, and the position that is looked for.
#[derive(Clone, Copy)]
struct Search<'a> {
    noted: Noted<'a>,
    target: usize,
}

impl<'a> Search<'a> {
    // The enabled process whose head is at the target. A process whose end is marked and that does not have the target is passed at once: where
    // all are marked, the search goes down one way only.
    #[cycle(executor_find_in_par_node_right_scope_seq)]
    #[tactic(auto, unfolding(crate::specs::Find::find_w))]
    fn find(&self, at: usize, depth: usize, level: usize) -> Found
        requires { level + depth < 65536 }
        ensures { result ≡ find_w depth self.now.noted.ws.now self.now.noted.notes.now self.now.target level at }
    {
        if depth == 0 {
            return Found::Past(0);
        }
        if self.noted.ws.len() <= at {
            return Found::Past(0);
        }
        if at == self.target {
            return here(&self.noted, at, depth, level);
        }
        let e = self.noted.note(at);
        if outside(at, self.target, e) {
            return Found::Past(e);
        }
        self.node(at, depth - 1, level)
    }

    // By the kind of the process at `at`, whose parts are `depth` levels deep at most; the target is not its head. The way of each kind is a
    // function of its own, inlined: so a level takes one call, in which one `Found` is held and not five. Otherwise a search that goes down sixty
    // pars took half as long again.
    #[cycle(executor_find_in_par_node_right_scope_seq)]
    #[tactic(auto, unfolding(crate::specs::Find::node_w))]
    fn node(&self, at: usize, depth: usize, level: usize) -> Found
        requires { (level + 1 + depth < 65536) × (at < length self.now.noted.ws.now) }
        ensures { result ≡ node_w (find_w depth self.now.noted.ws.now self.now.noted.notes.now self.now.target (level + 1)) depth self.now.noted.ws.now self.now.noted.notes.now self.now.target level (kind_of (get_or self.now.noted.ws.now at 0)) at }
    {
        match Kind::of(self.noted.ws[at]) {
            Kind::Seq => self.seq(at, depth, level + 1),
            Kind::Par => self.in_par(at, depth, level + 1),
            Kind::Scope => self.scope(at, depth, level),
            Kind::Executor => self.executor(at, depth, level + 1),
            _ => Found::Past(self.noted.pass(at, depth + 1)),
        }
    }

    // In the first of a seq.
    #[cycle(executor_find_in_par_node_right_scope_seq)]
    #[inline(always)]
    fn seq(&self, at: usize, depth: usize, level: usize) -> Found
        requires { (level + depth < 65536) × (at + 1 < 18446744073709551616) }
        ensures { result ≡ in_seq_w depth self.now.noted.ws.now self.now.noted.notes.now at (find_w depth self.now.noted.ws.now self.now.noted.notes.now self.now.target level (at + 1)) }
    {
        in_seq(&self.noted, at, self.find(at + 1, depth, level), depth)
    }

    // In the body of a scope.
    #[cycle(executor_find_in_par_node_right_scope_seq)]
    #[inline(always)]
    fn scope(&self, at: usize, depth: usize, level: usize) -> Found
        requires { (level + 1 + depth < 65536) × (at < length self.now.noted.ws.now) × (at + 2 < 18446744073709551616) }
        ensures { result ≡ in_scope_w depth self.now.noted.ws.now self.now.target level at (find_w depth self.now.noted.ws.now self.now.noted.notes.now self.now.target (level + 1) (pass_list depth self.now.noted.ws.now self.now.noted.notes.now (at + 2))) }
    {
        let body = self.noted.pass_list(at + 2, depth);
        self.in_scope(at, level, self.find(body, depth, level + 1), depth)
    }

    // In the body of an executor.
    #[cycle(executor_find_in_par_node_right_scope_seq)]
    #[inline(always)]
    fn executor(&self, at: usize, depth: usize, level: usize) -> Found
        requires { (level + depth < 65536) × (at < length self.now.noted.ws.now) }
        ensures { result ≡ in_body_w (find_w depth self.now.noted.ws.now self.now.noted.notes.now self.now.target level (own_end self.now.noted.ws.now at)) }
    {
        in_body(self.find(own_end(self.noted.ws, at), depth, level))
    }

    // A side of a par becoming nil, the other takes the par's place.
    #[cycle(executor_find_in_par_node_right_scope_seq)]
    #[inline(always)]
    #[tactic(auto, unfolding(crate::specs::Find::par_sides, crate::specs::Find::in_par_w))]
    fn in_par(&self, at: usize, depth: usize, level: usize) -> Found
        requires { (level + depth < 65536) × (at + 1 < 18446744073709551616) }
        ensures { result ≡ in_par_w (find_w depth self.now.noted.ws.now self.now.noted.notes.now self.now.target level) at }
    {
        match self.find(at + 1, depth, level) {
            Found::Hit(s) => left(at, s),
            Found::Past(e) => self.right(at, e, depth, level),
        }
    }

    // In the right side of a par, whose left ends at `e`.
    #[cycle(executor_find_in_par_node_right_scope_seq)]
    #[inline(always)]
    fn right(&self, at: usize, e: usize, depth: usize, level: usize) -> Found
        requires { (level + depth < 65536) × (at + 1 < 18446744073709551616) }
        ensures { result ≡ beside_w at e (find_w depth self.now.noted.ws.now self.now.noted.notes.now self.now.target level e) }
    {
        beside(at, e, self.find(e, depth, level))
    }

    // The body of the scope at `at` becoming nil, a nil stands there.
    #[inline(always)]
    #[tactic(auto, unfolding(crate::specs::Find::in_scope_w))]
    fn in_scope(&self, at: usize, level: usize, f: Found, depth: usize) -> Found
        requires { at < length self.now.noted.ws.now }
        ensures { result ≡ in_scope_w depth self.now.noted.ws.now self.now.target level at f }
    {
        match f {
            Found::Past(e) => Found::Past(e),
            Found::Hit(s) => Found::Hit(shut(
                s,
                scope_of(at, s.scope),
                level_of(level, s.scope, s.scope_level),
                self.catcher_of(at, s.catcher, depth),
            )),
        }
    }

    // The scope that catches, if `catcher` does in the body. Only a throw asks for it, so no list is passed for any other process.
    #[tactic(auto, unfolding(crate::specs::Find::catcher_of))]
    fn catcher_of(&self, at: usize, catcher: usize, depth: usize) -> usize
        requires { at < length self.now.noted.ws.now }
        ensures { result ≡ catcher_of depth self.now.noted.ws.now self.now.target at catcher }
    {
        match fault_at(self.noted.ws, self.target) {
            None => 0,
            Some(fault) => {
                if catcher != 0 {
                    return catcher;
                }
                if catches(self.noted.ws, at, fault, depth) {
                    at
                } else {
                    0
                }
            }
        }
    }
}

// Whether `target` is outside at..end; no, if the end is 0: it is not known.
#[tactic(auto, unfolding(crate::specs::Find::outside_w))]
fn outside(at: usize, target: usize, end: usize) -> bool
    ensures { result ≡ outside_w at target end }
{
    if end == 0 {
        return false;
    }
    if target < at {
        return true;
    }
    end <= target
}

// The process itself.
#[tactic(auto, unfolding(crate::specs::Find::here_w))]
fn here(noted: &Noted, at: usize, depth: usize, level: usize) -> Found
    ensures { result ≡ here_w depth noted.now.ws.now noted.now.notes.now level at }
{
    let e = noted.pass(at, depth);
    Found::Hit(Site {
        at,
        level,
        from: at,
        upto: e,
        gap: e,
        end: e,
        hollow: true,
        closed: false,
        scope: 0,
        scope_level: 0,
        catcher: 0,
    })
}

// The site, if the words a..b and c..d go from now on; the cut goes on outwards where a nil stands.
fn cut_at(s: Site, a: usize, b: usize, c: usize, d: usize, hollow: bool) -> Site
    ensures { result ≡ cut s a b c d hollow }
{
    Site {
        from: a,
        upto: b,
        gap: c,
        end: d,
        hollow,
        closed: !hollow,
        ..s
    }
}

// The spot, if the cut goes on no further, with the scopes around it.
fn shut(s: Site, scope: usize, level: usize, catcher: usize) -> Site
    ensures { result ≡ shut_in s scope level catcher }
{
    Site {
        closed: true,
        scope,
        scope_level: level,
        catcher,
        ..s
    }
}

// The first of a seq becoming nil, the second takes the seq's place; a nil second goes on.
#[inline(always)]
#[tactic(auto, unfolding(crate::specs::Find::in_seq_w, crate::specs::Find::seq_spot))]
fn in_seq(noted: &Noted, at: usize, f: Found, depth: usize) -> Found
    ensures { result ≡ in_seq_w depth noted.now.ws.now noted.now.notes.now at f }
{
    match f {
        Found::Past(e) => Found::Past(noted.pass(e, depth)),
        Found::Hit(s) => {
            if s.closed {
                return Found::Hit(s);
            }
            let q = s.end;
            if noted.ws.len() <= q {
                return Found::Past(0);
            }
            if noted.ws[q] == head::NIL {
                return Found::Hit(cut_at(s, at, q + 1, q + 1, q + 1, true));
            }
            Found::Hit(cut_at(s, at, q, q, q, false))
        }
    }
}

// The left side has the process.
#[tactic(auto, unfolding(crate::specs::Find::left_w))]
fn left(at: usize, s: Site) -> Found
    ensures { result ≡ left_w at s }
{
    if s.closed {
        return Found::Hit(s);
    }
    Found::Hit(cut_at(s, at, s.end, s.end, s.end, false))
}

// The left side ends at `e`.
#[tactic(auto, unfolding(crate::specs::Find::beside_w))]
fn beside(at: usize, e: usize, f: Found) -> Found
    requires { at + 1 < 18446744073709551616 }
    ensures { result ≡ beside_w at e f }
{
    match f {
        Found::Past(g) => Found::Past(g),
        Found::Hit(s) => {
            if s.closed {
                return Found::Hit(s);
            }
            Found::Hit(cut_at(s, at, at + 1, e, s.end, false))
        }
    }
}

// The body of an executor becoming nil, a nil stands there.
#[tactic(auto, unfolding(crate::specs::Find::in_body_w))]
fn in_body(f: Found) -> Found
    ensures { result ≡ in_body_w f }
{
    match f {
        Found::Past(e) => Found::Past(e),
        Found::Hit(s) => Found::Hit(shut(s, s.scope, s.scope_level, s.catcher)),
    }
}

// The nearest scope, if `scope` is that of the body.
#[tactic(auto, unfolding(crate::specs::Find::scope_of))]
fn scope_of(at: usize, scope: usize) -> usize
    ensures { result ≡ scope_of at scope }
{
    if scope == 0 { at } else { scope }
}

// Its level, if the nearest scope of the body is at `scope` and its level `inner`.
#[tactic(auto, unfolding(crate::specs::Find::level_of))]
fn level_of(level: usize, scope: usize, inner: usize) -> usize
    ensures { result ≡ level_of level scope inner }
{
    if scope == 0 { level } else { inner }
}

// The fault that the process at `target` throws, as a key; none if it is no throw.
#[tactic(auto, unfolding(crate::specs::Find::fault_at))]
fn fault_at(ws: &[u16], target: usize) -> Option<usize>
    ensures { (result ≡ key_as (fault_at ws.now target)) × IfSome result (λ fault. fault < scope_keys) }
{
    if ws.len() <= target {
        return None;
    }
    match Kind::of(ws[target]) {
        Kind::Throw => Some(name_of(ws[target])),
        _ => None,
    }
}

// Whether the scope at `at` stops a fault: its list has it, or the scope is a zombie.
#[tactic(auto, unfolding(crate::specs::Find::catches_w))]
fn catches(ws: &[u16], at: usize, fault: usize, depth: usize) -> bool
    requires { at < length ws.now }
    ensures { result ≡ catches_w depth ws.now at fault }
{
    if is_zombie(ws[at]) {
        return true;
    }
    has_key(ws, at + 2, depth, fault)
}
