// Killing with a fault, into scratch. A scope around the position from which a fault climbs turns zombie with mark 0, any other one with
// mark 2; but for that the climb does what killing does. What it need not look into it passes over by the notes noted of it, not word by
// word. Total: what does not fit can't be killed. An output and a place in it stay two parameters: words are written at places
// before the one reached too, to which a value of both would have to be set back, and each method would say besides that the output is the same.
ghost use Rattle.std.specs.Prelude.{◌≡◌};
ghost use Rattle.killing.specs.Killing.{stopped, vanished, head_for, dead_word};
ghost use Rattle.killing.specs.Killing.{notice_w, waiter_w, kept_w, list_end_w, list_w, turned_w, vanished_w, kill_w, gone_w, seq_w, par_w, right_w, scope_w, zombie_w, live_w, executor_w};

use layout::field::is_zombie;
use layout::kind::Kind;
use layout::mark::Mark;
use layout::number::further;
use layout::own::own_end;
use layout::{head, killed};
use skipping::pass::Noted;
use writers::write::{copy, down, put};

// Where the source ends and where the writing has come to; `end` is 0 where something can't be killed.
#[derive(Clone, Copy)]
pub struct Moved {
    pub end: usize,
    pub to: usize,
}

fn stuck() -> Moved
    ensures { result ≡ stopped }
{
    Moved { end: 0, to: 0 }
}

// Whether only nil was written from a place on: one word, where all else that is left of a killing has three and more. A third number in
// what killing answers would go through memory.
fn vanished(p: Moved, from: usize) -> bool
    ensures { result ≡ vanished p from }
{
    p.to == further(from, 1)
}

// What stays the same all through a killing: the words, the fault, and the position from which it climbs, where a hole is left.
#[derive(Clone, Copy)]
pub struct Killing<'a> {
    pub noted: Noted<'a>,
    pub fault: u16,
    pub hole: usize,
}

// Where a scope stands, and where its body begins.
#[derive(Clone, Copy)]
pub struct Scope {
    pub at: usize,
    pub body: usize,
}

impl<'a> Killing<'a> {
    // What stands at `at`, killed, from the place `to` on.
    #[cycle(executor_kill_live_par_part_right_scope_seq_zombie)]
    #[inline(always)]
    #[tactic(auto, unfolding(crate::specs::Killing::kill_w, crate::specs::Killing::kind_w))]
    pub fn kill(&self, at: usize, depth: usize, out: &mut [u16], to: usize) -> Moved
        ensures { let killed = kill_w depth self.now.noted.ws.now self.now.noted.notes.now self.now.fault self.now.hole at out.old to in (result ≡ killed.moved) × (out.new ≡ killed.out) }
    {
        if depth == 0 {
            return stuck();
        }
        if self.noted.ws.len() <= at {
            return stuck();
        }
        match Kind::of(self.noted.ws[at]) {
            Kind::Seq => self.seq(at + 1, depth - 1, out, to),
            Kind::Par => self.par(at + 1, depth - 1, out, to),
            Kind::Scope => self.scope(at, depth - 1, out, to),
            Kind::Inst => stuck(),
            Kind::Executor => self.executor(at, depth - 1, out, to),
            Kind::Waiter => self.waiter(at, depth, out, to),
            Kind::Notice => keep(self.noted.ws, at, out, to),
            _ => self.vanish(at, depth, out, to),
        }
    }

    // As `kill`; what just becomes nil does not go through it, which is faster.
    #[cycle(executor_kill_live_par_part_right_scope_seq_zombie)]
    #[tactic(auto, unfolding(crate::specs::Killing::kill_w, crate::specs::Killing::kind_w, crate::specs::Killing::gone_w, crate::specs::Killing::gone_kind))]
    fn part(&self, at: usize, depth: usize, out: &mut [u16], to: usize) -> Moved
        ensures { let killed = kill_w depth self.now.noted.ws.now self.now.noted.notes.now self.now.fault self.now.hole at out.old to in (result ≡ killed.moved) × (out.new ≡ killed.out) }
    {
        if depth != 0 && gone(self.noted.ws, at) {
            return self.vanish(at, depth, out, to);
        }
        self.kill(at, depth, out, to)
    }

    // A seq keeps its first, killed.
    #[cycle(executor_kill_live_par_part_right_scope_seq_zombie)]
    #[tactic(auto, unfolding(crate::specs::Killing::goes, crate::specs::Killing::seq_on, crate::specs::Killing::seq_w))]
    fn seq(&self, at: usize, depth: usize, out: &mut [u16], to: usize) -> Moved
        ensures { let killed = seq_w depth (kill_w depth self.now.noted.ws.now self.now.noted.notes.now self.now.fault self.now.hole) self.now.noted.ws.now self.now.noted.notes.now at out.old to in (result ≡ killed.moved) × (out.new ≡ killed.out) }
    {
        let p = self.kill(at, depth, out, to);
        if p.end == 0 {
            return stuck();
        }
        Moved {
            end: self.noted.pass(p.end, depth),
            ..p
        }
    }

    // A par without its sides that are nil. A left side that just becomes nil is passed over, so it takes no call and no word.
    #[cycle(executor_kill_live_par_part_right_scope_seq_zombie)]
    #[tactic(auto, unfolding(crate::specs::Killing::goes, crate::specs::Killing::left_on, crate::specs::Killing::par_w))]
    fn par(&self, at: usize, depth: usize, out: &mut [u16], to: usize) -> Moved
        ensures { let killed = par_w depth (kill_w depth self.now.noted.ws.now self.now.noted.notes.now self.now.fault self.now.hole) self.now.noted.ws.now self.now.noted.notes.now at out.old to in (result ≡ killed.moved) × (out.new ≡ killed.out) }
    {
        if gone(self.noted.ws, at) {
            let right = self.noted.pass(at, depth);
            return self.part(right, depth, out, to);
        }
        let one = put(out, to, head::PAR);
        let p = self.kill(at, depth, out, one);
        if p.end == 0 {
            return stuck();
        }
        if vanished(p, one) {
            return self.part(p.end, depth, out, to);
        }
        self.right(p, depth, out, one)
    }

    // The right side of a par whose left, killed, stands from `one` on; if it just becomes nil, it too is passed over.
    #[cycle(executor_kill_live_par_part_right_scope_seq_zombie)]
    #[tactic(auto, unfolding(crate::specs::Killing::goes, crate::specs::Killing::right_on, crate::specs::Killing::right_w))]
    fn right(&self, left: Moved, depth: usize, out: &mut [u16], one: usize) -> Moved
        ensures { let killed = right_w depth (kill_w depth self.now.noted.ws.now self.now.noted.notes.now self.now.fault self.now.hole) self.now.noted.ws.now self.now.noted.notes.now left.end out.old one left.to in (result ≡ killed.moved) × (out.new ≡ killed.out) }
    {
        let at = left.end;
        let to = left.to;
        if gone(self.noted.ws, at) {
            down(out, one, to);
            return Moved {
                end: self.noted.pass(at, depth),
                to: to.saturating_sub(1),
            };
        }
        let q = self.kill(at, depth, out, to);
        if q.end == 0 {
            return stuck();
        }
        if vanished(q, to) {
            down(out, one, to);
            return Moved {
                end: q.end,
                to: to.saturating_sub(1),
            };
        }
        q
    }

    #[cycle(executor_kill_live_par_part_right_scope_seq_zombie)]
    #[tactic(auto, unfolding(crate::specs::Killing::scope_at, crate::specs::Killing::scope_w))]
    fn scope(&self, at: usize, depth: usize, out: &mut [u16], to: usize) -> Moved
        ensures { let killed = scope_w depth (kill_w depth self.now.noted.ws.now self.now.noted.notes.now self.now.fault self.now.hole) self.now.noted.ws.now self.now.noted.notes.now self.now.hole at out.old to in (result ≡ killed.moved) × (out.new ≡ killed.out) }
    {
        if self.noted.ws.len() <= at {
            return stuck();
        }
        let body = self.noted.pass_list(at + 2, depth);
        if body == 0 {
            return stuck();
        }
        if self.noted.ws.len() <= body {
            return stuck();
        }
        if is_zombie(self.noted.ws[at]) {
            return self.zombie(Scope { at, body }, depth, out, to);
        }
        if self.noted.ws[body] == head::NIL {
            return stuck();
        }
        if gone(self.noted.ws, body) {
            return self.turn_zombie(Scope { at, body }, depth, out, to);
        }
        self.live(Scope { at, body }, depth, out, to)
    }

    // A zombie stays as it is, if its body can be killed.
    #[cycle(executor_kill_live_par_part_right_scope_seq_zombie)]
    #[tactic(auto, unfolding(crate::specs::Killing::goes, crate::specs::Killing::zombie_on, crate::specs::Killing::zombie_w))]
    fn zombie(&self, s: Scope, depth: usize, out: &mut [u16], to: usize) -> Moved
        ensures { let killed = zombie_w (kill_w depth self.now.noted.ws.now self.now.noted.notes.now self.now.fault self.now.hole) self.now.noted.ws.now s.at s.body out.old to in (result ≡ killed.moved) × (out.new ≡ killed.out) }
    {
        let at = s.at;
        let p = self.kill(s.body, depth, out, to);
        if p.end == 0 {
            return stuck();
        }
        Moved {
            end: p.end,
            to: copy(self.noted.ws, at, p.end, out, to),
        }
    }

    // A live scope whose body just becomes nil turns zombie, as below; nothing in it is killed, and each word is written once.
    #[tactic(auto, unfolding(crate::specs::Killing::turned_w, crate::specs::Killing::turned_on, crate::specs::Killing::begun_w))]
    fn turn_zombie(&self, s: Scope, depth: usize, out: &mut [u16], to: usize) -> Moved
        ensures { let killed = turned_w depth self.now.noted.ws.now self.now.noted.notes.now self.now.hole s.at s.body out.old to in (result ≡ killed.moved) × (out.new ≡ killed.out) }
    {
        let at = s.at;
        if self.noted.ws.len() <= at {
            return stuck();
        }
        let end = self.noted.pass(s.body, depth);
        let one = put(out, to, self.zombie_head(at, end));
        let two = put(out, one, 0);
        let behind = copy_list(self.noted.ws, at + 2, s.body, out, two);
        Moved {
            end,
            to: put(out, behind, head::NIL),
        }
    }

    // A live scope turns zombie, with no marked fault, its list as it is and its body killed.
    #[cycle(executor_kill_live_par_part_right_scope_seq_zombie)]
    #[tactic(auto, unfolding(crate::specs::Killing::goes, crate::specs::Killing::live_on, crate::specs::Killing::live_w))]
    fn live(&self, s: Scope, depth: usize, out: &mut [u16], to: usize) -> Moved
        ensures { let killed = live_w (kill_w depth self.now.noted.ws.now self.now.noted.notes.now self.now.fault self.now.hole) self.now.noted.ws.now self.now.hole s.at s.body out.old to in (result ≡ killed.moved) × (out.new ≡ killed.out) }
    {
        let at = s.at;
        let body = s.body;
        let b = copy(self.noted.ws, at, body, out, to);
        let p = self.kill(body, depth, out, b);
        if p.end == 0 {
            return stuck();
        }
        let one = put(out, to, self.zombie_head(at, p.end));
        put(out, one, 0);
        Moved {
            end: p.end,
            to: p.to,
        }
    }

    // The head of the scope that stands at at..end, as a zombie's: mark 0 around the hole, else mark 2.
    #[tactic(auto, unfolding(crate::specs::Killing::head_for))]
    fn zombie_head(&self, at: usize, end: usize) -> u16
        ensures { result ≡ head_for self.now.noted.ws.now at self.now.hole end }
    {
        let ws = self.noted.ws;
        if ws.len() <= at {
            return 0;
        }
        if self.hole <= at || end <= self.hole {
            killed::zombie(ws[at], Mark::OwnName)
        } else {
            killed::zombie(ws[at], Mark::Unmarked)
        }
    }

    // An executor becomes its killed body, which stands behind its own words, par a notice.
    #[cycle(executor_kill_live_par_part_right_scope_seq_zombie)]
    #[tactic(auto, unfolding(crate::specs::Killing::goes, crate::specs::Killing::executor_on, crate::specs::Killing::executor_w))]
    fn executor(&self, at: usize, depth: usize, out: &mut [u16], to: usize) -> Moved
        ensures { let killed = executor_w (kill_w depth self.now.noted.ws.now self.now.noted.notes.now self.now.fault self.now.hole) self.now.noted.ws.now self.now.fault at out.old to in (result ≡ killed.moved) × (out.new ≡ killed.out) }
    {
        if self.noted.ws.len() <= at {
            return stuck();
        }
        let one = put(out, to, head::PAR);
        let p = self.part(own_end(self.noted.ws, at), depth, out, one);
        if p.end == 0 {
            return stuck();
        }
        if vanished(p, one) {
            return self.notice(at, p.end, out, to);
        }
        self.notice(at, p.end, out, p.to)
    }

    // The notice of the executor at `at`, which ends at `end`.
    #[tactic(auto, unfolding(crate::specs::Killing::notice_w))]
    fn notice(&self, at: usize, end: usize, out: &mut [u16], to: usize) -> Moved
        ensures { let killed = notice_w self.now.noted.ws.now self.now.fault at end out.old to in (result ≡ killed.moved) × (out.new ≡ killed.out) }
    {
        if self.noted.ws.len() <= at {
            return stuck();
        }
        if self.noted.ws.len() - at < 3 {
            return stuck();
        }
        let a = put(out, to, killed::notice(self.noted.ws[at]));
        let b = put(
            out,
            a,
            killed::notice_word(self.fault, self.noted.ws[at + 1]),
        );
        Moved {
            end,
            to: put(out, b, self.noted.ws[at + 2]),
        }
    }

    // A waiter turns dead.
    #[tactic(auto, unfolding(crate::specs::Killing::waiter_w))]
    fn waiter(&self, at: usize, depth: usize, out: &mut [u16], to: usize) -> Moved
        ensures { let killed = waiter_w depth self.now.noted.ws.now self.now.noted.notes.now at out.old to in (result ≡ killed.moved) × (out.new ≡ killed.out) }
    {
        if self.noted.ws.len() <= at {
            return stuck();
        }
        if self.noted.ws.len() - at < 2 {
            return stuck();
        }
        let e = self.noted.pass(at, depth);
        if e == 0 {
            return stuck();
        }
        let n = copy(self.noted.ws, at, e, out, to);
        put(out, further(to, 1), dead_word(self.noted.ws[at + 1]));
        Moved { end: e, to: n }
    }

    // All else becomes nil.
    #[tactic(auto, unfolding(crate::specs::Killing::vanished_w))]
    fn vanish(&self, at: usize, depth: usize, out: &mut [u16], to: usize) -> Moved
        ensures { let killed = vanished_w depth self.now.noted.ws.now self.now.noted.notes.now at out.old to in (result ≡ killed.moved) × (out.new ≡ killed.out) }
    {
        Moved {
            end: self.noted.pass(at, depth),
            to: put(out, to, head::NIL),
        }
    }
}

// Whether what stands at `at` just becomes nil: it is of a kind that `kill` gives to `vanish`.
#[tactic(auto, unfolding(crate::specs::Killing::gone_w, crate::specs::Killing::gone_kind))]
fn gone(ws: &[u16], at: usize) -> bool
    ensures { result ≡ gone_w ws.now at }
{
    if ws.len() <= at {
        return false;
    }
    match Kind::of(ws[at]) {
        Kind::Seq | Kind::Par | Kind::Scope | Kind::Inst => false,
        Kind::Executor | Kind::Waiter | Kind::Notice => false,
        _ => true,
    }
}

// The list at..end; an empty one is its count.
#[tactic(auto, unfolding(crate::specs::Killing::list_w, crate::specs::Killing::list_end_w))]
fn copy_list(ws: &[u16], at: usize, end: usize, out: &mut [u16], to: usize) -> usize
    ensures { (result ≡ list_end_w ws.now at end to) × (out.new ≡ list_w ws.now at end out.old to) }
{
    if ws.len() <= at {
        return to;
    }
    if end == at + 1 {
        return put(out, to, 0);
    }
    copy(ws, at, end, out, to)
}

fn dead_word(w: u16) -> u16
    ensures { result ≡ dead_word w }
{
    killed::waiter_word(true, w)
}

// A notice stays.
#[tactic(auto, unfolding(crate::specs::Killing::kept_w))]
fn keep(ws: &[u16], at: usize, out: &mut [u16], to: usize) -> Moved
    ensures { let killed = kept_w ws.now at out.old to in (result ≡ killed.moved) × (out.new ≡ killed.out) }
{
    if ws.len() <= at {
        return stuck();
    }
    Moved {
        end: at + 3,
        to: copy(ws, at, at + 3, out, to),
    }
}
