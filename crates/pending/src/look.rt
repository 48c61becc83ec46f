// The search of a side for a process that can't be killed: the enabled processes are met in word order, and the first inst or live scope with nil
// body ends it. It goes from head to head by the notes of where things end, so it looks at no word of what is not enabled. Total: words that were
// not read end it.
ghost use Rattle.std.specs.Prelude.{◌≡◌, ◌<◌};
ghost use Rattle.sock.specs.Words.{kind_of};
ghost use Rattle.pending.specs.Looking.{made, scope_w, behind_w, seq_w, turn_w, look_w, pending_w};

use layout::field::is_zombie;
use layout::head;
use layout::kind::Kind;
use layout::limit::FUEL;
use layout::number::{further, word};
use layout::own::own_end;
use skipping::pass::Noted;

// Where the search has come to, 0 if it ended at a pending process; and how many enabled processes it has met, that one with them.
#[derive(Clone, Copy)]
pub struct Seen {
    pub end: usize,
    pub count: usize,
}

fn stop(count: usize) -> Seen
    ensures { result ≡ made 0 count }
{
    Seen { end: 0, count }
}

// The body of a scope with this head, whose list is at `list`: a zombie's is searched, a live one's if it is not nil.
#[tactic(auto, unfolding(crate::specs::Looking::scope_w))]
fn scope(noted: &Noted, h: u16, list: usize, count: usize) -> Seen
    ensures { result ≡ scope_w noted.now.ws.now noted.now.notes.now h list count }
{
    let body = noted.pass_list(list, FUEL);
    if is_zombie(h) {
        return Seen { end: body, count };
    }
    if word(noted.ws, body) == head::NIL {
        return stop(count);
    }
    Seen { end: body, count }
}

// From the enabled process at `at`, which is met, to where the next one begins.
#[cycle(look_seq_turn)]
#[tactic(auto, unfolding(crate::specs::Looking::turn_w, crate::specs::Looking::kind_w))]
fn turn(noted: &Noted, at: usize, depth: usize, count: usize) -> Seen
    ensures { result ≡ turn_w (look_w depth noted.now.ws.now noted.now.notes.now) noted.now.ws.now noted.now.notes.now at count }
{
    if noted.ws.len() <= at {
        return stop(count);
    }
    let n = further(count, 1);
    let h = noted.ws[at];
    match Kind::of(h) {
        Kind::Seq => seq(noted, at + 1, depth, n),
        Kind::Scope => scope(noted, h, at + 2, n),
        Kind::Inst => stop(n),
        Kind::Executor => Seen {
            end: own_end(noted.ws, at),
            count: n,
        },
        _ => Seen {
            end: behind(h, at, noted.pass(at, FUEL)),
            count: n,
        },
    }
}

// Behind the head of a par, whose sides are met next, else the end of what stands at `at`. No jump tells a par from what has no enabled part: which
// of them comes next can't be foreseen.
#[tactic(auto, unfolding(crate::specs::Looking::behind_w))]
fn behind(h: u16, at: usize, end: usize) -> usize
    requires { at < 18446744073709551615 }
    ensures { result ≡ behind_w (kind_of h) at end }
{
    match Kind::of(h) {
        Kind::Par => at + 1,
        _ => end,
    }
}

// The first of a seq, at `at`, is searched, the second passed.
#[cycle(look_seq_turn)]
#[tactic(auto, unfolding(crate::specs::Looking::seq_w, crate::specs::Looking::seq_on))]
fn seq(noted: &Noted, at: usize, depth: usize, count: usize) -> Seen
    ensures { result ≡ seq_w (look_w depth noted.now.ws.now noted.now.notes.now) noted.now.ws.now noted.now.notes.now at count }
{
    let first = look(noted, at, noted.pass(at, FUEL), depth, count);
    if first.end == 0 {
        return first;
    }
    Seen {
        end: noted.pass(first.end, FUEL),
        ..first
    }
}

// The enabled processes that stand at..end one after the other; `count` were met before. Sides of pars and bodies are met in the same row, so only
// seqs take a call.
#[cycle(look_seq_turn)]
#[tactic(auto, unfolding(crate::specs::Looking::look_w, crate::specs::Looking::loop_w, crate::specs::Looking::goes_on))]
fn look(noted: &Noted, at: usize, end: usize, depth: usize, count: usize) -> Seen
    ensures { result ≡ look_w depth noted.now.ws.now noted.now.notes.now at end count }
{
    if depth == 0 {
        return stop(count);
    }
    let mut i = at;
    let mut n = count;
    let mut turns = noted.ws.len();
    while i < end {
        if turns == 0 {
            return stop(n);
        }
        let t = turn(noted, i, depth - 1, n);
        if t.end == 0 {
            return t;
        }
        i = t.end;
        n = t.count;
        turns = turns - 1;
    }
    Seen { end: i, count: n }
}

// The search of the process at `at`.
#[tactic(auto, unfolding(crate::specs::Looking::pending_w))]
pub fn pending(noted: &Noted, at: usize) -> Seen
    ensures { result ≡ pending_w noted.now.ws.now noted.now.notes.now at }
{
    look(noted, at, noted.pass(at, FUEL), FUEL, 0)
}
