// The sides that a fault meets on its way from a throw out to where it stops: each is searched once, from the throw outwards.
ghost use Rattle.std.specs.Prelude.{◌≡◌};
ghost use Rattle.pending.specs.Looking.{found_w, beside_w, sides_w};

use crate::look::pending;
use layout::kind::Kind;
use layout::limit::FUEL;
use layout::own::own_end;
use skipping::pass::Noted;

// Whether the process at `at` holds a pending one.
#[tactic(auto, unfolding(crate::specs::Looking::found_w))]
fn found(noted: &Noted, at: usize) -> bool
    ensures { result ≡ found_w noted.now.ws.now noted.now.notes.now at }
{
    let s = pending(noted, at);
    s.end == 0
}

// Whether a side of the process at `at` that a fault from `target`, which stands in it, meets has a pending process.
#[cycle(any_pending_beside)]
#[tactic(auto, unfolding(crate::specs::Looking::sides_w, crate::specs::Looking::across_w))]
pub fn any_pending(noted: &Noted, at: usize, target: usize, depth: usize) -> bool
    ensures { result ≡ sides_w depth noted.now.ws.now noted.now.notes.now target at }
{
    if depth == 0 {
        return false;
    }
    if noted.ws.len() <= at {
        return false;
    }
    if at == target {
        return false;
    }
    match Kind::of(noted.ws[at]) {
        Kind::Seq => any_pending(noted, at + 1, target, depth - 1),
        Kind::Par => beside(noted, at + 1, target, depth - 1),
        Kind::Scope => any_pending(noted, noted.pass_list(at + 2, FUEL), target, depth - 1),
        Kind::Executor => any_pending(noted, own_end(noted.ws, at), target, depth - 1),
        _ => false,
    }
}

// The sides of a par, the left one at `at`: first those within the side that has the target, then the other side.
#[cycle(any_pending_beside)]
#[tactic(auto, unfolding(crate::specs::Looking::beside_w))]
fn beside(noted: &Noted, at: usize, target: usize, depth: usize) -> bool
    ensures { result ≡ beside_w (sides_w depth noted.now.ws.now noted.now.notes.now target) noted.now.ws.now noted.now.notes.now target at }
{
    let right = noted.pass(at, FUEL);
    if target < right {
        if any_pending(noted, at, target, depth) {
            return true;
        }
        return found(noted, right);
    }
    if any_pending(noted, right, target, depth) {
        return true;
    }
    found(noted, at)
}
