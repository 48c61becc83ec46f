// A scope whose body is nil: with a mark it runs the handler under its key, else it ends.
ghost use Rattle.std.specs.Prelude.{◌≡◌};
ghost use Rattle.rules.specs.Editing.{made};
ghost use Rattle.scopes.specs.Ending.{resumed_head, key_at_w, take_behind_w, resumed_w, ending_w, unmarked_w, ended_w};

use crate::installing::updated;
use finding::find::Site;
use handling::take::{Taken, take};
use handling::update::update_by;
use layout::field::{first_name, is_zombie, scope_key};
use layout::head;
use layout::limit::FUEL;
use layout::mark::Mark;
use layout::number::{further, word};
use rules::edit::{Edit, Side, replaced, vanish};
use rules::store::nothing;
use skipping::pass::Noted;
use writers::write::{copy, put};

// The head of a scope that runs its handler: no mark is left.
fn resumed_head(h: u16) -> u16
    ensures { result ≡ resumed_head h }
{
    head::cleared(h)
}

// The key of the handler it runs or hands on: the fault with mark 1, else its own name.
#[tactic(auto, unfolding(crate::specs::Ending::key_at_w))]
fn key_at(ws: &[u16], at: usize) -> usize
    ensures { result ≡ key_at_w ws.now at }
{
    let h = word(ws, at);
    match Mark::of(h) {
        Mark::Faulted => first_name(word(ws, further(at, 1))),
        _ => scope_key(h),
    }
}

// The list without the entry of a key, behind two words.
#[tactic(auto, unfolding(crate::specs::Ending::take_behind_w))]
fn take_behind(ws: &[u16], list: usize, key: usize, fresh: &mut [u16]) -> Taken
    ensures answered { result ≡ (take_behind_w ws.now list key fresh.old).answer }
    ensures fresh { fresh.new ≡ (take_behind_w ws.now list key fresh.old).out }
{
    if fresh.len() < 2 {
        return Taken {
            to: 0,
            from: 0,
            upto: 0,
        };
    }
    take(ws, list, key, FUEL, &mut fresh[2..])
}

// The scope at `at` with no mark, without the handler under the key, and that as its body, or nil where there is none.
#[tactic(auto, unfolding(crate::specs::Ending::resumed_w, crate::specs::Ending::taken_to, crate::specs::Ending::taken_w))]
fn resumed(noted: &Noted, start: usize, at: usize, key: usize, fresh: &mut [u16]) -> Edit
    ensures edited { made result ≡ (resumed_w noted.now.ws.now noted.now.notes.now start at key fresh.old).edit }
    ensures fresh { fresh.new ≡ (resumed_w noted.now.ws.now noted.now.notes.now start at key fresh.old).fresh }
{
    let h = resumed_head(word(noted.ws, at));
    put(fresh, 0, h);
    put(fresh, 1, 0);
    let l = further(at, 2);
    let t = take_behind(noted.ws, l, key, fresh);
    let to = further(2, t.to);
    let g = match t.process() {
        None => put(fresh, to, head::NIL),
        Some(p) => copy(noted.ws, p.from, p.upto, fresh, to),
    };
    let end = further(noted.pass_list(l, FUEL), 1);
    replaced(start, at, end, g)
}

// The scope becomes nil, and the nearest is updated by its name and the handler under it, or loses its own where there is none.
#[tactic(auto, unfolding(crate::specs::Ending::ending_w, crate::specs::Ending::promoted_to, crate::specs::Ending::promoted_w))]
fn ending(noted: &Noted, s: Site, key: usize, fresh: &mut [u16]) -> Edit
    ensures edited { made result ≡ (ending_w noted.now.ws.now noted.now.notes.now s key fresh.old).edit }
    ensures fresh { fresh.new ≡ (ending_w noted.now.ws.now noted.now.notes.now s key fresh.old).fresh }
{
    let t = take(noted.ws, further(s.at, 2), key, FUEL, fresh);
    let l = further(s.scope, 2);
    let f = match t.process() {
        None => take(noted.ws, l, key, FUEL, fresh).to,
        Some(p) => update_by(noted.ws, l, p.from.saturating_sub(1), 1, FUEL, fresh).to,
    };
    updated(noted, s, l, f, fresh)
}

// The scope with no mark ends: it becomes nil, and hands its handler on where it was killed by nobody and stands in another scope.
#[tactic(auto, unfolding(crate::specs::Ending::unmarked_w))]
fn unmarked(noted: &Noted, side: Side, key: usize, fresh: &mut [u16]) -> Edit
    ensures edited { made result ≡ (unmarked_w noted.now.ws.now noted.now.notes.now side.start side.site key fresh.old).edit }
    ensures fresh { fresh.new ≡ (unmarked_w noted.now.ws.now noted.now.notes.now side.start side.site key fresh.old).fresh }
{
    let s = side.site;
    if is_zombie(word(noted.ws, s.at)) || s.scope == 0 {
        return vanish(side, nothing(), fresh);
    }
    ending(noted, s, key, fresh)
}

// The scope with nil body found in an engine's process.
#[tactic(auto, unfolding(crate::specs::Ending::ended_w))]
pub fn ended(noted: &Noted, side: Side, fresh: &mut [u16]) -> Edit
    ensures edited { made result ≡ (ended_w noted.now.ws.now noted.now.notes.now side.start side.site fresh.old).edit }
    ensures fresh { fresh.new ≡ (ended_w noted.now.ws.now noted.now.notes.now side.start side.site fresh.old).fresh }
{
    let at = side.site.at;
    let h = word(noted.ws, at);
    let key = key_at(noted.ws, at);
    match Mark::of(h) {
        Mark::Unmarked => unmarked(noted, side, key, fresh),
        _ => resumed(noted, side.start, at, key, fresh),
    }
}
