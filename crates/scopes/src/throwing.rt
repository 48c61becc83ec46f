// Throw: its fault climbs from the position to the scope that stops it, or through all of the engine's process. Before anything is killed, the
// sides that it meets are searched for a process that can't be.
ghost use Rattle.std.specs.Prelude.{◌≡◌};
ghost use Rattle.rules.specs.Editing.{edit_of};
ghost use Rattle.scopes.specs.Throwing.{fault_w, cleared_w, marked_w, body_w, opened_to, opened_w, uncaught_w, caught_w, thrown_w};

use killing::kill::{Killing, Moved};
use layout::field::fault_of;
use layout::head;
use layout::limit::FUEL;
use layout::number::{further, wide, word};
use layout::refusal::Refusal;
use pending::sides::any_pending;
use rules::edit::{Edit, Side, replaced};
use skipping::pass::Noted;
use skipping::skip::has_key;
use writers::write::{copy, put};

// The fault that the throw at a position throws, as a word. Not `finding`'s, which asks first whether a throw stands there: here one does.
#[tactic(auto, unfolding(crate::specs::Throwing::fault_w))]
fn fault_at(ws: &[u16], at: usize) -> u16
    ensures { result ≡ fault_w ws.now at }
{
    fault_of(word(ws, at))
}

// The words from `a` on that were killed become the fresh ones.
#[tactic(auto, unfolding(crate::specs::Throwing::cleared_w))]
fn cleared(start: usize, a: usize, k: Moved) -> Result<Edit, Refusal>
    ensures { edit_of result ≡ cleared_w start a k }
{
    if k.end == 0 {
        return Err(Refusal::Pending);
    }
    Ok(replaced(start, a, k.end, k.to))
}

// No scope stops the fault. `Pending` if a side can't be killed.
#[tactic(auto, unfolding(crate::specs::Throwing::uncaught_w, crate::specs::Throwing::cleared_by))]
fn uncaught(killing: &Killing, start: usize, fresh: &mut [u16]) -> Result<Edit, Refusal>
    ensures edited { edit_of result ≡ (uncaught_w killing.now.noted.ws.now killing.now.noted.notes.now start killing.now.fault killing.now.hole fresh.old).edit }
    ensures fresh { fresh.new ≡ (uncaught_w killing.now.noted.ws.now killing.now.noted.notes.now start killing.now.fault killing.now.hole fresh.old).fresh }
{
    if any_pending(&killing.noted, start, killing.hole, FUEL) {
        return Err(Refusal::Pending);
    }
    let k = killing.kill(start, FUEL, fresh, 0);
    cleared(start, start, k)
}

// The first two words of the scope at `c`, which stops the fault: marked with it, if its list has it.
#[tactic(auto, unfolding(crate::specs::Throwing::marked_w, crate::specs::Throwing::listed_w))]
fn mark(ws: &[u16], c: usize, fault: u16, fresh: &mut [u16])
    ensures { fresh.new ≡ marked_w ws.now c fault fresh.old }
{
    if has_key(ws, further(c, 2), FUEL, wide(fault)) {
        put(fresh, 0, head::faulted(word(ws, c)));
        put(fresh, 1, head::fault_word(fault));
    } else {
        put(fresh, 0, word(ws, c));
        put(fresh, 1, word(ws, further(c, 1)));
    }
}

// Where its body begins.
#[tactic(auto, unfolding(crate::specs::Throwing::body_w))]
fn body_at(noted: &Noted, c: usize) -> usize
    ensures { result ≡ body_w noted.now.ws.now noted.now.notes.now c }
{
    noted.pass_list(further(c, 2), FUEL)
}

// All of it but the body.
#[tactic(auto, unfolding(crate::specs::Throwing::opened_to, crate::specs::Throwing::opened_w))]
fn opened(ws: &[u16], c: usize, body: usize, fault: u16, fresh: &mut [u16]) -> usize
    ensures place { result ≡ opened_to ws.now c body }
    ensures fresh { fresh.new ≡ opened_w ws.now c body fault fresh.old }
{
    mark(ws, c, fault, fresh);
    copy(ws, further(c, 2), body, fresh, 2)
}

// The scope at `c` stops the fault: its body becomes what climbs out of it. `Pending` as above.
#[tactic(auto, unfolding(crate::specs::Throwing::caught_w, crate::specs::Throwing::cleared_by))]
fn caught(killing: &Killing, start: usize, c: usize, fresh: &mut [u16]) -> Result<Edit, Refusal>
    ensures edited { edit_of result ≡ (caught_w killing.now.noted.ws.now killing.now.noted.notes.now start c killing.now.fault killing.now.hole fresh.old).edit }
    ensures fresh { fresh.new ≡ (caught_w killing.now.noted.ws.now killing.now.noted.notes.now start c killing.now.fault killing.now.hole fresh.old).fresh }
{
    let noted = &killing.noted;
    let body = body_at(noted, c);
    if any_pending(noted, body, killing.hole, FUEL) {
        return Err(Refusal::Pending);
    }
    let t = opened(noted.ws, c, body, killing.fault, fresh);
    let k = killing.kill(body, FUEL, fresh, t);
    cleared(start, c, k)
}

#[tactic(auto, unfolding(crate::specs::Throwing::thrown_w))]
pub fn thrown(noted: &Noted, side: Side, fresh: &mut [u16]) -> Result<Edit, Refusal>
    ensures edited { edit_of result ≡ (thrown_w noted.now.ws.now noted.now.notes.now side.start side.site fresh.old).edit }
    ensures fresh { fresh.new ≡ (thrown_w noted.now.ws.now noted.now.notes.now side.start side.site fresh.old).fresh }
{
    let s = side.site;
    let killing = Killing {
        noted: *noted,
        fault: fault_at(noted.ws, s.at),
        hole: s.at,
    };
    if s.catcher == 0 {
        return uncaught(&killing, side.start, fresh);
    }
    caught(&killing, side.start, s.catcher, fresh)
}
