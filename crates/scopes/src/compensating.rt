// comp: the handler under a name takes its place, and the nearest scope loses it.
ghost use Rattle.std.specs.Prelude.{◌≡◌};
ghost use Rattle.rules.specs.Editing.{made, edit_of};
ghost use Rattle.handling.specs.Taking.{taken};
ghost use Rattle.scopes.specs.Compensating.{moved_w, compensated_w};

use finding::find::Site;
use handling::take::{Span, take};
use layout::context::CODE;
use layout::field::scope_key;
use layout::limit::{Bounds, FUEL};
use layout::number::{further, word};
use layout::refusal::Refusal;
use reading::reader::read;
use rules::edit::{Edit, Side, vanish};
use rules::store::nothing;
use skipping::pass::Noted;
use writers::write::copy;

// What was taken out of the list stands in the place of the process; the list without it is in the first `f` fresh words.
#[tactic(auto, unfolding(crate::specs::Compensating::moved_w))]
fn moved(noted: &Noted, s: Site, f: usize, p: Span, fresh: &mut [u16]) -> Edit
    ensures edited { made result ≡ (moved_w noted.now.ws.now noted.now.notes.now s (taken f p.from p.upto) fresh.old).edit }
    ensures fresh { fresh.new ≡ (moved_w noted.now.ws.now noted.now.notes.now s (taken f p.from p.upto) fresh.old).fresh }
{
    let l = further(s.scope, 2);
    let m = noted.pass_list(l, FUEL);
    let g = copy(noted.ws, p.from, p.upto, fresh, f);
    let a = s.at;
    let b = further(a, 1);
    Edit {
        list: l,
        past: m,
        listed: f,
        from: a,
        upto: b,
        fresh: g,
        gap: b,
        end: b,
        store: nothing(),
    }
}

// The comp found in an engine's process.
#[tactic(auto, unfolding(crate::specs::Compensating::compensated_w))]
pub fn compensated(
    noted: &Noted,
    side: Side,
    bounds: Bounds,
    fresh: &mut [u16],
) -> Result<Edit, Refusal>
    ensures edited { edit_of result ≡ (compensated_w bounds.limits bounds.ends noted.now.ws.now noted.now.notes.now side.start side.site fresh.old).edit }
    ensures fresh { fresh.new ≡ (compensated_w bounds.limits bounds.ends noted.now.ws.now noted.now.notes.now side.start side.site fresh.old).fresh }
{
    let s = side.site;
    if s.scope == 0 {
        return Ok(vanish(side, nothing(), fresh));
    }
    let key = scope_key(word(noted.ws, s.at));
    let t = take(noted.ws, further(s.scope, 2), key, FUEL, fresh);
    let Some(p) = t.process() else {
        return Ok(vanish(side, nothing(), fresh));
    };
    let left = further(bounds.limits.deepest, 1).saturating_sub(s.level);
    if read(noted.ws, p.from, left, CODE, bounds.ends).is_none() {
        return Err(Refusal::TooDeep);
    }
    Ok(moved(noted, s, t.to, p, fresh))
}
