// inst: the nearest scope's list is updated by its own.
ghost use Rattle.std.specs.Prelude.{◌≡◌};
ghost use Rattle.rules.specs.Editing.{made, edit_of};
ghost use Rattle.scopes.specs.Installing.{too_deep_w, updated_w, installed_w};

use finding::find::Site;
use handling::update::update;
use layout::limit::{FUEL, Limits};
use layout::number::further;
use layout::refusal::Refusal;
use rules::edit::{Edit, Side, become_nil, vanish};
use rules::store::nothing;
use skipping::pass::Noted;

// Whether entries of so many levels are too deep, in a scope at a level.
#[tactic(auto, unfolding(crate::specs::Installing::too_deep_w))]
fn too_deep(limits: Limits, level: usize, levels: usize) -> bool
    ensures { result ≡ too_deep_w limits level levels }
{
    limits.deepest < levels || limits.deepest < further(level, levels)
}

// The list at `l` becomes the first `f` fresh words, the process nil.
#[tactic(auto, unfolding(crate::specs::Installing::updated_w))]
pub fn updated(noted: &Noted, s: Site, l: usize, f: usize, fresh: &mut [u16]) -> Edit
    ensures edited { made result ≡ (updated_w noted.now.ws.now noted.now.notes.now s l f fresh.old).edit }
    ensures fresh { fresh.new ≡ (updated_w noted.now.ws.now noted.now.notes.now s l f fresh.old).fresh }
{
    let m = noted.pass_list(l, FUEL);
    become_nil(s, l, m, f, nothing(), fresh)
}

// The inst found in an engine's process.
#[tactic(auto, unfolding(crate::specs::Installing::installed_w))]
pub fn installed(
    noted: &Noted,
    side: Side,
    limits: Limits,
    fresh: &mut [u16],
) -> Result<Edit, Refusal>
    ensures edited { edit_of result ≡ (installed_w limits noted.now.ws.now noted.now.notes.now side.start side.site fresh.old).edit }
    ensures fresh { fresh.new ≡ (installed_w limits noted.now.ws.now noted.now.notes.now side.start side.site fresh.old).fresh }
{
    let s = side.site;
    if s.scope == 0 {
        return Ok(vanish(side, nothing(), fresh));
    }
    let l = further(s.scope, 2);
    let u = update(noted.ws, l, further(s.at, 1), FUEL, fresh);
    if too_deep(limits, s.scope_level, u.levels) {
        return Err(Refusal::TooDeep);
    }
    Ok(updated(noted, s, l, u.to, fresh))
}
