// The enabled process at an engine and a position: where a step begins, and a search for what can't be killed.
ghost use Rattle.std.specs.Prelude.{◌≡◌};
ghost use Rattle.layout.specs.Limits.{figures};
ghost use Rattle.noting.specs.Noting.{survey_notes};
ghost use Rattle.stepping.specs.Bundles.{engines_of};
ghost use Rattle.stepping.specs.Enabled.{site_w, enabled_in, enabled_w};

use crate::bundles::Engines;
use finding::find::{Found, Site, locate};
use layout::limit::{FUEL, Limits};
use layout::number::{further, wide, word};
use layout::refusal::Refusal;
use noting::survey::{Named, survey};
use skipping::pass::Noted;

// Where it stands, if there is one.
#[tactic(auto, unfolding(crate::specs::Enabled::site_w, crate::specs::Enabled::hit_w))]
pub(crate) fn site_at(noted: &Noted, g: Engines, engine: u16, position: u16) -> Option<Site>
    ensures { result ≡ site_w noted.now.ws.now noted.now.notes.now (engines_of g) engine position }
{
    let e = wide(engine);
    if g.found.engines <= e {
        return None;
    }
    let start = g.start(e);
    match locate(noted, start, further(start, wide(position)), FUEL, 1) {
        Found::Past(p) => None,
        Found::Hit(site) => Some(site),
    }
}

// The engines surveyed, with notes of those named, and where it stands. The notes are all 0 before. An engine's number and a position stay two parameters, here and in
// the calls that ask for them alone: C hands them in apart, and here they are taken apart again.
#[tactic(auto, unfolding(crate::specs::Enabled::enabled_w, crate::specs::Enabled::with_site, reading::specs::Survey::no_starts))]
pub fn enabled_at(
    ws: &[u16],
    notes: &mut [u16],
    named: Named,
    engine: u16,
    position: u16,
    limits: Limits,
) -> Result<(Engines, Site), Refusal>
    ensures found { enabled_in result ≡ enabled_w limits ws.now (survey_notes (figures limits) named ws.now notes.old) engine position }
    ensures noted { notes.new ≡ survey_notes (figures limits) named ws.now notes.old }
{
    let found = survey(ws, limits, named, notes).ok_or(Refusal::Unreadable)?;
    let g = Engines {
        found,
        issued: word(ws, 1),
    };
    let site = site_at(&Noted { ws, notes }, g, engine, position).ok_or(Refusal::NoProcess)?;
    Ok((g, site))
}
