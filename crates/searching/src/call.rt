// The call pending: whether the enabled process at an engine and a position holds one that can't be killed, and how many enabled processes it has
// up to that one. The refusals come in the order of their numbers.
ghost use Rattle.std.specs.Prelude.{◌≡◌, ◌<◌, ◌^◌, Ok};
ghost use Rattle.sock.specs.Configuration.{standard};
ghost use Rattle.sock.specs.Pending.{pending_at};
ghost use Rattle.layout.specs.Limits.{figures};
ghost use Rattle.noting.specs.Noting.{survey_notes};
ghost use Rattle.searching.specs.Answers.{pending_as};
ghost use Rattle.searching.specs.Asking.{named_by, counted_w, asked_w};

use layout::limit::{Limits, STANDARD};
use layout::refusal::Refusal;
use noting::survey::Named;
use pending::look::pending;
use skipping::pass::Noted;
use stepping::enabled::enabled_at;
use stepping::steps::{FEW, MANY, SHORT};

// Whether there is a pending process, and the count up to it, all if there is none.
#[derive(Clone, Copy, Debug, PartialEq, Eq)]
pub struct Pending {
    pub found: bool,
    pub count: u32,
}

// A count has 32 bits.
const COUNTS: usize = 4294967296;

// The process at `at` is searched. No configuration has as many processes as `COUNTS`, and std has no `From` that would take the count.
#[tactic(auto, unfolding(crate::specs::Asking::counted_w))]
fn counted(noted: &Noted, at: usize) -> Pending
    ensures { pending_as (Ok result) ≡ counted_w noted.now.ws.now noted.now.notes.now at }
{
    let s = pending(noted, at);
    Pending {
        found: s.end == 0,
        count: (s.count % COUNTS) as u32,
    }
}

// The notes are all 0 before.
#[tactic(auto, unfolding(crate::specs::Asking::asked_w, crate::specs::Asking::searched_w))]
fn asked(
    ws: &[u16],
    notes: &mut [u16],
    engine: u16,
    position: u16,
    limits: Limits,
) -> Result<Pending, Refusal>
    ensures answered { pending_as result ≡ asked_w limits ws.now (survey_notes (figures limits) (named_by engine) ws.now notes.old) engine position }
    ensures noted { notes.new ≡ survey_notes (figures limits) (named_by engine) ws.now notes.old }
{
    let named = Named::Two(engine, engine);
    let (_, site) = enabled_at(ws, notes, named, engine, position, limits)?;
    Ok(counted(&Noted { ws, notes }, site.at))
}

// With so many notes.
fn asked_with<const NOTES: usize>(
    ws: &[u16],
    engine: u16,
    position: u16,
) -> Result<Pending, Refusal>
    requires { NOTES < 2 ^ 32 }
    ensures { pending_as result ≡ pending_at standard ws.now engine position }
{
    let mut notes = [0u16; NOTES];
    asked(ws, &mut notes, engine, position, STANDARD)
}

// The call. To clear notes for every configuration would take more time than the search of a short one.
pub fn pending_at(ws: &[u16], engine: u16, position: u16) -> Result<Pending, Refusal>
    ensures { pending_as result ≡ pending_at standard ws.now engine position }
{
    if SHORT < ws.len() {
        return asked_with::<MANY>(ws, engine, position);
    }
    asked_with::<FEW>(ws, engine, position)
}
