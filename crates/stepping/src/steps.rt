// From words and numbers to the answer: who moves, alone or with whom. The refusals come in the order of their numbers, but for 13, which stands after 5.
ghost use Rattle.std.specs.Prelude.{◌≡◌, ◌<◌, ◌^◌};
ghost use Rattle.sock.specs.Configuration.{standard};
ghost use Rattle.sock.specs.Calls.{step_answer, step_output};
ghost use Rattle.noting.specs.Noting.{survey_notes};
ghost use Rattle.layout.specs.Kinds.{number_of};
ghost use Rattle.layout.specs.Limits.{figures};
ghost use Rattle.stepping.specs.Answers.{told};
ghost use Rattle.stepping.specs.Stepping.{body_nil, way_as, by_kind, moves_w, receiving_w, none_else, moving_w, step_w};
ghost use Rattle.stepping.specs.Bundles.{engines_of, named_by, numbers_as};
ghost use Rattle.stepping.specs.Lent.{Blank};

use crate::alone::alone;
use crate::answer::Accepted;
use crate::bundles::{Engines, Numbers, bound, meeting_of, side_in};
use crate::enabled::{enabled_at, site_at};
use crate::exchange::between;
use crate::limits::{Modest, STANDARD};
use finding::find::Site;
use layout::kind::Kind;
use layout::limit::{Bounds, FUEL, Limits};
use layout::number::{further, word};
use layout::own::own_end;
use layout::refusal::Refusal;
use noting::survey::Named;
use skipping::pass::Noted;

// Notes for every configuration, two words for each of its words; notes for a short one.
pub const MANY: usize = 16384;

pub const FEW: usize = 1024;

pub use crate::limits::SHORT;

// Whether the body of the scope at a position is nil.
#[tactic(auto, unfolding(crate::specs::Stepping::body_nil))]
fn body_nil(noted: &Noted, at: usize) -> bool
    ensures { result ≡ body_nil noted.now.ws.now noted.now.notes.now at }
{
    let body = noted.pass_list(further(at, 2), FUEL);
    word(noted.ws, body) == 0
}

// What a process that can move does: it moves alone, or it sends to another engine.
#[derive(Clone, Copy, Debug, PartialEq, Eq)]
pub enum Way {
    Alone,
    Sending,
}

// What a process of the kind given does, unless that goes by its body; nothing, where it can't move.
#[tactic(auto, unfolding(crate::specs::Stepping::by_kind))]
fn by_kind(kind: Kind) -> Option<Way>
    ensures { result ≡ way_as (by_kind (number_of kind)) }
{
    match kind {
        Kind::Assign | Kind::If | Kind::While => Some(Way::Alone),
        Kind::Inst | Kind::Throw | Kind::Comp => Some(Way::Alone),
        Kind::Notify | Kind::Solicit | Kind::Notice => Some(Way::Sending),
        _ => None,
    }
}

// What the process at a position does: a scope ends, and an executor replies, once its body is nil.
#[tactic(auto, unfolding(crate::specs::Stepping::moves_w))]
pub fn moves(noted: &Noted, at: usize, kind: Kind) -> Option<Way>
    ensures { result ≡ way_as (moves_w noted.now.ws.now noted.now.notes.now at (number_of kind)) }
{
    match kind {
        Kind::Scope => body_nil(noted, at).then_some(Way::Alone),
        Kind::Executor => {
            let ws = noted.ws;
            (word(ws, own_end(ws, at)) == 0).then_some(Way::Sending)
        }
        _ => by_kind(kind),
    }
}

// The process found sends; the receiver is sought in the second engine.
#[tactic(auto, unfolding(crate::specs::Stepping::receiving_w, crate::specs::Stepping::partner_w))]
fn receiving(
    noted: &Noted,
    g: Engines,
    k: Numbers,
    a: Site,
    kind: Kind,
    limits: Limits,
    out: &mut [u16],
) -> Result<Accepted, Refusal>
    ensures answered { told result ≡ (receiving_w limits noted.now.ws.now noted.now.notes.now (engines_of g) k a (number_of kind) out.old).answer }
    ensures written { out.new ≡ (receiving_w limits noted.now.ws.now noted.now.notes.now (engines_of g) k a (number_of kind) out.old).out }
{
    let b = site_at(noted, g, k.second, k.second_position).ok_or(Refusal::NoPartner)?;
    between(noted.ws, meeting_of(g.places(), k, kind, a, b), limits, out)
}

// Whether a second engine, place and branch are all 0.
#[tactic(auto, unfolding(crate::specs::Stepping::none_else))]
fn none_else(second: u16, place: u16, branch: u16) -> bool
    ensures { result ≡ none_else second place branch }
{
    second == 0 && place == 0 && branch == 0
}

// The process a was found in the first engine.
#[tactic(auto, unfolding(crate::specs::Stepping::moving_w))]
pub fn moving(
    noted: &Noted,
    g: Engines,
    k: Numbers,
    a: Site,
    limits: Limits,
    out: &mut [u16],
) -> Result<Accepted, Refusal>
    ensures answered { told result ≡ (moving_w limits noted.now.ws.now noted.now.notes.now (engines_of g) k a out.old).answer }
    ensures written { out.new ≡ (moving_w limits noted.now.ws.now noted.now.notes.now (engines_of g) k a out.old).out }
{
    let kind = Kind::of(word(noted.ws, a.at));
    match moves(noted, a.at, kind) {
        None => Err(Refusal::NoMove),
        Some(Way::Sending) => receiving(noted, g, k, a, kind, limits, out),
        Some(Way::Alone) => {
            if none_else(k.second, k.second_position, k.branch) {
                let places = g.places();
                let side = side_in(places, k.engine, a);
                let bounds = Bounds {
                    limits,
                    ends: bound(places),
                };
                return alone(noted, side, kind, bounds, out);
            }
            Err(Refusal::NoMove)
        }
    }
}

// The notes are all 0 before.
#[tactic(auto, unfolding(crate::specs::Stepping::step_w, crate::specs::Stepping::moved_w))]
fn stepped(
    ws: &[u16],
    notes: &mut [u16],
    k: Numbers,
    limits: Limits,
    out: &mut [u16],
) -> Result<Accepted, Refusal>
    ensures { (told result ≡ (step_w limits ws.now (survey_notes (figures limits) (named_by k) ws.now notes.old) k out.old).answer) × (out.new ≡ (step_w limits ws.now (survey_notes (figures limits) (named_by k) ws.now notes.old) k out.old).out) × (notes.new ≡ survey_notes (figures limits) (named_by k) ws.now notes.old) }
{
    let named = Named::Two(k.engine, k.second);
    let (g, a) = enabled_at(ws, notes, named, k.engine, k.position, limits)?;
    moving(&Noted { ws, notes }, g, k, a, limits, out)
}

// The step at any limits up to the standard ones. The notes lent are all 0; as many as there are serve, so that a cabinet lends as many as its
// configurations have use for.
pub fn step_at(
    ws: &[u16],
    k: Numbers,
    m: Modest,
    notes: &mut [u16],
    out: &mut [u16],
) -> Result<Accepted, Refusal>
    requires { Blank notes.old }
    ensures answered { told result ≡ step_answer (figures m.limits) ws.now (numbers_as k) out.old }
    ensures written { out.new ≡ step_output (figures m.limits) ws.now (numbers_as k) out.old }
{
    stepped(ws, notes, k, m.limits, out)
}

// With so many notes.
fn with_notes<const NOTES: usize>(
    ws: &[u16],
    k: Numbers,
    m: Modest,
    out: &mut [u16],
) -> Result<Accepted, Refusal>
    requires { NOTES < 2 ^ 32 }
    ensures answered { told result ≡ step_answer (figures m.limits) ws.now (numbers_as k) out.old }
    ensures written { out.new ≡ step_output (figures m.limits) ws.now (numbers_as k) out.old }
{
    let mut notes = [0u16; NOTES];
    step_at(ws, k, m, &mut notes, out)
}

// The call step: from a configuration's words and the five numbers to the answer and, where it is accepted, the next configuration's
// words in the output. A refusal changes no word of the output, and words behind the result stay. To clear notes for every configuration
// would take more time than the step of a short one.
pub fn step(ws: &[u16], k: Numbers, out: &mut [u16]) -> Result<Accepted, Refusal>
    ensures { (told result ≡ step_answer standard ws.now (numbers_as k) out.old) × (out.new ≡ step_output standard ws.now (numbers_as k) out.old) }
{
    if SHORT < ws.len() {
        return with_notes::<MANY>(ws, k, STANDARD, out);
    }
    with_notes::<FEW>(ws, k, STANDARD, out)
}
