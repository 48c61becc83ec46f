// What the search tells from words and notes alone, so that it looks for a process only where one may move or receive.
ghost use Rattle.std.specs.Prelude.{◌≡◌};
ghost use Rattle.layout.specs.Kinds.{number_of};
ghost use Rattle.keeper.specs.Glances.{acts_w, hears_w, behind_w, meant_w};

use evaluating::evaluate::variable;
use layout::field::{executors_client, first_variable, notices_client};
use layout::kind::Kind;
use layout::limit::VALUES;
use layout::number::{further, wide, word};
use skipping::pass::Noted;

// Whether a process of this kind may move.
#[tactic(auto, unfolding(crate::specs::Glances::acts_w))]
pub fn acts(kind: Kind) -> bool
    ensures { result ≡ acts_w (number_of kind) }
{
    match kind {
        Kind::Assign | Kind::If | Kind::While => true,
        Kind::Notify | Kind::Solicit | Kind::Scope => true,
        Kind::Inst | Kind::Throw | Kind::Comp => true,
        Kind::Executor | Kind::Notice => true,
        _ => false,
    }
}

// Whether a process of this kind may receive.
#[tactic(auto, unfolding(crate::specs::Glances::hears_w))]
pub fn hears(kind: Kind) -> bool
    ensures { result ≡ hears_w (number_of kind) }
{
    matches!(
        kind,
        Kind::Choice | Kind::OneWay | Kind::Request | Kind::Waiter
    )
}

// Whether a place is behind the process that begins at `start`; no, if its end was not noted.
#[tactic(auto, unfolding(crate::specs::Glances::behind_w))]
pub fn behind(noted: &Noted, start: usize, at: usize) -> bool
    ensures { result ≡ behind_w noted.now.notes.now start at }
{
    let end = noted.note(start);
    end != 0 && start < at && end <= at
}

// Whether the sender of that kind at `at`, in the engine whose process begins at `start`, may name the engine given.
#[tactic(auto, unfolding(crate::specs::Glances::meant_w))]
pub fn meant(ws: &[u16], start: usize, at: usize, kind: Kind, engine: u16) -> bool
    ensures { result ≡ meant_w ws.now start at (number_of kind) engine }
{
    let w = word(ws, further(at, 1));
    match kind {
        Kind::Executor => executors_client(w) == wide(engine),
        Kind::Notice => notices_client(w) == wide(engine),
        _ => {
            if start < VALUES || ws.len() < start {
                return true;
            }
            variable(&ws[start - VALUES..start], first_variable(w)) == u32::from(engine)
        }
    }
}
