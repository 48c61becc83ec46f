// Where a process's own words end: its head, its fixed words and its lists of variables. The fixed table of kinds decides. Of what begins behind
// the words the end is 0 (of no list, where it would begin), and no `Option`: whoever passes over goes on from an end and does not ask whether
// there is one, so each would unwrap it with 0.
ghost use Rattle.std.specs.Prelude.{◌≡◌, ◌<◌};
ghost use Rattle.layout.specs.Kinds.{number_of};
ghost use Rattle.layout.specs.Own.{variables_end, lists_end, own_form, own_end};

use crate::kind::Kind;
use crate::number::wide;

// Where the list of variables whose count is at `at` ends: it has as many words as variables.
#[tactic(auto, unfolding(crate::specs::Own::variables_end))]
pub fn variables_end(ws: &[u16], at: usize) -> usize
    ensures { result ≡ variables_end ws.now at }
{
    if ws.len() <= at {
        return 0;
    }
    at + wide(ws[at])
}

// Where none, one or two such lists end.
#[tactic(auto, unfolding(crate::specs::Own::lists_end))]
pub fn lists_end(ws: &[u16], at: usize, lists: usize) -> usize
    ensures { result ≡ lists_end ws.now at lists }
{
    if lists == 0 {
        return at;
    }
    let a = variables_end(ws, at);
    if lists == 1 {
        return a;
    }
    variables_end(ws, a)
}

// The table's fixed words, times 4, and lists of variables of a kind in one number. The table itself is laid out anew wherever it is indexed;
// this is one look at constant memory.
#[tactic(auto, unfolding(crate::specs::Own::own_form, sock::specs::Counts::counts_of, sock::specs::Counts::counted, sock::specs::Kind::row_of, sock::specs::Kind::rows, sock::specs::Counts::word_count, sock::specs::Counts::list_count))]
fn own_form(kind: Kind) -> usize
    ensures { (result ≡ own_form (number_of kind)) × (result < 16) }
{
    match kind {
        Kind::OneWay => 1,
        Kind::Request | Kind::Solicit => 6,
        Kind::Notify => 5,
        Kind::Scope => 4,
        Kind::Executor | Kind::Waiter => 9,
        Kind::Notice => 8,
        _ => 0,
    }
}

// Where the own words of the process at `at` end.
#[tactic(auto, unfolding(crate::specs::Own::own_end), using(crate::proofs::Owns::end_by, crate::proofs::Owns::form_named))]
pub fn own_end(ws: &[u16], at: usize) -> usize
    ensures { result ≡ own_end ws.now at }
{
    if ws.len() <= at {
        return 0;
    }
    let form = own_form(Kind::of(ws[at]));
    lists_end(ws, at + 1 + form / 4, form % 4)
}
