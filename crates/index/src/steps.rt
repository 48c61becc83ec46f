// The step that is lent an index: 17 before all others; an accepted solicit puts its serial in, and a delivery takes it out.
ghost use Rattle.std.specs.Prelude.{◌≡◌, true};
ghost use Rattle.sock.specs.Configuration.{standard};
ghost use Rattle.sock.specs.Calls.{over};
ghost use Rattle.sock.specs.Index.{index_of, indexed_answer, indexed_output, indexed_journal, indexed_index};
ghost use Rattle.layout.specs.Kinds.{number_of};
ghost use Rattle.stepping.specs.Answers.{told};
ghost use Rattle.stepping.specs.Bundles.{numbers_as};
ghost use Rattle.stepping.specs.Serials.{serial_in};
ghost use Rattle.index.specs.Form.{in_order, serials_in, open_by};

use crate::change::{put, take};
use crate::form::in_order;
use layout::kind::Kind;
use layout::refusal::Refusal;
use std::num::NonZeroU16;
use stepping::answer::Accepted;
use stepping::bundles::Numbers;
use stepping::serial;

// The index after an accepted step, by the kind and the serial answered; none is as 0, since a kind that opens or closes one has it.
#[tactic(auto, using(crate::proofs::Forming::laid_back), unfolding(crate::specs::Form::open_by))]
pub fn follow(index: &mut [u16], kind: Kind, serial: Option<NonZeroU16>)
    requires { in_order index.old ≡ true }
    ensures { index.new ≡ over (index_of (open_by (number_of kind) (serial_in serial) (serials_in index.old))) index.old }
{
    let serial = serial::number(serial);
    match kind {
        Kind::Solicit => put(index, serial),
        Kind::Executor | Kind::Notice => take(index, serial),
        _ => {}
    }
}

// `cabinet` has this frame on bytes. One function for both that takes the call as a closure is no plainer than these lines: of what a closure
// borrows nothing is known where it isn't called, so output and journal would go through it, and its contract would say of each what it is
// after the call and without one.

// The step with a journal and an index. A refusal changes no word of what is lent, and words past the index's 2,049 stay.
pub fn step_indexed(
    ws: &[u16],
    k: Numbers,
    out: &mut [u16],
    journal: &mut [u16],
    index: &mut [u16],
) -> Result<Accepted, Refusal>
    ensures answered { told result ≡ indexed_answer standard ws.now (numbers_as k) out.old journal.old index.old }
    ensures wrote { out.new ≡ indexed_output standard ws.now (numbers_as k) out.old journal.old index.old }
    ensures noted { journal.new ≡ indexed_journal standard ws.now (numbers_as k) out.old journal.old index.old }
    ensures followed { index.new ≡ indexed_index standard ws.now (numbers_as k) out.old journal.old index.old }
{
    if !in_order(index) {
        return Err(Refusal::NoIndex);
    }
    let given = journal::steps::step(ws, k, out, journal)?;
    follow(index, given.kind, given.serial);
    Ok(given)
}
