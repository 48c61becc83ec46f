// Taking back with an index: 17 before all others; the serials of the waiters in what was restored are listed anew.
ghost use Rattle.std.specs.Prelude.{◌≡◌};
ghost use Rattle.sock.specs.Configuration.{standard};
ghost use Rattle.sock.specs.Index.{indexed_taken, indexed_restored, indexed_relisted};
ghost use Rattle.journal.specs.Answers.{taken_as};

use crate::form::in_order;
use crate::waiters::list_anew;
use journal::back::take_back;
use layout::refusal::Refusal;

// `cabinet` has this frame on bytes. One function for both would lend the call what it restores to, as in `steps`, and ask besides that no
// length that the call answers is above that: it is no plainer than these lines.

// A refusal changes no word of what is lent, and words past the index's 2,049 stay.
#[tactic(auto, using(crate::proofs::Forming::order_long))]
pub fn take_back_indexed(
    ws: &[u16],
    journal: &[u16],
    out: &mut [u16],
    index: &mut [u16],
) -> Result<u16, Refusal>
    ensures answered { taken_as result ≡ indexed_taken standard ws.now journal.now out.old index.old }
    ensures wrote { out.new ≡ indexed_restored standard ws.now journal.now out.old index.old }
    ensures relisted { index.new ≡ indexed_relisted standard ws.now journal.now out.old index.old }
{
    if !in_order(index) {
        return Err(Refusal::NoIndex);
    }
    let length = take_back(ws, journal, out)?;
    list_anew(&out[..usize::from(length)], index);
    Ok(length)
}
