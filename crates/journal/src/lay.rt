// A journal laid out over what is lent for it.
ghost use Rattle.std.specs.Prelude.{◌≡◌};
ghost use Rattle.journal.specs.Laying.{lay_w, lay_end};

use crate::compare::Alike;
use layout::number::word_of;
use writers::write::{copy, put};

// The journal of `old` and `new`, which have so many words alike; the count of its words.
#[tactic(auto, unfolding(crate::specs::Laying::lay_w, crate::specs::Laying::lay_end, crate::specs::Laying::counts, crate::specs::Laying::old_end))]
pub fn lay(old: &[u16], new: &[u16], alike: Alike, journal: &mut [u16]) -> usize
    ensures { (result ≡ lay_end old.now new.now alike.first alike.last) × (journal.new ≡ lay_w old.now new.now alike.first alike.last journal.old) }
{
    let Alike { first, last } = alike;
    put(journal, 0, word_of(old.len()));
    put(journal, 1, word_of(new.len()));
    put(journal, 2, word_of(first));
    put(journal, 3, word_of(last));
    let to = copy(old, first, old.len().saturating_sub(last), journal, 4);
    copy(new, first, new.len().saturating_sub(last), journal, to)
}
