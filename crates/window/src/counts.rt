// The counts at the window's head: a recount of entries, and one fault more or less.
ghost use Rattle.std.specs.Prelude.{◌≡◌, ◌+◌, ◌-◌, ◌≤◌, ◌<◌, true, false, length, get_or, MatchResult};
ghost use Rattle.window.specs.Window.{counts_from, none_above};
ghost use Rattle.window.specs.Entering.{raised, lowered};

use crate::bounded::Entry;
use crate::layout::{OPERATIONS, WIDEST, WORDS};
use crate::refusal::Refusal;

// How often each entry from 0 on occurs.
type Tally = [u16; OPERATIONS + 1];

// The entries' tally; refused if a word is no entry.
pub(crate) fn tally(words: &[u16]) -> Result<Tally, Refusal>
    requires { length words.now ≤ WIDEST }
    ensures { MatchResult result (λ counts. (none_above 64 words.now ≡ true) × (counts ≡ counts_from 65 0 words.now)) (λ _. none_above 64 words.now ≡ false) }
{
    let mut counts = [0; OPERATIONS + 1];
    for word in words {
        let entry = Entry::try_from(*word)?;
        counts[usize::from(entry.number)] += 1;
    }
    Ok(counts)
}

// `raise` and `lower` differ in a sign, and ask different things (`fits`, `counted`). One function that takes the change as a closure is no
// plainer: its contract would speak of the closure's.

// One fault more, if the entry is one.
#[tactic(auto, unfolding(crate::specs::Entering::raised))]
pub(crate) fn raise(window: &mut [u16; WORDS], entry: Entry)
    requires fits { get_or window.old (entry.number - 1) 0 ≤ WIDEST }
    ensures { window.new ≡ raised entry.number window.old }
{
    if let Some(operation) = entry.number.checked_sub(1) {
        window[usize::from(operation)] += 1;
    }
}

// One fault less, if the entry is one.
#[tactic(auto, unfolding(crate::specs::Entering::lowered))]
pub(crate) fn lower(window: &mut [u16; WORDS], entry: Entry)
    requires counted { 0 < entry.number → 0 < get_or window.old (entry.number - 1) 0 }
    ensures { window.new ≡ lowered entry.number window.old }
{
    if let Some(operation) = entry.number.checked_sub(1) {
        window[usize::from(operation)] -= 1;
    }
}
