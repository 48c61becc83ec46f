// Whether a window is one that some run gives.
ghost use Rattle.std.specs.Prelude.{◌≡◌, ◌==◌, length};
ghost use Rattle.std.specs.List.{list_all, zip};
ghost use Rattle.window.specs.Window.{given};

use crate::bounded::Width;
use crate::counts::tally;
use crate::layout::{FIRST, HELD, OPERATIONS, WORDS};

fn agree(counts: &[u16], recount: &[u16]) -> bool
    requires { length counts.now ≡ length recount.now }
    ensures { result ≡ list_all (λ pair. pair.0 == pair.1) (zip counts.now recount.now) }
{
    counts
        .iter()
        .zip(recount)
        .all(|(count, recounted)| count == recounted)
}

// Whether a run of this width gives the words: at most so many entries, each at most 64, zeros behind, and counts that are their recount.
pub(crate) fn is_given(width: Width, words: &[u16; WORDS]) -> bool
    ensures { result ≡ given width.number words.now }
{
    let held = usize::from(words[HELD]);
    if usize::from(width.number) < held {
        return false;
    }
    let (entries, behind) = words[FIRST..].split_at(held);
    match tally(entries) {
        Ok(tally) => behind.iter().all(|word| *word == 0)
            && agree(&words[..OPERATIONS], &tally[1..]),
        Err(_) => false,
    }
}
