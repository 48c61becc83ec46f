// A window that some run gives: one entry enters, and the oldest goes.
ghost use Rattle.std.specs.Prelude.{◌≡◌, [], ◌∷◌, ◌++◌, ◌≤◌, ◌<◌, true, false, suc, length, drop, MatchResult};
ghost use Rattle.window.specs.Window.{entries_of, window_of, given, last, times};
ghost use Rattle.window.specs.Entering.{Formed};

use crate::bounded::{Entry, Operation, Width, Within};
use crate::counts::{lower, raise};
use crate::layout::{FIRST, HELD, WIDEST, WORDS};
use crate::refusal::Refusal;
use crate::testing::is_given;
use std::marker::Model;

#[derive(Drop)]
pub(crate) struct Window {
    words: [u16; WORDS],
}

// Clauses see the entries, oldest first.
impl Model for Window {
    ghost use Rattle.std.specs.Prelude.{ℕ, List};
    ghost use Rattle.window.specs.Window.{entries_of};
    ghost use Rattle.window.specs.Entering.{Formed};

    ghost Value = { List ℕ };

    ghost view = { λ window. entries_of window.words };

    ghost invariant = { λ window. Formed window.words };
}

impl Window {
    // The window of the words; refused if no run of this width gives them.
    pub(crate) fn of(width: Width, words: [u16; WORDS]) -> Result<Window, Refusal>
        ensures { MatchResult result (λ entries. (given width.number words ≡ true) × (entries ≡ entries_of words)) (λ _. given width.number words ≡ false) }
    {
        if is_given(width, &words) {
            Ok(Window { words })
        } else {
            Err(Refusal)
        }
    }

    // The faults of an operation.
    pub(crate) fn count(&self, operation: Operation) -> u16
        ensures { result ≡ times (suc operation.number) self.now }
    {
        self.words[usize::from(operation.number)]
    }

    // Once the width's number of entries is held, the oldest goes.
    pub(crate) fn enter(&mut self, width: Width, entry: Entry)
        requires { length self.old ≤ width.number }
        ensures { self.new ≡ last width.number (self.old ++ (entry.number ∷ [])) }
    {
        if self.words[HELD] < width.number {
            append(&mut self.words, entry);
        } else {
            replace(&mut self.words, entry);
        }
    }

    // The words of the entries that are held now.
    pub(crate) fn into_words(self) -> [u16; WORDS]
        ensures { result ≡ window_of self }
    {
        let Window { words } = self;
        words
    }
}

// An entry into words with room for it.
fn append(words: &mut [u16; WORDS], entry: Entry)
    requires formed { Formed words.old }
    requires room { length (entries_of words.old) < WIDEST }
    ensures { words.new ≡ window_of (entries_of words.old ++ (entry.number ∷ [])) }
{
    let held = words[HELD];
    words[FIRST + usize::from(held)] = entry.number;
    words[HELD] = held + 1;
    raise(words, entry);
}

// An entry in place of the oldest.
fn replace(words: &mut [u16; WORDS], entry: Entry)
    requires formed { Formed words.old }
    requires some { 1 ≤ length (entries_of words.old) }
    ensures { words.new ≡ window_of (drop 1 (entries_of words.old) ++ (entry.number ∷ [])) }
{
    let end = FIRST + usize::from(words[HELD]);
    let oldest = Within {
        number: words[FIRST],
    };
    lower(words, oldest);
    words.copy_within(FIRST + 1..end, FIRST);
    words[end - 1] = entry.number;
    raise(words, entry);
}
