// Passing over what was read, by notes: what was noted, while reading, of where processes and lists end. A word has two notes, one for the
// process that begins there and one for the list; 0 where nothing was noted, and then the words are passed over.
ghost use Rattle.std.specs.Prelude.{◌≡◌};
ghost use Rattle.skipping.specs.Pass.{note_at, pass_end, pass_entries, pass_list};

use crate::skip::{skip, skip_list};
use layout::number::{wide, word};

// Words, with what was noted of them while reading.
#[derive(Clone, Copy)]
pub struct Noted<'a> {
    pub ws: &'a [u16],
    pub notes: &'a [u16],
}

impl<'a> Noted<'a> {
    // Where the process at `at` ends, if it was noted.
    #[tactic(auto, unfolding(crate::specs::Pass::note_at))]
    pub fn note(&self, at: usize) -> usize
        ensures { result ≡ note_at self.now.notes.now at }
    {
        if self.notes.len() <= at {
            return 0;
        }
        wide(word(self.notes, at * 2))
    }

    // Where the process at `at` ends.
    #[tactic(auto, unfolding(crate::specs::Pass::pass_end))]
    pub fn pass(&self, at: usize, depth: usize) -> usize
        ensures { result ≡ pass_end depth self.now.ws.now self.now.notes.now at }
    {
        let e = self.note(at);
        if e == 0 { skip(self.ws, at, depth) } else { e }
    }

    // Where the list whose count is at `at` ends, unless it is empty.
    #[tactic(auto, unfolding(crate::specs::Pass::list_note_at, crate::specs::Pass::pass_entries))]
    fn pass_entries(&self, at: usize, depth: usize) -> usize
        ensures { result ≡ pass_entries depth self.now.ws.now self.now.notes.now at }
    {
        if self.notes.len() <= at {
            return skip_list(self.ws, at, depth, None);
        }
        let e = wide(word(self.notes, at * 2 + 1));
        if e == 0 {
            skip_list(self.ws, at, depth, None)
        } else {
            e
        }
    }

    // Where the list whose count is at `at` ends. Most lists of scopes are empty, and the count tells it without a call.
    #[tactic(auto, unfolding(crate::specs::Pass::pass_list))]
    pub fn pass_list(&self, at: usize, depth: usize) -> usize
        ensures { result ≡ pass_list depth self.now.ws.now self.now.notes.now at }
    {
        let ws = self.ws;
        if ws.len() <= at {
            return 0;
        }
        if ws[at] == 0 {
            return at + 1;
        }
        self.pass_entries(at, depth)
    }
}
