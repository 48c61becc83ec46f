// Taking back the last step: by a journal that matches, what was before is put together in scratch and read, and only then written.
ghost use Rattle.std.specs.Prelude.{◌≡◌, true, ◌-◌, ◌≤◌, length};
ghost use Rattle.sock.specs.Configuration.{standard};
ghost use Rattle.sock.specs.Journal.{left, put_back, taken_of, restored_over, take_back_answer, take_back_output};
ghost use Rattle.journal.specs.Answers.{taken_as};
ghost use Rattle.journal.specs.Back.{counts_of, said, sound_by, Fits, put_w, checked_back};

use crate::compare::first_alike;
use layout::limit::LONGEST;
use layout::number::{wide, word};
use layout::refusal::Refusal;
use reading::calls::check_readable;
use stepping::steps::SHORT;
use writers::write::copy;

// The four counts at the head of a journal.
#[derive(Clone, Copy)]
pub struct Counts {
    pub old: u16,
    pub new: u16,
    pub first: u16,
    pub last: u16,
}

#[tactic(auto, unfolding(crate::specs::Back::counts_of))]
fn counts_in(journal: &[u16]) -> Counts
    ensures { result ≡ counts_of journal.now }
{
    Counts {
        old: word(journal, 0),
        new: word(journal, 1),
        first: word(journal, 2),
        last: word(journal, 3),
    }
}

// Whether the alike counts together are in both lengths, and all words are among the `behind` that follow.
#[tactic(auto, unfolding(crate::specs::Back::sound_by))]
fn sound(c: Counts, behind: usize) -> bool
    ensures { result ≡ sound_by c behind }
{
    let alike = wide(c.first) + wide(c.last);
    let old = wide(c.old);
    let new = wide(c.new);
    if old < alike {
        return false;
    }
    if new < alike {
        return false;
    }
    (old - alike) + (new - alike) <= behind
}

// Whether the words have the new length, and the new words at their place. The three stay apart here: that they match is found out first.
fn left(ws: &[u16], journal: &[u16], c: Counts) -> bool
    requires { (sound_by c (length journal.now - 4) ≡ true) × (4 ≤ length journal.now) }
    ensures { result ≡ left (said c journal.now) ws.now }
{
    let first = wide(c.first);
    let alike = first + wide(c.last);
    let new = wide(c.new);
    if ws.len() != new {
        return false;
    }
    let from = 4 + (wide(c.old) - alike);
    let n = new - alike;
    first_alike(&ws[first..first + n], &journal[from..from + n]) == n
}

// A journal with the words that it matches.
#[derive(Clone, Copy)]
struct Matching<'a> {
    ws: &'a [u16],
    journal: &'a [u16],
    counts: Counts,
    ghost fits: { Fits counts ws.now journal.now },
}

impl<'a> Matching<'a> {
    // The words before the step, over the first of `scratch`.
    #[tactic(auto, unfolding(crate::specs::Back::put_w))]
    fn put_back(&self, scratch: &mut [u16])
        ensures { scratch.new ≡ put_w self.now.counts self.now.ws.now self.now.journal.now scratch.old }
    {
        let c = self.counts;
        let first = wide(c.first);
        let was = wide(c.old).saturating_sub(first + wide(c.last));
        let n = self.ws.len();
        copy(self.ws, 0, first, scratch, 0);
        copy(self.journal, 4, 4 + was, scratch, first);
        copy(
            self.ws,
            n.saturating_sub(wide(c.last)),
            n,
            scratch,
            first + was,
        );
    }

    // What was before is read, and written if it fits.
    fn checked(&self, scratch: &mut [u16], out: &mut [u16]) -> Result<u16, Refusal>
        requires { self.now.counts.old ≤ length scratch.old }
        ensures answered { taken_as result ≡ taken_of (checked_back standard (put_back (said self.now.counts self.now.journal.now) self.now.ws.now) (length out.old)) }
        ensures wrote { out.new ≡ restored_over (checked_back standard (put_back (said self.now.counts self.now.journal.now) self.now.ws.now) (length out.old)) out.old }
    {
        let n = wide(self.counts.old);
        self.put_back(scratch);
        if check_readable(&scratch[..n]).is_err() {
            return Err(Refusal::Unmatched);
        }
        if out.len() < n {
            return Err(Refusal::OutputShort);
        }
        copy(scratch, 0, n, out, 0);
        Ok(self.counts.old)
    }

    // With scratch for what was before.
    fn restore(&self, out: &mut [u16]) -> Result<u16, Refusal>
        ensures answered { taken_as result ≡ taken_of (checked_back standard (put_back (said self.now.counts self.now.journal.now) self.now.ws.now) (length out.old)) }
        ensures wrote { out.new ≡ restored_over (checked_back standard (put_back (said self.now.counts self.now.journal.now) self.now.ws.now) (length out.old)) out.old }
    {
        let n = wide(self.counts.old);
        if LONGEST < n {
            return Err(Refusal::Unmatched);
        }
        if SHORT < n {
            let mut scratch = [0u16; LONGEST];
            return self.checked(&mut scratch, out);
        }
        let mut scratch = [0u16; SHORT];
        self.checked(&mut scratch, out)
    }
}

// Taking back: the earlier configuration's words in the output, and how many. `Unreadable` if the words are not readable, `Unmatched` if the
// journal does not match, `OutputShort` if the output is too short; a refusal changes no word.
#[tactic(auto, using(crate::proofs::Restoring::unread_answer))]
pub fn take_back(ws: &[u16], journal: &[u16], out: &mut [u16]) -> Result<u16, Refusal>
    ensures answered { taken_as result ≡ take_back_answer standard ws.now journal.now out.old }
    ensures wrote { out.new ≡ take_back_output standard ws.now journal.now out.old }
{
    check_readable(ws)?;
    if journal.len() < 4 {
        return Err(Refusal::Unmatched);
    }
    let counts = counts_in(journal);
    if !sound(counts, journal.len() - 4) {
        return Err(Refusal::Unmatched);
    }
    if !left(ws, journal, counts) {
        return Err(Refusal::Unmatched);
    }
    let matching = Matching {
        ws,
        journal,
        counts,
    };
    matching.restore(out)
}
