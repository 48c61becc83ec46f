// With one move left to the keeper: a reply of the serial that is ready is a yes, and where there is none it is a no. Both are told from one survey,
// by the numbers of moves as in the search, and nothing is stepped.
ghost use Rattle.std.specs.Prelude.{◌≡◌, ◌<◌, ◌≤◌, ◌%◌, length, true, false};
ghost use Rattle.stepping.specs.Bundles.{engines_of};
ghost use Rattle.keeper.specs.Answers.{is_river};
ghost use Rattle.keeper.specs.Hopes.{ready_at};
ghost use Rattle.keeper.specs.Moves.{past_of};
ghost use Rattle.keeper.specs.Seeking.{side_of, Surveyed, There, Here, Sends};
ghost use Rattle.keeper.specs.Replies.{answered_w, Sighted, Spied, Replied};

use crate::hope::ready_at;
use crate::moves::{COUNT, ENGINE, Mover, PLACE, POSITION, numbers_at, past};
use crate::seek::Search;
use finding::find::{Found, Site, locate};
use layout::field::executors_client;
use layout::limit::FUEL;
use layout::number::{wide, word};
use rules::message::Message;
use rules::pair::awaits;
use stepping::bundles::Numbers;

// Whether the move with a number is such a reply; and where to go on.
#[derive(Clone, Copy)]
struct Sight {
    ready: bool,
    next: usize,
}

// None with the same part of so many.
fn elsewhere(i: usize, unit: usize) -> Sight
    requires { (i < 68719476736) × (0 < unit) × (unit ≤ 8589934592) }
    ensures ready { result.ready ≡ false }
    ensures further { result.next ≡ past_of i unit }
{
    Sight {
        ready: false,
        next: past(i, unit),
    }
}

impl<'a> Search<'a> {
    // Whether the executor at `a` may reply to the waiter at `b`.
    #[tactic(auto, unfolding(crate::specs::Replies::answered_w, stepping::specs::Meeting::replied_w, stepping::specs::Meeting::replies_w))]
    fn answered(&self, k: Numbers, a: usize, b: usize) -> bool
        ensures { result ≡ answered_w self.now.noted.ws.now a b k.branch k.engine k.second }
    {
        let ws = self.noted.ws;
        if k.engine == k.second || ws.len() < a || ws.len() < b {
            return false;
        }
        let m = Message {
            part: &ws[a..],
            values: &ws[..0],
            other: &ws[b..],
        };
        let head = word(m.part, 0);
        let client = executors_client(word(m.part, 1));
        let serial = word(m.part, 2);
        k.branch == 0
            && awaits(
                m.other,
                head,
                serial,
                client,
                wide(k.engine),
                wide(k.second),
            )
            && m.answers()
    }

    // The executor a has a nil body; its waiter is sought at the second position.
    fn sight_at(&self, serial: u16, k: Numbers, a: Site, i: usize) -> Sight
        requires { Here self.now.noted.ws.now self.now.noted.notes.now (engines_of self.now.engines) k a i × (ready_at serial self.now.noted.ws.now a.at ≡ true) }
        ensures { Sighted serial self.now.noted.ws.now i result.ready result.next }
    {
        match self.receiver(k, a, i) {
            Err(next) => Sight { ready: false, next },
            Ok(b) => Sight {
                ready: self.answered(k, a.at, b.at),
                next: past(i, PLACE),
            },
        }
    }

    // The first engine is there; the executor is sought at the position.
    fn sight_in(&self, serial: u16, k: Numbers, i: usize) -> Sight
        requires { There self.now.noted.ws.now self.now.noted.notes.now (engines_of self.now.engines) k i }
        ensures { Sighted serial self.now.noted.ws.now i result.ready result.next }
    {
        let Some(at) = self.place(k.engine, k.position) else {
            return elsewhere(i, ENGINE);
        };
        if !ready_at(self.noted.ws, serial, at) {
            return elsewhere(i, POSITION);
        }
        match locate(&self.noted, self.engines.start(wide(k.engine)), at, FUEL, 1) {
            Found::Past(e) => elsewhere(i, POSITION),
            Found::Hit(a) => self.sight_at(serial, k, a, i),
        }
    }

    // The move with the number i, if it can be one of the side.
    fn sight(&self, mover: Mover, serial: u16, i: usize) -> Sight
        requires { Surveyed self.now.noted.ws.now self.now.noted.notes.now (engines_of self.now.engines) × (i < 68719476736) }
        ensures { Spied mover.engines serial (side_of (is_river mover.side)) self.now.noted.ws.now i result.ready result.next }
    {
        let k = numbers_at(i);
        if !mover.owns(k.engine) {
            return elsewhere(i, ENGINE);
        }
        if self.engines.found.engines <= wide(k.engine) {
            return elsewhere(i, ENGINE);
        }
        self.sight_in(serial, k, i)
    }

    // A reply of the side's that is ready, if it has one.
    pub fn reply(&self, mover: Mover, serial: u16) -> Option<usize>
        requires { Surveyed self.now.noted.ws.now self.now.noted.notes.now (engines_of self.now.engines) }
        ensures { Replied mover.engines serial (side_of (is_river mover.side)) self.now.noted.ws.now result }
    {
        let mut i = 0;
        while i < COUNT {
            let s = self.sight(mover, serial, i);
            if s.ready {
                return Some(i);
            }
            i = s.next;
        }
        None
    }
}
