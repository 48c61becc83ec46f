// The moves of a side one after the other: each five numbers that can be a move are tried by the step, and such that cannot are passed by. What
// is enabled is known from one survey.
ghost use Rattle.std.specs.Prelude.{◌≡◌, ◌<◌, ◌≤◌, length, IfSome};
ghost use Rattle.layout.specs.Refusals.{refusal_number};
ghost use Rattle.stepping.specs.Answers.{told};
ghost use Rattle.stepping.specs.Answering.{refusing};
ghost use Rattle.stepping.specs.Bundles.{engines_of};
ghost use Rattle.keeper.specs.Answers.{is_river, index_in, answer_in};
ghost use Rattle.keeper.specs.Moves.{past_of};
ghost use Rattle.keeper.specs.Seeking.{side_of, place_w, Surveyed, There, Here, Sends, Received, Tried, Looked, Scanned};

use crate::glance::{acts, behind, hears, meant};
use crate::moves::{COUNT, ENGINE, Mover, PLACE, POSITION, SECOND, numbers_at, past};
use finding::find::{Found, Site, locate};
use layout::kind::Kind;
use layout::limit::{FUEL, STANDARD};
use layout::number::{further, wide, word};
use layout::refusal::Refusal;
use skipping::pass::Noted;
use stepping::answer::Accepted;
use stepping::bundles::{Engines, Numbers};
use stepping::steps::{Way, moves, moving};

// What the step answers where it was tried, or why it was not; and where to go on.
#[derive(Clone, Copy)]
struct Glance {
    answer: Result<Accepted, Refusal>,
    next: usize,
}

// Nothing is tried: all with the same part of so many are passed by.
fn pass_by(refusal: Refusal, i: usize, unit: usize) -> Glance
    requires { (i < 68719476736) × (0 < unit) × (unit ≤ 8589934592) }
    ensures answered { told result.answer ≡ refusing (refusal_number refusal) }
    ensures further { result.next ≡ past_of i unit }
{
    Glance {
        answer: Err(refusal),
        next: past(i, unit),
    }
}

// The number of a move, and what its step answers.
#[derive(Clone, Copy)]
pub struct Move {
    pub index: usize,
    pub accepted: Accepted,
}

// What stays the same through the search of a position, from its one survey: its words with their notes, and its engines.
#[derive(Clone, Copy)]
pub struct Search<'a> {
    pub noted: Noted<'a>,
    pub engines: Engines,
}

impl<'a> Search<'a> {
    // The place of a position of an engine; none if no process can stand there, or further on in that engine.
    #[tactic(auto, unfolding(crate::specs::Seeking::place_w))]
    pub fn place(&self, engine: u16, position: u16) -> Option<usize>
        ensures { result ≡ place_w self.now.noted.ws.now self.now.noted.notes.now (engines_of self.now.engines) engine position }
    {
        let position = wide(position);
        if self.noted.ws.len() <= position {
            return None;
        }
        let start = self.engines.start(wide(engine));
        let at = further(start, position);
        if behind(&self.noted, start, at) {
            return None;
        }
        Some(at)
    }

    // The receiver at the second position; or where to go on, if none can stand there.
    fn receiver_at(&self, k: Numbers, a: Site, i: usize) -> Result<Site, usize>
        requires { Here self.now.noted.ws.now self.now.noted.notes.now (engines_of self.now.engines) k a i × Sends self.now.noted.ws.now self.now.noted.notes.now a × (k.second < self.now.engines.found.engines) }
        ensures { Received self.now.noted.ws.now self.now.noted.notes.now (engines_of self.now.engines) k i result }
    {
        let Some(to) = self.place(k.second, k.second_position) else {
            return Err(past(i, SECOND));
        };
        if !hears(Kind::of(word(self.noted.ws, to))) {
            return Err(past(i, PLACE));
        }
        match locate(&self.noted, self.engines.start(wide(k.second)), to, FUEL, 1) {
            Found::Past(e) => Err(past(i, PLACE)),
            Found::Hit(b) => Ok(b),
        }
    }

    // The process a sends, and may be for the second engine.
    pub fn receiver(&self, k: Numbers, a: Site, i: usize) -> Result<Site, usize>
        requires { Here self.now.noted.ws.now self.now.noted.notes.now (engines_of self.now.engines) k a i × Sends self.now.noted.ws.now self.now.noted.notes.now a }
        ensures { Received self.now.noted.ws.now self.now.noted.notes.now (engines_of self.now.engines) k i result }
    {
        let ws = self.noted.ws;
        if self.engines.found.engines <= wide(k.second) {
            return Err(past(i, SECOND));
        }
        let start = self.engines.start(wide(k.engine));
        if meant(ws, start, a.at, Kind::of(word(ws, a.at)), k.second) {
            return self.receiver_at(k, a, i);
        }
        Err(past(i, SECOND))
    }

    // The process a sends to the receiver, if there is one.
    fn look_beside(&self, k: Numbers, a: Site, i: usize, out: &mut [u16]) -> Glance
        requires { Here self.now.noted.ws.now self.now.noted.notes.now (engines_of self.now.engines) k a i × Sends self.now.noted.ws.now self.now.noted.notes.now a × (length out.old ≡ 8192) }
        ensures { Tried self.now.noted.ws.now i (told result.answer) result.next out.new }
    {
        match self.receiver(k, a, i) {
            Err(next) => Glance {
                answer: Err(Refusal::NoPartner),
                next,
            },
            Ok(b) => Glance {
                answer: moving(&self.noted, self.engines, k, a, STANDARD, out),
                next: i + 1,
            },
        }
    }

    // The process a was found: it may have no move, move alone or send.
    fn look_at(&self, k: Numbers, a: Site, i: usize, out: &mut [u16]) -> Glance
        requires { Here self.now.noted.ws.now self.now.noted.notes.now (engines_of self.now.engines) k a i × (length out.old ≡ 8192) }
        ensures { Tried self.now.noted.ws.now i (told result.answer) result.next out.new }
    {
        match moves(&self.noted, a.at, Kind::of(word(self.noted.ws, a.at))) {
            None => pass_by(Refusal::NoMove, i, POSITION),
            Some(Way::Sending) => self.look_beside(k, a, i, out),
            Some(Way::Alone) => Glance {
                answer: moving(&self.noted, self.engines, k, a, STANDARD, out),
                next: past(i, POSITION),
            },
        }
    }

    // The first engine is there; the process that moves is sought at the position.
    fn look_in(&self, k: Numbers, i: usize, out: &mut [u16]) -> Glance
        requires { There self.now.noted.ws.now self.now.noted.notes.now (engines_of self.now.engines) k i × (length out.old ≡ 8192) }
        ensures { Tried self.now.noted.ws.now i (told result.answer) result.next out.new }
    {
        let Some(at) = self.place(k.engine, k.position) else {
            return pass_by(Refusal::NoProcess, i, ENGINE);
        };
        if !acts(Kind::of(word(self.noted.ws, at))) {
            return pass_by(Refusal::NoMove, i, POSITION);
        }
        match locate(&self.noted, self.engines.start(wide(k.engine)), at, FUEL, 1) {
            Found::Past(e) => pass_by(Refusal::NoProcess, i, POSITION),
            Found::Hit(a) => self.look_at(k, a, i, out),
        }
    }

    // The move with the number i is tried if it can be one of the side.
    fn look(&self, mover: Mover, i: usize, out: &mut [u16]) -> Glance
        requires { Surveyed self.now.noted.ws.now self.now.noted.notes.now (engines_of self.now.engines) × (i < 68719476736) × (length out.old ≡ 8192) }
        ensures { Looked mover.engines (side_of (is_river mover.side)) self.now.noted.ws.now i (told result.answer) result.next out.new }
    {
        let k = numbers_at(i);
        if !mover.owns(k.engine) {
            return pass_by(Refusal::NoProcess, i, ENGINE);
        }
        if self.engines.found.engines <= wide(k.engine) {
            return pass_by(Refusal::NoProcess, i, ENGINE);
        }
        self.look_in(k, i, out)
    }

    // The first move of a side from one number on.
    pub fn scan(&self, mover: Mover, from: usize, out: &mut [u16]) -> Option<Move>
        requires { Surveyed self.now.noted.ws.now self.now.noted.notes.now (engines_of self.now.engines) × (length out.old ≡ 8192) }
        ensures scanned { Scanned mover.engines (side_of (is_river mover.side)) self.now.noted.ws.now from (index_in result) (answer_in result) out.new }
        ensures there { IfSome result (λ m. m.index < 68719476736) }
    {
        let mut i = from;
        while i < COUNT {
            let l = self.look(mover, i, out);
            if let Ok(accepted) = l.answer {
                return Some(Move { index: i, accepted });
            }
            i = l.next;
        }
        None
    }
}
