// The game, depth first with the moves left falling. Each position is surveyed once, whoever moves and however many moves there are; its words, its
// notes and the place of the search stand still while the game below one of its moves is played in the scratch behind it.
ghost use Rattle.std.specs.Prelude.{◌≡◌, suc, ◌+◌, ◌*◌, ◌≤◌, ◌<◌, false, length, take, drop, Ok, None};
ghost use Rattle.std.specs.Option.{is_some};
ghost use Rattle.stepping.specs.Bundles.{engines_of};
ghost use Rattle.stepping.specs.Answers.{told};
ghost use Rattle.keeper.specs.Answers.{is_river};
ghost use Rattle.keeper.specs.Game.{forces};
ghost use Rattle.keeper.specs.Seeking.{side_of, Surveyed};
ghost use Rattle.keeper.specs.Playing.{delivers_by, won_by, turned};
ghost use Rattle.keeper.specs.Verdicts.{Judged, TriedAll};

use crate::hope::lost;
use crate::moves::{Mover, Side};
use crate::seek::Search;
use layout::kind::Kind;
use layout::limit::{LONGEST, STANDARD};
use layout::number::{wide, word};
use noting::survey::{Named, survey};
use skipping::pass::Noted;
use stepping::answer::Accepted;
use stepping::bundles::Engines;
use stepping::serial::number;
use stepping::steps::MANY;

// What stays the same all through a game: the set of the keeper's engines, and the serial.
#[derive(Clone, Copy)]
pub struct Game {
    pub engines: u8,
    pub serial: u16,
}

// Whether the keeper can force it, and the number of the move that decided, if one did.
#[derive(Clone, Copy)]
pub struct Verdict {
    pub forced: bool,
    pub decided: Option<usize>,
}

// Whether a step accepted delivered the serial.
#[tactic(auto, unfolding(crate::specs::Playing::delivers_by))]
fn delivers(serial: u16, a: Accepted) -> bool
    ensures { result ≡ delivers_by serial (told (Ok a)) }
{
    matches!(a.kind, Kind::Executor | Kind::Notice) && number(a.serial) == serial
}

// Whether a move decides for the side that makes it: the keeper wants to win, the river that he does not.
#[tactic(auto, unfolding(crate::specs::Playing::turned))]
fn decides(side: Side, won: bool) -> bool
    ensures { result ≡ turned (is_river side) won }
{
    match side {
        Side::Keeper => won,
        Side::River => !won,
    }
}

// No, by whatever move.
fn no() -> Verdict
    ensures forced { result.forced ≡ false }
    ensures decided { result.decided ≡ None }
{
    Verdict {
        forced: false,
        decided: None,
    }
}

// With the keeper's last move: yes by a reply that is ready, or no.
fn last(reply: Option<usize>) -> Verdict
    ensures forced { result.forced ≡ is_some reply }
    ensures decided { result.decided ≡ reply }
{
    Verdict {
        forced: reply.is_some(),
        decided: reply,
    }
}

impl Game {
    // After a step accepted, whose result the scratch begins with; `side` is the one to move.
    #[cycle(force_judged_node_tried)]
    fn judged(self, scratch: &mut [u16], left: usize, side: Side, a: Accepted) -> bool
        requires { (a.length ≤ 8192) × ((left + 1) * 8192 ≤ length scratch.old) }
        ensures { result ≡ won_by self.serial (forces self.engines self.serial left (side_of (is_river side))) (told (Ok a)) (take a.length scratch.old) }
    {
        if delivers(self.serial, a) {
            return !a.fault;
        }
        let (here, rest) = scratch.split_at_mut(LONGEST);
        let ws = &here[..wide(a.length)];
        if lost(ws, self.serial, left) {
            return false;
        }
        self.force(ws, rest, left, side).forced
    }

    // The moves of a side one after the other, with `left` moves left behind each: the keeper looks for one that wins, the river for one that does not.
    // None if the side has no move.
    #[cycle(force_judged_node_tried)]
    fn tried(self, search: &Search, rest: &mut [u16], left: usize, side: Side) -> Option<Verdict>
        requires { Surveyed search.now.noted.ws.now search.now.noted.notes.now (engines_of search.now.engines) × ((left + 1) * 8192 ≤ length rest.old) }
        ensures { TriedAll self.engines self.serial left (is_river side) search.now.noted.ws.now result }
    {
        let mover = Mover {
            engines: self.engines,
            side,
        };
        let mut from = 0;
        while let Some(m) = search.scan(mover, from, &mut rest[..LONGEST]) {
            let won = self.judged(rest, left, side.other(), m.accepted);
            if decides(side, won) {
                return Some(Verdict {
                    forced: won,
                    decided: Some(m.index),
                });
            }
            from = m.index + 1;
        }
        if from == 0 {
            return None;
        }
        Some(Verdict {
            forced: side == Side::River,
            decided: None,
        })
    }

    // A position that was surveyed, with a side to move.
    #[cycle(force_judged_node_tried)]
    fn node(self, search: &Search, rest: &mut [u16], left: usize, side: Side) -> Verdict
        requires { Surveyed search.now.noted.ws.now search.now.noted.notes.now (engines_of search.now.engines) × (left * 8192 ≤ length rest.old) }
        ensures { Judged self.engines self.serial left (is_river side) search.now.noted.ws.now result }
    {
        if left == 0 {
            return no();
        }
        if left == 1 && side == Side::Keeper {
            let mover = Mover {
                engines: self.engines,
                side,
            };
            return last(search.reply(mover, self.serial));
        }
        match self.tried(search, rest, left - 1, side) {
            Some(v) => v,
            None => Verdict {
                forced: self.node(search, rest, left - 1, side.other()).forced,
                decided: None,
            },
        }
    }

    // Whether the keeper can force it with so many moves left, from a configuration's words on. Those that follow it are written into the rest, each
    // 8,192 words behind the one it came from.
    #[cycle(force_judged_node_tried)]
    pub fn force(self, ws: &[u16], rest: &mut [u16], left: usize, side: Side) -> Verdict
        requires { left * 8192 ≤ length rest.old }
        ensures { Judged self.engines self.serial left (is_river side) ws.now result }
    {
        let mut notes = [0u16; MANY];
        let Some(found) = survey(ws, STANDARD, Named::All, &mut notes) else {
            return no();
        };
        let search = Search {
            noted: Noted { ws, notes: &notes },
            engines: Engines {
                found,
                issued: word(ws, 1),
            },
        };
        self.node(&search, rest, left, side)
    }
}
