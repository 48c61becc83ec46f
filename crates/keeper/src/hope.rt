// Positions that are lost whoever moves: with no move left, and with one left where no reply of the serial is ready.
ghost use Rattle.std.specs.Prelude.{◌≡◌};
ghost use Rattle.keeper.specs.Hopes.{ready_at, ready_w, lost_w};

use layout::kind::Kind;
use layout::number::{further, word};
use layout::own::own_end;

// Whether a reply of the serial may be ready at a place.
#[tactic(auto, unfolding(crate::specs::Hopes::ready_at))]
pub fn ready_at(ws: &[u16], serial: u16, at: usize) -> bool
    ensures { result ≡ ready_at serial ws.now at }
{
    if Kind::of(word(ws, at)) != Kind::Executor {
        return false;
    }
    word(ws, further(at, 2)) == serial && word(ws, own_end(ws, at)) == 0
}

// Whether one may be ready anywhere.
fn ready(ws: &[u16], serial: u16) -> bool
    ensures { result ≡ ready_w serial ws.now }
{
    for at in 0..ws.len() {
        if ready_at(ws, serial, at) {
            return true;
        }
    }
    false
}

// Whether the keeper cannot force it with so many moves left, whoever is to move.
#[tactic(auto, unfolding(crate::specs::Hopes::lost_w))]
pub fn lost(ws: &[u16], serial: u16, left: usize) -> bool
    ensures { result ≡ lost_w serial left ws.now }
{
    match left {
        0 => true,
        1 => !ready(ws, serial),
        _ => false,
    }
}
