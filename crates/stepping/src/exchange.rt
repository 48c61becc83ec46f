// A step between two different engines, the sender's and the receiver's.
ghost use Rattle.std.specs.Prelude.{◌≡◌};
ghost use Rattle.sock.specs.Words.{bit};
ghost use Rattle.layout.specs.Kinds.{number_of};
ghost use Rattle.rules.specs.Editing.{made};
ghost use Rattle.rules.specs.Offering.{standing};
ghost use Rattle.stepping.specs.Answers.{told};
ghost use Rattle.stepping.specs.Bundles.{met};
ghost use Rattle.stepping.specs.Exchanging.{sender_w, receiver_w, issued_of, fault_of, carry_w, spent_w, meet_w, between_w};

use crate::answer::{Accepted, Told, two};
use crate::bundles::{Encounter, changed};
use crate::meeting::{fit, receive, send, serial_of};
use layout::kind::Kind;
use layout::limit::{Limits, VALUES};
use layout::number::{LARGEST, word};
use layout::refusal::Refusal;
use rules::edit::{Edit, plain};
use rules::message::Message;
use rules::pair::{Offer, offered};

// Scratch: no process that sends or receives turns into more than a few words that are new.
const SCRATCH: usize = 64;

#[tactic(auto, unfolding(crate::specs::Exchanging::sender_w))]
fn sender(part: &[u16], x: Encounter, serial: u16, fresh: &mut [u16]) -> Edit
    ensures edited { made result ≡ (sender_w part.now (met x) serial fresh.old).edit }
    ensures fresh { fresh.new ≡ (sender_w part.now (met x) serial fresh.old).fresh }
{
    let t = send(part, x.kind, x.second, serial, fresh);
    plain(x.sender, t, fresh)
}

#[tactic(auto, unfolding(crate::specs::Exchanging::receiver_w))]
fn receiver(m: &Message, o: Offer, x: Encounter, serial: u16, fresh: &mut [u16]) -> Edit
    ensures edited { made result ≡ (receiver_w m.now.part.now m.now.values.now m.now.other.now (standing o) (met x) serial fresh.old).edit }
    ensures fresh { fresh.new ≡ (receiver_w m.now.part.now m.now.values.now m.now.other.now (standing o) (met x) serial fresh.old).fresh }
{
    let t = receive(m, o, x.kind, x.engine, serial, fresh);
    plain(x.receiver, t, fresh)
}

#[tactic(auto, unfolding(crate::specs::Exchanging::issued_of))]
fn issued_of(kind: Kind, issued: u16, next: u16) -> u16
    ensures { result ≡ issued_of (number_of kind) issued next }
{
    match kind {
        Kind::Solicit => next,
        _ => issued,
    }
}

#[tactic(auto, unfolding(crate::specs::Exchanging::fault_of))]
fn delivers(kind: Kind) -> bool
    ensures { bit result ≡ fault_of (number_of kind) }
{
    matches!(kind, Kind::Notice)
}

// The two fit. Of all that send, a solicit alone has a serial to put into words, and that is the next one. The edits are carried out in the order
// of the engines.
fn carry(
    ws: &[u16],
    m: &Message,
    o: Offer,
    x: Encounter,
    limits: Limits,
    out: &mut [u16],
) -> Result<Accepted, Refusal>
    ensures answered { told result ≡ (carry_w limits ws.now m.now.part.now m.now.values.now m.now.other.now (standing o) (met x) out.old).answer }
    ensures written { out.new ≡ (carry_w limits ws.now m.now.part.now m.now.values.now m.now.other.now (standing o) (met x) out.old).out }
{
    let issued = word(ws, 1);
    let next = issued.saturating_add(1);
    let serial = serial_of(m.part, x.kind, next);
    let mut fresh = [0u16; SCRATCH];
    let first = sender(m.part, x, next, &mut fresh);
    let mut fresh2 = [0u16; SCRATCH];
    let second = receiver(m, o, x, next, &mut fresh2);
    let t = Told {
        kind: x.kind,
        serial,
        fault: delivers(x.kind),
        issued: issued_of(x.kind, issued, next),
    };
    let p = changed(x.sender, first, &fresh);
    let q = changed(x.receiver, second, &fresh2);
    if x.engine < x.second {
        return two(ws, &p, &q, t, limits, out);
    }
    two(ws, &q, &p, t, limits, out)
}

// Whether a solicit finds no serial left.
#[tactic(auto, unfolding(crate::specs::Exchanging::spent_w))]
fn spent(ws: &[u16], kind: Kind) -> bool
    ensures { result ≡ spent_w ws.now (number_of kind) }
{
    match kind {
        Kind::Solicit => word(ws, 1) == LARGEST,
        _ => false,
    }
}

// The words from each process's position on are handed to the rule, with the sender's values.
#[tactic(auto, using(crate::proofs::Offered::fit_offered), unfolding(crate::specs::Exchanging::meet_w))]
fn meet(
    ws: &[u16],
    m: &Message,
    x: Encounter,
    limits: Limits,
    out: &mut [u16],
) -> Result<Accepted, Refusal>
    ensures answered { told result ≡ (meet_w limits ws.now m.now.part.now m.now.values.now m.now.other.now (met x) out.old).answer }
    ensures written { out.new ≡ (meet_w limits ws.now m.now.part.now m.now.values.now m.now.other.now (met x) out.old).out }
{
    let o = offered(m.other, x.branch).ok_or(Refusal::NoFit)?;
    if !fit(m, o, &x) {
        return Err(Refusal::NoFit);
    }
    if spent(ws, x.kind) {
        return Err(Refusal::SerialsSpent);
    }
    carry(ws, m, o, x, limits, out)
}

// That the places are inside is known of all that was found.
#[tactic(auto, unfolding(crate::specs::Exchanging::between_w))]
pub(crate) fn between(
    ws: &[u16],
    x: Encounter,
    limits: Limits,
    out: &mut [u16],
) -> Result<Accepted, Refusal>
    ensures answered { told result ≡ (between_w limits ws.now (met x) out.old).answer }
    ensures written { out.new ≡ (between_w limits ws.now (met x) out.old).out }
{
    let a = x.sender;
    let b = x.receiver;
    let start = a.start;
    let at = a.site.at;
    let to = b.site.at;
    if x.engine == x.second {
        return Err(Refusal::NoFit);
    }
    if start < VALUES || ws.len() < start || ws.len() < at || ws.len() < to {
        return Err(Refusal::NoFit);
    }
    let from = start - VALUES;
    let m = Message {
        part: &ws[at..],
        values: &ws[from..start],
        other: &ws[to..],
    };
    meet(ws, &m, x, limits, out)
}
