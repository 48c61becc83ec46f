// Between two engines: whether sender and receiver fit, and what each turns into.
ghost use Rattle.std.specs.Prelude.{◌≡◌};
ghost use Rattle.layout.specs.Kinds.{number_of};
ghost use Rattle.rules.specs.Offering.{standing};
ghost use Rattle.rules.specs.Rewriting.{turned};
ghost use Rattle.stepping.specs.Meeting.{addressed_w, replies_w, replied_w, taker_of, counts_w, takes_w, fit_w, send_w, receive_w, serial_w};
ghost use Rattle.stepping.specs.Serials.{serial_in};

use crate::bundles::Encounter;
use evaluating::evaluate::variable;
use layout::field::{executors_client, first_variable, notices_client};
use layout::kind::Kind;
use layout::number::{wide, word};
use rules::message::Message;
use rules::pair::{Offer, answer, ask, awaits, fail, fits, hear, serve};
use rules::rewriting::{Rewriting, to_nil};
use rules::store::nothing;
use std::num::NonZeroU16;

// Whether a notify or solicit is sent to the engine that receives.
#[tactic(auto, unfolding(crate::specs::Meeting::addressed_w))]
fn addressed(m: &Message, receiver: u16) -> bool
    ensures { result ≡ addressed_w m.now.part.now m.now.values.now receiver }
{
    let z = variable(m.values, first_variable(word(m.part, 1)));
    z == u32::from(receiver)
}

// Whether an executor's reply or a notice's fault, which names `client`, has its waiter in the receiver's words.
#[tactic(auto, unfolding(crate::specs::Meeting::replies_w))]
fn replies(m: &Message, client: usize, x: &Encounter) -> bool
    ensures { result ≡ replies_w m.now.part.now m.now.other.now client x.now.branch x.now.engine x.now.second }
{
    x.branch == 0
        && awaits(
            m.other,
            word(m.part, 0),
            word(m.part, 2),
            client,
            wide(x.engine),
            wide(x.second),
        )
}

// Whether an executor's reply has its waiter in the receiver's words, and that has as many variables.
#[tactic(auto, unfolding(crate::specs::Meeting::replied_w))]
fn answers(m: &Message, x: &Encounter) -> bool
    ensures { result ≡ replied_w m.now.part.now m.now.other.now x.now.branch x.now.engine x.now.second }
{
    let client = executors_client(word(m.part, 1));
    replies(m, client, x) && m.answers()
}

// The kind that hears a notify, and a solicit.
#[tactic(auto, unfolding(crate::specs::Meeting::taker_of))]
fn taker(kind: Kind) -> Kind
    ensures { number_of result ≡ taker_of (number_of kind) }
{
    match kind {
        Kind::Notify => Kind::OneWay,
        _ => Kind::Request,
    }
}

// Whether a notify, or a solicit, has as many variables as what it is for, which stands at `guard`.
#[tactic(auto, unfolding(crate::specs::Meeting::counts_w))]
fn counts(m: &Message, guard: usize, kind: Kind) -> bool
    ensures { result ≡ counts_w m.now.part.now m.now.other.now guard (number_of kind) }
{
    match kind {
        Kind::Notify => m.hears(guard),
        _ => m.serves(guard),
    }
}

// Whether a notify, or a solicit, is for what `other` offers.
#[tactic(auto, unfolding(crate::specs::Meeting::takes_w))]
fn takes(m: &Message, o: Offer, kind: Kind) -> bool
    ensures { result ≡ takes_w m.now.part.now m.now.other.now (standing o) (number_of kind) }
{
    if fits(m.other, o, taker(kind), word(m.part, 0)) {
        return counts(m, o.guard, kind);
    }
    false
}

// Whether the sender may send to the receiver.
#[tactic(auto, unfolding(crate::specs::Meeting::fit_w))]
pub(crate) fn fit(m: &Message, o: Offer, x: &Encounter) -> bool
    ensures { result ≡ fit_w m.now.part.now m.now.values.now m.now.other.now (standing o) (number_of x.now.kind) x.now.branch x.now.engine x.now.second }
{
    match x.kind {
        Kind::Executor => answers(m, x),
        Kind::Notice => {
            let client = notices_client(word(m.part, 1));
            replies(m, client, x)
        }
        _ => addressed(m, x.second) && takes(m, o, x.kind),
    }
}

// The serial that the step answers: a notify has none. `next` is the one that a solicit would take.
#[tactic(auto, unfolding(crate::specs::Meeting::serial_w))]
pub fn serial_of(part: &[u16], kind: Kind, next: u16) -> Option<NonZeroU16>
    ensures { serial_in result ≡ serial_w part.now (number_of kind) next }
{
    match kind {
        Kind::Notify => None,
        Kind::Solicit => NonZeroU16::new(next),
        _ => NonZeroU16::new(word(part, 2)),
    }
}

// What the sender turns into.
#[tactic(auto, unfolding(crate::specs::Meeting::send_w))]
pub(crate) fn send(
    part: &[u16],
    kind: Kind,
    server: u16,
    serial: u16,
    fresh: &mut [u16],
) -> Rewriting
    ensures rewritten { turned result ≡ (send_w part.now (number_of kind) server serial fresh.old).rewriting }
    ensures fresh { fresh.new ≡ (send_w part.now (number_of kind) server serial fresh.old).fresh }
{
    match kind {
        Kind::Solicit => ask(part, server, serial, fresh),
        _ => to_nil(nothing()),
    }
}

// What the receiver turns into.
#[tactic(auto, unfolding(crate::specs::Meeting::receive_w))]
pub(crate) fn receive(
    m: &Message,
    o: Offer,
    kind: Kind,
    client: u16,
    serial: u16,
    fresh: &mut [u16],
) -> Rewriting
    ensures rewritten { turned result ≡ (receive_w m.now.part.now m.now.values.now m.now.other.now (standing o) (number_of kind) client serial fresh.old).rewriting }
    ensures fresh { fresh.new ≡ (receive_w m.now.part.now m.now.values.now m.now.other.now (standing o) (number_of kind) client serial fresh.old).fresh }
{
    let guard = o.guard;
    match kind {
        Kind::Notify => hear(m.other, o, m.heard(guard)),
        Kind::Solicit => {
            let store = m.served(guard);
            serve(m.other, o, client, serial, store, fresh)
        }
        Kind::Executor => answer(m.other, m.answered(), fresh),
        _ => fail(m.other, word(m.part, 1), fresh),
    }
}
