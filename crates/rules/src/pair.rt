// The rules between two engines: what is offered to a sender, whether the two fit, and what each of them turns into.
ghost use Rattle.std.specs.Prelude.{◌≡◌, ◌<◌};
ghost use Rattle.layout.specs.Kinds.{number_of};
ghost use Rattle.rules.specs.Storing.{storing};
ghost use Rattle.rules.specs.Rewriting.{turned};
ghost use Rattle.rules.specs.Offering.{standing, offer_in, bare_w, branch_at, choice_w, offer_w, receives_w, fits_w, hear_w, seq_first, three_to, three_w, serve_w, ask_w, waits_w, awaits_w, answer_w, fail_w};

use crate::rewriting::{Rewriting, keep, to_nil, to_part};
use crate::store::{Store, nothing};
use layout::field::{count_of, is_dead, name_of, waiters_server};
use layout::head;
use layout::kind::Kind;
use layout::limit::FUEL;
use layout::number::{further, word};
use layout::own::{lists_end, variables_end};
use skipping::skip::skip;
use writers::write::put;

// Where a receiver stands in the words, and from next..upto the process that follows a chosen branch; next is 0 where none does.
#[derive(Clone, Copy)]
pub struct Offer {
    pub guard: usize,
    pub next: usize,
    pub upto: usize,
    pub end: usize,
}

// A bare receiver, for branch 0.
#[tactic(auto, unfolding(crate::specs::Offering::bare_w))]
fn bare(part: &[u16], branch: usize) -> Option<Offer>
    ensures { offer_in result ≡ bare_w part.now branch }
{
    if branch != 0 {
        return None;
    }
    let end = skip(part, 0, FUEL);
    Some(Offer {
        guard: 0,
        next: 0,
        upto: end,
        end,
    })
}

// Where the branch with `before` others in front of it begins.
#[tactic(auto, using(crate::proofs::Branches::branch_turn, crate::proofs::Branches::branch_done))]
fn branch_at(part: &[u16], before: usize) -> usize
    ensures { result ≡ branch_at part.now before 1 }
{
    let mut at = 1;
    for _ in 0..before {
        let p = skip(part, at, FUEL);
        at = skip(part, p, FUEL);
    }
    at
}

// A choice's branch, counted from 1.
#[tactic(auto, unfolding(crate::specs::Offering::choice_w, crate::specs::Offering::chosen_w))]
fn chosen(part: &[u16], count: usize, branch: usize) -> Option<Offer>
    ensures { offer_in result ≡ choice_w part.now count branch }
{
    if !(1..=count).contains(&branch) {
        return None;
    }
    let guard = branch_at(part, branch - 1);
    let next = skip(part, guard, FUEL);
    let upto = skip(part, next, FUEL);
    let end = skip(part, 0, FUEL);
    Some(Offer {
        guard,
        next,
        upto,
        end,
    })
}

#[tactic(auto, unfolding(crate::specs::Offering::offer_w))]
pub fn offered(part: &[u16], branch: usize) -> Option<Offer>
    ensures { offer_in result ≡ offer_w part.now branch }
{
    let h = word(part, 0);
    match Kind::of(h) {
        Kind::Choice => chosen(part, count_of(h), branch),
        _ => bare(part, branch),
    }
}

// Whether the head g is of that kind, with the operation of the head h.
#[tactic(auto, unfolding(crate::specs::Offering::receives_w))]
fn receives(g: u16, kind: Kind, h: u16) -> bool
    ensures { result ≡ receives_w g (number_of kind) h }
{
    Kind::of(g) == kind && name_of(g) == name_of(h)
}

// Whether a receiver of that kind stands there, with the operation of the head h.
#[tactic(auto, unfolding(crate::specs::Offering::fits_w))]
pub fn fits(part: &[u16], o: Offer, kind: Kind, h: u16) -> bool
    ensures { result ≡ fits_w part.now (standing o) (number_of kind) h }
{
    receives(word(part, o.guard), kind, h)
}

// A one-way hears, and its variables take what the message brings.
#[tactic(auto, unfolding(crate::specs::Offering::hear_w))]
pub fn hear(part: &[u16], o: Offer, store: Store) -> Rewriting
    ensures { turned result ≡ hear_w part.now (standing o) (storing store) }
{
    if o.next == 0 {
        return to_nil(store);
    }
    to_part(part, o.next, o.upto, o.end, store)
}

// The head of a seq, where a process follows.
#[tactic(auto, unfolding(crate::specs::Offering::seq_first))]
fn seq_first(next: usize, fresh: &mut [u16]) -> usize
    ensures place { result ≡ (seq_first next fresh.old).to }
    ensures fresh { fresh.new ≡ (seq_first next fresh.old).fresh }
{
    if next == 0 {
        return 0;
    }
    put(fresh, 0, head::SEQ)
}

// Three words from a place on.
#[tactic(auto, unfolding(crate::specs::Offering::three_to, crate::specs::Offering::three_w))]
fn three(fresh: &mut [u16], to: usize, a: u16, b: u16, c: u16) -> usize
    ensures place { result ≡ three_to to }
    ensures fresh { fresh.new ≡ three_w fresh.old to a b c }
{
    let t = put(fresh, to, a);
    let u = put(fresh, t, b);
    put(fresh, u, c)
}

// A request hears and becomes an executor: of its own words it keeps those behind its list of variables x.
#[tactic(auto, unfolding(crate::specs::Offering::serve_w))]
pub fn serve(
    part: &[u16],
    o: Offer,
    client: u16,
    serial: u16,
    store: Store,
    fresh: &mut [u16],
) -> Rewriting
    ensures rewritten { turned result ≡ (serve_w part.now (standing o) client serial (storing store) fresh.old).rewriting }
    ensures fresh { fresh.new ≡ (serve_w part.now (standing o) client serial (storing store) fresh.old).fresh }
{
    let h = word(part, o.guard);
    let y = word(part, further(o.guard, 1));
    let a = seq_first(o.next, fresh);
    let g = three(
        fresh,
        a,
        head::executor(h, y),
        head::client_word(client),
        serial,
    );
    let from = variables_end(part, further(o.guard, 2));
    keep(g, from, o.upto, o.end, store)
}

// A solicit becomes a waiter: of its own words it keeps those behind the first of its lists, which is y.
#[tactic(auto, unfolding(crate::specs::Offering::ask_w))]
pub fn ask(part: &[u16], server: u16, serial: u16, fresh: &mut [u16]) -> Rewriting
    ensures rewritten { turned result ≡ (ask_w part.now server serial fresh.old).rewriting }
    ensures fresh { fresh.new ≡ (ask_w part.now server serial fresh.old).fresh }
{
    let g = three(
        fresh,
        0,
        head::waiter(word(part, 0), word(part, 1)),
        head::server_word(server),
        serial,
    );
    let from = lists_end(part, 2, 1);
    let end = skip(part, 0, FUEL);
    keep(g, from, end, end, nothing())
}

// Whether a waiter stands in `part`, with the operation of the head h and that serial.
#[tactic(auto, unfolding(crate::specs::Offering::waits_w))]
fn waits(part: &[u16], h: u16, serial: u16) -> bool
    ensures { result ≡ waits_w part.now h serial }
{
    if receives(word(part, 0), Kind::Waiter, h) {
        return word(part, 2) == serial;
    }
    false
}

// Whether it does so for an end in the engine `sender` that names `client`, itself in the engine `receiver`.
#[tactic(auto, unfolding(crate::specs::Offering::awaits_w))]
pub fn awaits(
    part: &[u16],
    h: u16,
    serial: u16,
    client: usize,
    sender: usize,
    receiver: usize,
) -> bool
    ensures { result ≡ awaits_w part.now h serial client sender receiver }
{
    if client != receiver {
        return false;
    }
    if waiters_server(word(part, 1)) != sender {
        return false;
    }
    waits(part, h, serial)
}

// A reply: its variables take what the message brings, and the waiter becomes inst of its list.
#[tactic(auto, unfolding(crate::specs::Offering::answer_w))]
pub fn answer(part: &[u16], store: Store, fresh: &mut [u16]) -> Rewriting
    ensures rewritten { turned result ≡ (answer_w part.now (storing store) fresh.old).rewriting }
    ensures fresh { fresh.new ≡ (answer_w part.now (storing store) fresh.old).fresh }
{
    let g = put(fresh, 0, head::INST);
    let from = variables_end(part, 3);
    let end = skip(part, 0, FUEL);
    keep(g, from, end, end, store)
}

// A fault, from the word w of its notice: a live waiter becomes throw, a dead one nil.
#[tactic(auto, unfolding(crate::specs::Offering::fail_w))]
pub fn fail(part: &[u16], w: u16, fresh: &mut [u16]) -> Rewriting
    ensures rewritten { turned result ≡ (fail_w part.now w fresh.old).rewriting }
    ensures fresh { fresh.new ≡ (fail_w part.now w fresh.old).fresh }
{
    if is_dead(word(part, 1)) {
        return to_nil(nothing());
    }
    let g = put(fresh, 0, head::throw(w));
    let end = skip(part, 0, FUEL);
    keep(g, end, end, end, nothing())
}
