// The answer of a step, and the result written if it fits.
ghost use Rattle.std.specs.Prelude.{◌≡◌, ◌-◌, eqb};
ghost use Rattle.sock.specs.Calls.{number, short};
ghost use Rattle.layout.specs.Kinds.{number_of};
ghost use Rattle.layout.specs.Refusals.{number_in};
ghost use Rattle.rules.specs.Editing.{made};
ghost use Rattle.stepping.specs.Answers.{told};
ghost use Rattle.stepping.specs.Answering.{changing, telling, sized_w, write_one_w, length_of, one_w, write_two_w, two_w};

pub use crate::bundles::Change;
use crate::writing::Output;
use layout::kind::Kind;
use layout::limit::Limits;
use layout::number::{further, word_of};
use layout::refusal::Refusal;
use rules::edit::Edit;
use std::num::NonZeroU16;
use writers::write::put;

// A step carried out: the kind of the process that moved; the serial, which neither a process that moves alone nor a notify has; whether a
// fault was delivered; how many words the result has.
#[derive(Clone, Copy, Debug, PartialEq, Eq)]
pub struct Accepted {
    pub kind: Kind,
    pub serial: Option<NonZeroU16>,
    pub fault: bool,
    pub length: u16,
}

// Whether a step was refused since its result is longer than the output: with more scratch it may be accepted.
pub fn output_short(given: Result<Accepted, Refusal>) -> bool
    ensures { result ≡ eqb (told given).number (number short) }
{
    matches!(given, Err(Refusal::OutputShort))
}

// How many words there are once an edit is carried out on so many; too many where its fresh words alone are.
#[tactic(auto, unfolding(crate::specs::Answering::sized_w))]
fn sized(limits: Limits, words: usize, p: Edit) -> usize
    ensures { result ≡ sized_w limits words (made p) }
{
    if limits.longest < p.fresh {
        return further(limits.longest, 1);
    }
    let a = further(words, p.fresh);
    a.saturating_sub(p.past.saturating_sub(p.list))
        .saturating_sub(p.upto.saturating_sub(p.from))
        .saturating_sub(p.end.saturating_sub(p.gap))
}

#[tactic(auto, unfolding(crate::specs::Answering::write_one_w))]
fn write_one(ws: &[u16], p: &Change, out: &mut [u16])
    ensures { out.new ≡ (write_one_w ws.now p.now.start p.now.end (made p.now.edit) p.now.fresh.now out.old).out }
{
    let mut output = Output { words: out, to: 0 };
    output.engine(ws, 0, p);
    output.copy(ws, p.end, ws.len());
}

// Whether so many words are not too many, and find room.
#[tactic(auto, unfolding(crate::specs::Answering::length_of))]
fn fitting(limits: Limits, length: usize, room: usize) -> Result<(), Refusal>
    ensures { number_in result ≡ length_of limits length room }
{
    if limits.longest < length {
        return Err(Refusal::TooLong);
    }
    if room < length {
        return Err(Refusal::OutputShort);
    }
    Ok(())
}

// One engine's process under an edit.
#[tactic(auto, using(layout::proofs::Refusing::never_zero), unfolding(crate::specs::Answering::one_w))]
pub fn one(
    ws: &[u16],
    p: &Change,
    kind: Kind,
    limits: Limits,
    out: &mut [u16],
) -> Result<Accepted, Refusal>
    ensures answered { told result ≡ (one_w limits ws.now p.now.start p.now.end (made p.now.edit) (number_of kind) p.now.fresh.now out.old).answer }
    ensures written { out.new ≡ (one_w limits ws.now p.now.start p.now.end (made p.now.edit) (number_of kind) p.now.fresh.now out.old).out }
{
    let size = sized(limits, ws.len(), p.edit);
    fitting(limits, size, out.len())?;
    write_one(ws, p, out);
    let length = word_of(size);
    Ok(Accepted {
        kind,
        serial: None,
        fault: false,
        length,
    })
}

// What an exchange answers, and the serials issued after it.
#[derive(Clone, Copy)]
pub struct Told {
    pub kind: Kind,
    pub serial: Option<NonZeroU16>,
    pub fault: bool,
    pub issued: u16,
}

#[tactic(auto, unfolding(crate::specs::Answering::write_two_w))]
fn write_two(ws: &[u16], p: &Change, q: &Change, issued: u16, out: &mut [u16])
    ensures { out.new ≡ write_two_w ws.now (changing p.now) p.now.fresh.now (changing q.now) q.now.fresh.now issued out.old }
{
    let mut output = Output { words: out, to: 0 };
    output.engine(ws, 0, p);
    output.engine(ws, p.end, q);
    output.copy(ws, q.end, ws.len());
    put(output.words, 1, issued);
}

// Two engines' processes under an edit each, in the order of the words, and the serials issued.
#[tactic(auto, using(layout::proofs::Refusing::never_zero), unfolding(crate::specs::Answering::two_w))]
pub fn two(
    ws: &[u16],
    p: &Change,
    q: &Change,
    t: Told,
    limits: Limits,
    out: &mut [u16],
) -> Result<Accepted, Refusal>
    ensures answered { told result ≡ (two_w limits ws.now (changing p.now) p.now.fresh.now (changing q.now) q.now.fresh.now (telling t) out.old).answer }
    ensures written { out.new ≡ (two_w limits ws.now (changing p.now) p.now.fresh.now (changing q.now) q.now.fresh.now (telling t) out.old).out }
{
    let size = sized(limits, sized(limits, ws.len(), p.edit), q.edit);
    fitting(limits, size, out.len())?;
    write_two(ws, p, q, t.issued, out);
    let length = word_of(size);
    Ok(Accepted {
        kind: t.kind,
        serial: t.serial,
        fault: t.fault,
        length,
    })
}
