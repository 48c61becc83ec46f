// Assign, if and while. A rule is handed the words from the process's position on, and its expression with the value that it has.
ghost use Rattle.std.specs.Prelude.{◌≡◌};
ghost use Rattle.rules.specs.Rewriting.{turned, rewriting_of, assign_w, branch_w, unroll_w, repeat_w};

use crate::rewriting::{Rewriting, keep, to_nil, to_part};
use crate::store::{nothing, one};
use evaluating::evaluate::Valued;
use layout::field::variable_of;
use layout::head;
use layout::limit::{Bounds, FUEL};
use layout::number::word;
use layout::refusal::Refusal;
use reading::reader::read;
use skipping::skip::skip;
use writers::write::{copy, put};

// x takes the expression's value.
#[tactic(auto, unfolding(crate::specs::Rewriting::assign_w))]
pub fn assign(part: &[u16], e: Valued) -> Rewriting
    ensures { turned result ≡ assign_w part.now e }
{
    to_nil(one(variable_of(word(part, 0)), e.value))
}

// An if becomes its first process, or its second.
#[tactic(auto, unfolding(crate::specs::Rewriting::branch_w))]
pub fn branch(part: &[u16], e: Valued) -> Rewriting
    ensures { turned result ≡ branch_w part.now e }
{
    let q = skip(part, e.end, FUEL);
    let end = skip(part, q, FUEL);
    if e.value == 0 {
        return to_part(part, q, end, end, nothing());
    }
    to_part(part, e.end, q, end, nothing())
}

// The body, from..end, then the while itself.
#[tactic(auto, unfolding(crate::specs::Rewriting::unroll_w))]
fn unroll(part: &[u16], from: usize, end: usize, fresh: &mut [u16]) -> Rewriting
    ensures rewritten { turned result ≡ (unroll_w part.now from end fresh.old).rewriting }
    ensures fresh { fresh.new ≡ (unroll_w part.now from end fresh.old).fresh }
{
    put(fresh, 0, head::SEQ);
    let g = copy(part, from, end, fresh, 1);
    keep(g, 0, end, end, nothing())
}

// A true while becomes its body, then itself, which is then one level deeper; a nil body is dropped, so nothing changes.
#[tactic(auto, unfolding(crate::specs::Rewriting::repeat_w))]
pub fn repeat(
    part: &[u16],
    e: Valued,
    level: usize,
    bounds: Bounds,
    fresh: &mut [u16],
) -> Result<Rewriting, Refusal>
    ensures rewritten { rewriting_of result ≡ (repeat_w bounds.limits level bounds.ends part.now e fresh.old).rewriting }
    ensures fresh { fresh.new ≡ (repeat_w bounds.limits level bounds.ends part.now e fresh.old).fresh }
{
    let body = e.end;
    let end = skip(part, body, FUEL);
    if e.value == 0 {
        return Ok(to_nil(nothing()));
    }
    if word(part, body) == head::NIL {
        return Ok(keep(0, 0, end, end, nothing()));
    }
    if read(
        part,
        0,
        bounds.limits.deepest.saturating_sub(level),
        0,
        bounds.ends,
    )
    .is_none()
    {
        return Err(Refusal::TooDeep);
    }
    Ok(unroll(part, body, end, fresh))
}
