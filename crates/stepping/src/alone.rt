// A step of one engine alone.
ghost use Rattle.std.specs.Prelude.{◌≡◌};
ghost use Rattle.layout.specs.Kinds.{number_of};
ghost use Rattle.rules.specs.Editing.{edit_of};
ghost use Rattle.rules.specs.Rewriting.{rewriting_of};
ghost use Rattle.stepping.specs.Answers.{told};
ghost use Rattle.stepping.specs.Alone.{rewritten_w, valued_w, scoped_w, rule_w, lone_w, large, short_w, alone_w};

use crate::answer::{Accepted, one};
use crate::bundles::{Side, changed};
use crate::limits::SHORT;
use evaluating::evaluate::{Valued, evaluate};
use layout::kind::Kind;
use layout::limit::{Bounds, FUEL, VALUES};
use layout::refusal::Refusal;
use rules::alone::{assign, branch, repeat};
use rules::edit::{Edit, plain};
use rules::rewriting::Rewriting;
use scopes::compensating::compensated;
use scopes::ending::ended;
use scopes::installing::installed;
use scopes::throwing::thrown;
use skipping::pass::Noted;

// Scratch for every result; scratch for a short configuration.
const LARGE: usize = 16384;

const SMALL: usize = 1024;

// So many fresh words find room in the short scratch, with 130 to spare.
const SURELY: usize = 800;

// Assign, if or while, handed the words from its position on and the engine's values. `NotDecimal` where the expression has no value.
#[tactic(auto, unfolding(crate::specs::Alone::settled_w, crate::specs::Alone::rewritten_w))]
fn rewritten(
    part: &[u16],
    values: &[u16],
    level: usize,
    kind: Kind,
    bounds: Bounds,
    fresh: &mut [u16],
) -> Result<Rewriting, Refusal>
    ensures rewritten { rewriting_of result ≡ (rewritten_w bounds.limits part.now values.now level (number_of kind) bounds.ends fresh.old).rewriting }
    ensures fresh { fresh.new ≡ (rewritten_w bounds.limits part.now values.now level (number_of kind) bounds.ends fresh.old).fresh }
{
    let e = evaluate(part, values, 1, FUEL);
    let value = e.value.ok_or(Refusal::NotDecimal)?;
    let v = Valued { end: e.end, value };
    match kind {
        Kind::Assign => Ok(assign(part, v)),
        Kind::If => Ok(branch(part, v)),
        _ => repeat(part, v, level, bounds, fresh),
    }
}

// One engine's step: the words noted, its process and the one found there, that one's kind, and the bounds.
#[derive(Clone, Copy)]
struct Lone<'a> {
    noted: Noted<'a>,
    side: Side,
    kind: Kind,
    bounds: Bounds,
}

impl<'a> Lone<'a> {
    // That the places are inside is known of all that was found.
    #[tactic(auto, unfolding(crate::specs::Alone::valued_w))]
    fn valued(&self, fresh: &mut [u16]) -> Result<Rewriting, Refusal>
        ensures rewritten { rewriting_of result ≡ (valued_w self.now.bounds.limits self.now.noted.ws.now self.now.side.start self.now.side.site (number_of self.now.kind) self.now.bounds.ends fresh.old).rewriting }
        ensures fresh { fresh.new ≡ (valued_w self.now.bounds.limits self.now.noted.ws.now self.now.side.start self.now.side.site (number_of self.now.kind) self.now.bounds.ends fresh.old).fresh }
    {
        let ws = self.noted.ws;
        let start = self.side.start;
        let s = self.side.site;
        if start < VALUES || ws.len() < start || ws.len() < s.at {
            return Err(Refusal::Unreadable);
        }
        let values = &ws[start - VALUES..start];
        rewritten(&ws[s.at..], values, s.level, self.kind, self.bounds, fresh)
    }

    // The rules that look at scopes.
    #[tactic(auto, unfolding(crate::specs::Alone::scoped_w))]
    fn scoped(&self, fresh: &mut [u16]) -> Result<Edit, Refusal>
        ensures edited { edit_of result ≡ (scoped_w self.now.bounds.limits self.now.noted.ws.now self.now.noted.notes.now self.now.side.start self.now.side.site (number_of self.now.kind) self.now.bounds.ends fresh.old).edit }
        ensures fresh { fresh.new ≡ (scoped_w self.now.bounds.limits self.now.noted.ws.now self.now.noted.notes.now self.now.side.start self.now.side.site (number_of self.now.kind) self.now.bounds.ends fresh.old).fresh }
    {
        let noted = &self.noted;
        match self.kind {
            Kind::Scope => Ok(ended(noted, self.side, fresh)),
            Kind::Inst => installed(noted, self.side, self.bounds.limits, fresh),
            Kind::Throw => thrown(noted, self.side, fresh),
            _ => compensated(noted, self.side, self.bounds, fresh),
        }
    }

    // The rule of its kind. Nil, seq, par and choice do not move alone, so no step comes here with them; they go with those of the lower numbers.
    #[tactic(auto, using(rules::proofs::Refusals::plain_refused), unfolding(crate::specs::Alone::rule_w))]
    fn rule(&self, fresh: &mut [u16]) -> Result<Edit, Refusal>
        ensures edited { edit_of result ≡ (rule_w self.now.bounds.limits self.now.noted.ws.now self.now.noted.notes.now self.now.side (number_of self.now.kind) self.now.bounds.ends fresh.old).edit }
        ensures fresh { fresh.new ≡ (rule_w self.now.bounds.limits self.now.noted.ws.now self.now.noted.notes.now self.now.side (number_of self.now.kind) self.now.bounds.ends fresh.old).fresh }
    {
        match self.kind {
            Kind::Assign
            | Kind::If
            | Kind::While
            | Kind::Nil
            | Kind::Seq
            | Kind::Par
            | Kind::Choice => {
                let t = self.valued(fresh)?;
                Ok(plain(self.side, t, fresh))
            }
            _ => self.scoped(fresh),
        }
    }

    // The rule worked out in scratch, then the answer.
    #[tactic(auto, using(layout::proofs::Refusing::never_zero), unfolding(crate::specs::Alone::lone_w, crate::specs::Answering::one_w))]
    fn lone(&self, fresh: &mut [u16], out: &mut [u16]) -> Result<Accepted, Refusal>
        ensures { (told result ≡ (lone_w self.now.bounds.limits self.now.noted.ws.now self.now.noted.notes.now self.now.side (number_of self.now.kind) self.now.bounds.ends fresh.old out.old).answer) × (out.new ≡ (lone_w self.now.bounds.limits self.now.noted.ws.now self.now.noted.notes.now self.now.side (number_of self.now.kind) self.now.bounds.ends fresh.old out.old).out) × (fresh.new ≡ (rule_w self.now.bounds.limits self.now.noted.ws.now self.now.noted.notes.now self.now.side (number_of self.now.kind) self.now.bounds.ends fresh.old).fresh) }
    {
        let edit = self.rule(fresh)?;
        let change = changed(self.side, edit, fresh);
        one(self.noted.ws, &change, self.kind, self.bounds.limits, out)
    }

    // With scratch for every result.
    fn roomy(&self, out: &mut [u16]) -> Result<Accepted, Refusal>
        ensures answered { told result ≡ (lone_w self.now.bounds.limits self.now.noted.ws.now self.now.noted.notes.now self.now.side (number_of self.now.kind) self.now.bounds.ends large out.old).answer }
        ensures written { out.new ≡ (lone_w self.now.bounds.limits self.now.noted.ws.now self.now.noted.notes.now self.now.side (number_of self.now.kind) self.now.bounds.ends large out.old).out }
    {
        let mut fresh = [0u16; LARGE];
        self.lone(&mut fresh, out)
    }

    // With the short scratch. Inst can make more words than that holds, counts also those that find no room, and wants 130 places to spare:
    // where it may have had too few, the edit is made again.
    #[tactic(auto, using(layout::proofs::Refusing::never_zero), unfolding(crate::specs::Alone::short_w, crate::specs::Alone::lone_w, crate::specs::Answering::one_w))]
    fn short(&self, fresh: &mut [u16], out: &mut [u16]) -> Result<Accepted, Refusal>
        ensures { (told result ≡ (short_w self.now.bounds.limits self.now.noted.ws.now self.now.noted.notes.now self.now.side (number_of self.now.kind) self.now.bounds.ends fresh.old out.old).answer) × (out.new ≡ (short_w self.now.bounds.limits self.now.noted.ws.now self.now.noted.notes.now self.now.side (number_of self.now.kind) self.now.bounds.ends fresh.old out.old).out) × (fresh.new ≡ (rule_w self.now.bounds.limits self.now.noted.ws.now self.now.noted.notes.now self.now.side (number_of self.now.kind) self.now.bounds.ends fresh.old).fresh) }
    {
        let edit = self.rule(fresh)?;
        if SURELY < edit.fresh {
            return self.roomy(out);
        }
        let change = changed(self.side, edit, fresh);
        one(self.noted.ws, &change, self.kind, self.bounds.limits, out)
    }
}

// To clear the long scratch would take more time than the step of a short configuration.
#[tactic(auto, unfolding(crate::specs::Alone::alone_w))]
pub fn alone(
    noted: &Noted,
    m: Side,
    kind: Kind,
    bounds: Bounds,
    out: &mut [u16],
) -> Result<Accepted, Refusal>
    ensures answered { told result ≡ (alone_w bounds.limits noted.now.ws.now noted.now.notes.now m (number_of kind) bounds.ends out.old).answer }
    ensures written { out.new ≡ (alone_w bounds.limits noted.now.ws.now noted.now.notes.now m (number_of kind) bounds.ends out.old).out }
{
    let x = Lone {
        noted: *noted,
        side: m,
        kind,
        bounds,
    };
    if SHORT < noted.ws.len() {
        return x.roomy(out);
    }
    let mut fresh = [0u16; SMALL];
    x.short(&mut fresh, out)
}
