// Values and expressions on words. Sum and difference run round; less reads its operands with sign; a decimal operator may give no value.
ghost use Rattle.std.specs.Prelude.{◌≡◌, ◌<◌, length, ◌==◌, int_lt};
ghost use Rattle.sock.specs.Words.{bit};
ghost use Rattle.sock.specs.Evaluation.{signed};
ghost use Rattle.layout.specs.Kinds.{tag_number};
ghost use Rattle.evaluating.specs.Evaluating.{value_in, operated, no_expression, combined, constant_at, evaluated};

use crate::digits::{decimal_difference, decimal_sum};
use layout::field::{read_variable, value_of};
use layout::number::word;
use layout::tag::Tag;

// Where an expression ends, and its value if it has one.
#[derive(Clone, Copy)]
pub struct Evaluated {
    pub end: usize,
    pub value: Option<u32>,
}

// An expression that ends there, with a value: what a rule that reads one is handed.
#[derive(Clone, Copy)]
pub struct Valued {
    pub end: usize,
    pub value: u32,
}

// What is no expression.
fn nowhere() -> Evaluated
    ensures { result ≡ no_expression }
{
    Evaluated {
        end: 0,
        value: None,
    }
}

// The value of a variable among values of two words each, of which an engine has 32; a word that is not there counts as 0.
#[tactic(auto, unfolding(crate::specs::Evaluating::value_in))]
pub fn variable(values: &[u16], x: usize) -> u32
    ensures { result ≡ value_in values.now x }
{
    if values.len() <= x {
        return 0;
    }
    value_of(word(values, x * 2), word(values, x * 2 + 1))
}

fn less(a: u32, b: u32) -> u32
    ensures { result ≡ bit (int_lt (signed a) (signed b)) }
{
    u32::from(a.cast_signed() < b.cast_signed())
}

fn equal(a: u32, b: u32) -> u32
    ensures { result ≡ bit (a == b) }
{
    u32::from(a == b)
}

#[tactic(auto, unfolding(crate::specs::Evaluating::operated))]
fn operate(operator: Tag, a: u32, b: u32) -> Option<u32>
    ensures { result ≡ operated (tag_number operator) a b }
{
    match operator {
        Tag::Sum => Some(a.wrapping_add(b)),
        Tag::Difference => Some(a.wrapping_sub(b)),
        Tag::Less => Some(less(a, b)),
        Tag::DecimalSum => decimal_sum(a, b),
        Tag::DecimalDifference => decimal_difference(a, b),
        _ => Some(equal(a, b)),
    }
}

// The value of an operator of two operands; none where one of them has none.
#[tactic(auto, unfolding(crate::specs::Evaluating::combined))]
fn combine(operator: Tag, a: Option<u32>, b: Option<u32>) -> Option<u32>
    ensures { result ≡ combined (tag_number operator) a b }
{
    operate(operator, a?, b?)
}

// A constant's two words.
#[tactic(auto, unfolding(crate::specs::Evaluating::constant_at))]
fn constant(ws: &[u16], at: usize) -> Evaluated
    requires { at < length ws.now }
    ensures { result ≡ constant_at ws.now at }
{
    if ws.len() - at < 3 {
        return nowhere();
    }
    Evaluated {
        end: at + 3,
        value: Some(value_of(ws[at + 1], ws[at + 2])),
    }
}

// The expression at `at`, of at most `depth` levels.
#[tactic(auto, using(crate::proofs::Evaluations::evaluated_step), unfolding(crate::specs::Evaluating::evaluated_at, crate::specs::Evaluating::both))]
pub fn evaluate(ws: &[u16], values: &[u16], at: usize, depth: usize) -> Evaluated
    ensures { result ≡ evaluated depth ws.now values.now at }
{
    if depth == 0 {
        return nowhere();
    }
    if ws.len() <= at {
        return nowhere();
    }
    let w = ws[at];
    let t = Tag::of(w);
    match t {
        Tag::Constant => constant(ws, at),
        Tag::Variable => Evaluated {
            end: at + 1,
            value: Some(variable(values, read_variable(w))),
        },
        _ => {
            let a = evaluate(ws, values, at + 1, depth - 1);
            let b = evaluate(ws, values, a.end, depth - 1);
            Evaluated {
                end: b.end,
                value: combine(t, a.value, b.value),
            }
        }
    }
}
