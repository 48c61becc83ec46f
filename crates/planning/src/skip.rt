// Where what stands before a process's list and parts ends in words that nobody has read: its own words and its expression, by the fixed table
// of kinds. None where there are no such words.
ghost use Rattle.std.specs.Prelude.{◌≡◌, ◌<◌, length};
ghost use Rattle.reading.specs.Walk.{end_as};
ghost use Rattle.planning.specs.Walk.{past, variables_past, lists_past, own_past, expression_past};

use layout::number::wide;
use reading::reader::expression;
use sock::Counts;

// `n` words further.
#[tactic(auto, unfolding(crate::specs::Walk::past))]
pub(crate) fn on(ws: &[u16], at: usize, n: usize) -> Option<usize>
    requires { 0 < at }
    ensures { result ≡ end_as (past ws.now at n) }
{
    if ws.len() < at || ws.len() - at < n {
        return None;
    }
    Some(at + n)
}

// A list of variables: its count, and a word for each variable but the first.
#[tactic(auto, unfolding(crate::specs::Walk::variables_past))]
fn variables(ws: &[u16], at: usize) -> Option<usize>
    requires { 0 < at }
    ensures { result ≡ end_as (variables_past ws.now at) }
{
    if ws.len() <= at {
        return None;
    }
    on(ws, at + 1, wide(ws[at]).saturating_sub(1))
}

#[tactic(auto, using(crate::proofs::Steps::lists_turn, crate::proofs::Steps::lists_done, crate::proofs::Steps::lists_lost, reading::proofs::Given::none_end, reading::proofs::Given::some_end))]
fn lists(ws: &[u16], at: usize, count: usize) -> Option<usize>
    requires { 0 < at }
    ensures { result ≡ end_as (lists_past ws.now count at) }
{
    let mut end = at;
    for _ in 0..count {
        end = variables(ws, end)?;
    }
    Some(end)
}

// An expression, if there is to be one.
#[tactic(auto, unfolding(crate::specs::Walk::expression_past))]
fn expression_on(ws: &[u16], at: usize, depth: usize, none: bool) -> Option<usize>
    requires { 0 < at }
    ensures { result ≡ end_as (expression_past depth ws.now none at) }
{
    if none {
        return Some(at);
    }
    expression(ws, at, depth)
}

// The head at `at`, of a kind with these counts, its own words and its expression.
#[tactic(auto, unfolding(crate::specs::Walk::own_past), using(crate::proofs::Steps::own_unfixed, crate::proofs::Steps::own_unlisted, reading::proofs::Given::none_end, reading::proofs::Given::some_end))]
pub(crate) fn own(ws: &[u16], at: usize, depth: usize, c: Counts) -> Option<usize>
    requires { at < length ws.now }
    ensures { result ≡ end_as (own_past depth ws.now c at) }
{
    let fixed = on(ws, at + 1, usize::from(c.fixed))?;
    let variables = lists(ws, fixed, usize::from(c.variables))?;
    expression_on(ws, variables, depth, c.expressions == 0)
}
