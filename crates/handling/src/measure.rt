// How deep expressions and code are.
ghost use Rattle.std.specs.Prelude.{◌≡◌};
ghost use Rattle.layout.specs.Own.{own_end};
ghost use Rattle.layout.specs.Positions.{onward};
ghost use Rattle.handling.specs.Measuring.{measured, expression_levels, code_levels, parts_levels, expressed_levels, list_levels};

use layout::field::count_of;
use layout::kind::Kind;
use layout::number::{further, wide};
use layout::own::own_end;
use layout::tag::Tag;

// Where a process or an expression ends, and how many levels it has.
#[derive(Clone, Copy)]
pub struct Measured {
    pub end: usize,
    pub levels: usize,
}

// A level of so many words.
pub fn level(at: usize, words: usize) -> Measured
    ensures { result ≡ measured (onward at words) 1 }
{
    Measured {
        end: further(at, words),
        levels: 1,
    }
}

// The level of a process without its parts and its list.
pub fn own(ws: &[u16], at: usize) -> Measured
    ensures { result ≡ measured (own_end ws.now at) 1 }
{
    Measured {
        end: own_end(ws, at),
        levels: 1,
    }
}

fn nowhere() -> Measured
    ensures { result ≡ measured 0 0 }
{
    Measured { end: 0, levels: 0 }
}

#[tactic(auto, unfolding(crate::specs::Measuring::expression_levels, crate::specs::Measuring::operand_levels))]
pub fn expression_levels(ws: &[u16], at: usize, depth: usize) -> Measured
    ensures { result ≡ expression_levels depth ws.now at }
{
    if depth == 0 {
        return nowhere();
    }
    if ws.len() <= at {
        return nowhere();
    }
    match Tag::of(ws[at]) {
        Tag::Constant => level(at, 3),
        Tag::Variable => Measured {
            end: at + 1,
            levels: 1,
        },
        _ => {
            let a = expression_levels(ws, at + 1, depth - 1);
            let b = expression_levels(ws, a.end, depth - 1);
            Measured {
                end: b.end,
                levels: further(a.levels.max(b.levels), 1),
            }
        }
    }
}

// The process at `at`, of at most `depth` levels.
#[cycle(code_levels_expressed_list_levels_parts)]
#[tactic(auto, unfolding(crate::specs::Measuring::code_levels, crate::specs::Measuring::node_levels))]
pub fn code_levels(ws: &[u16], at: usize, depth: usize) -> Measured
    ensures { result ≡ code_levels depth ws.now at }
{
    if depth == 0 {
        return nowhere();
    }
    if ws.len() <= at {
        return nowhere();
    }
    match Kind::of(ws[at]) {
        Kind::Assign => expressed(ws, at + 1, 0, depth - 1),
        Kind::Seq | Kind::Par => parts(ws, at + 1, 0, 2, depth - 1),
        Kind::If => expressed(ws, at + 1, 2, depth - 1),
        Kind::While => expressed(ws, at + 1, 1, depth - 1),
        Kind::Choice => parts(ws, at + 1, 0, count_of(ws[at]) * 2, depth - 1),
        Kind::Request => parts(ws, own_end(ws, at), 0, 1, depth - 1),
        Kind::Solicit => list_levels(ws, own_end(ws, at), depth - 1),
        Kind::Scope => parts(ws, further(at, 3), 0, 1, depth - 1),
        Kind::Inst => list_levels(ws, at + 1, depth - 1),
        _ => own(ws, at),
    }
}

// An expression, then `count` processes.
#[cycle(code_levels_expressed_list_levels_parts)]
#[tactic(auto, unfolding(crate::specs::Measuring::expressed_levels))]
fn expressed(ws: &[u16], at: usize, count: usize, depth: usize) -> Measured
    ensures { result ≡ expressed_levels (expression_levels depth ws.now) (code_levels depth ws.now) count at }
{
    let e = expression_levels(ws, at, depth);
    parts(ws, e.end, e.levels, count, depth)
}

// `count` processes below a node whose other parts have `levels` levels.
#[cycle(code_levels_expressed_list_levels_parts)]
#[tactic(auto, using(crate::proofs::Levels::parts_levels_turn, crate::proofs::Levels::parts_levels_end))]
fn parts(ws: &[u16], at: usize, levels: usize, count: usize, depth: usize) -> Measured
    ensures { result ≡ parts_levels (code_levels depth ws.now) count levels at }
{
    let mut a = at;
    let mut deepest = levels;
    for _ in 0..count {
        let p = code_levels(ws, a, depth);
        a = p.end;
        deepest = deepest.max(p.levels);
    }
    Measured {
        end: a,
        levels: further(deepest, 1),
    }
}

// The list whose count is at `at`, of a node.
#[cycle(code_levels_expressed_list_levels_parts)]
#[tactic(auto, using(crate::proofs::Levels::entries_levels_turn, crate::proofs::Levels::entries_levels_end), unfolding(crate::specs::Measuring::list_levels))]
fn list_levels(ws: &[u16], at: usize, depth: usize) -> Measured
    ensures { result ≡ list_levels (code_levels depth ws.now) ws.now at }
{
    if ws.len() <= at {
        return nowhere();
    }
    let mut a = at + 1;
    let mut deepest = 0;
    let count = wide(ws[at]);
    for _ in 0..count {
        let p = code_levels(ws, further(a, 1), depth);
        a = p.end;
        deepest = deepest.max(p.levels);
    }
    Measured {
        end: a,
        levels: further(deepest, 1),
    }
}
