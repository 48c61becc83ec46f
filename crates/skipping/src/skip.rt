// Passing over what the reader has accepted: where a process, a list or an expression ends. Nothing is tested but that words are left, so an
// answer says something only of words that were read.
ghost use Rattle.std.specs.Prelude.{◌≡◌, ◌<◌, not, eqb, unwrap_or};
ghost use Rattle.layout.specs.Keys.{no_key};
ghost use Rattle.layout.specs.Kinds.{number_of, tag_number};
ghost use Rattle.skipping.specs.Skip.{form_of, expr_form, expr_skip, behind_by, skip_end, skip_list};

use layout::field::{count_of, key_of};
use layout::key::NO_KEY;
use layout::kind::Kind;
use layout::number::wide;
use layout::own::lists_end;
use layout::tag::Tag;
use reading::reader::met_by;

// A form's fields, by the worth of their lowest bits. From the lowest: 3 bits for how many words of its own a process has before its lists of
// variables, 4 bits for what follows them (2 bits: 1 an expression, 2 a list; 2 bits: how many lists of variables stand before that), 2 bits for
// how many parts, and the rest for how many for each branch that the head counts.
const FOLLOWS: usize = 8;

const FOLLOWING: usize = 16;

const PARTS: usize = 128;

const BRANCHES: usize = 512;

// What may follow, behind lists of variables, and how many parts there may be.
const AN_EXPRESSION: usize = 1;

const LISTS: usize = 4;

const COUNTS: usize = 4;

// What a process is made of, by kind; packed from the fixed table (`specs/Skip`). A match, and no constant array, which every call would lay
// out anew.
#[tactic(auto, unfolding(crate::specs::Skip::form_of, sock::specs::Kind::row_of, sock::specs::Kind::rows, sock::specs::Counts::word_count, sock::specs::Counts::list_count))]
fn form(kind: Kind) -> usize
    ensures { (result ≡ form_of (number_of kind)) × (result < 1026) }
{
    match kind {
        Kind::Nil => 1,
        Kind::Assign => 9,
        Kind::Seq => 257,
        Kind::Par => 257,
        Kind::If => 265,
        Kind::While => 137,
        Kind::Choice => 1025,
        Kind::OneWay => 33,
        Kind::Request => 194,
        Kind::Notify => 34,
        Kind::Solicit => 82,
        Kind::Scope => 146,
        Kind::Inst => 17,
        Kind::Throw => 1,
        Kind::Comp => 1,
        Kind::Ch => 1,
        Kind::Executor => 163,
        Kind::Waiter => 51,
        Kind::Notice => 3,
        Kind::Unused => 1,
    }
}

// Where the process at `at` ends, with lists at most `depth` deep. `left` processes are still to come from `a` on, behind what `follows` the
// last one's own words; each has a word of its own, so there are no more turns than words. What follows is passed over in the next turn,
// since a branch on it right away would make the match a jump by kind.
#[cycle(behind_skip_skip_list)]
#[tactic(auto, using(crate::proofs::Turns::skip_turn, crate::proofs::Turns::skip_over), unfolding(crate::specs::Skip::skip_end, crate::specs::Skip::skip_loop, crate::specs::Skip::turn_by))]
pub fn skip(ws: &[u16], at: usize, depth: usize) -> usize
    ensures { result ≡ skip_end depth ws.now at }
{
    if depth == 0 {
        return 0;
    }
    let mut a = at;
    let mut follows = 0;
    let mut left = 1;
    let mut turns = ws.len();
    // it ends once more are to come than words are left, which keeps the sum below from overflowing; no range says that
    while left <= turns {
        a = behind(ws, a, follows, depth - 1);
        if left == 0 {
            return a;
        }
        if ws.len() <= a {
            return 0;
        }
        let head = ws[a];
        let f = form(Kind::of(head));
        a = a + f % FOLLOWS;
        follows = f / FOLLOWS % FOLLOWING;
        left = left - 1 + f / PARTS % COUNTS + count_of(head) * (f / BRANCHES);
        turns -= 1;
    }
    0
}

// Behind the lists of variables, and the expression or the list that follows, if one does. Most lists are empty.
#[cycle(behind_skip_skip_list)]
#[tactic(auto, unfolding(crate::specs::Skip::behind_by, crate::specs::Skip::after_by, crate::specs::Skip::list_by, crate::specs::Skip::entries_skip, crate::specs::Skip::skip_list, layout::specs::Own::lists_end))]
fn behind(ws: &[u16], at: usize, follows: usize, depth: usize) -> usize
    ensures { result ≡ behind_by (skip_end depth ws.now) ws.now follows at }
{
    if follows == 0 {
        return at;
    }
    let a = lists_end(ws, at, follows / LISTS);
    if follows % LISTS == 0 {
        return a;
    }
    if follows % LISTS == AN_EXPRESSION {
        return skip_expression(ws, a);
    }
    if ws.len() <= a {
        return 0;
    }
    if ws[a] == 0 {
        return a + 1;
    }
    skip_list(ws, a, depth, None)
}

// Where the list whose count is at `at` ends; 0 if a key is wanted that no entry has. That is no `Option`, since the last entry may also end at 0,
// where the words do not say, and whoever passes over goes on from there.
#[cycle(behind_skip_skip_list)]
#[tactic(auto, using(crate::proofs::Turns::entries_turn), unfolding(crate::specs::Skip::list_by, crate::specs::Skip::skip_list, crate::specs::Skip::entries_skip))]
pub fn skip_list(ws: &[u16], at: usize, depth: usize, wanted: Option<usize>) -> usize
    ensures { result ≡ skip_list depth ws.now (unwrap_or wanted no_key) at }
{
    if ws.len() <= at {
        return 0;
    }
    let count = wide(ws[at]);
    let mut a = at + 1;
    let wanted = wanted.unwrap_or(NO_KEY);
    let mut met = NO_KEY <= wanted;
    for _ in 0..count {
        if ws.len() <= a {
            return 0;
        }
        met = met_by(met, key_of(ws[a]), wanted);
        a = skip(ws, a + 1, depth);
    }
    if met { a } else { 0 }
}

// Whether an entry of the list has the key.
pub fn has_key(ws: &[u16], at: usize, depth: usize, key: usize) -> bool
    ensures { result ≡ not (eqb (skip_list depth ws.now key at) 0) }
{
    skip_list(ws, at, depth, Some(key)) != 0
}

// An expression by the first three bits of its word: in the lowest 2 bits its own words, then its operands.
const OPERANDS: usize = 4;

#[tactic(auto, unfolding(crate::specs::Skip::expr_form))]
fn expression_form(tag: Tag) -> usize
    ensures { (result ≡ expr_form (tag_number tag)) × (result < 10) }
{
    match tag {
        Tag::Constant => 3,
        Tag::Variable => 1,
        _ => 9,
    }
}

// Where the expression at `at` ends; `left` expressions are still to come from `a` on.
#[tactic(auto, using(crate::proofs::Turns::expr_turn, crate::proofs::Turns::expr_over), unfolding(crate::specs::Skip::expr_skip, crate::specs::Skip::expr_loop))]
fn skip_expression(ws: &[u16], at: usize) -> usize
    ensures { result ≡ expr_skip ws.now at }
{
    let mut a = at;
    let mut left = 1;
    let mut turns = ws.len();
    // as in `skip`
    while left <= turns {
        if left == 0 {
            return a;
        }
        if ws.len() <= a {
            return 0;
        }
        let f = expression_form(Tag::of(ws[a]));
        a = a + f % OPERANDS;
        left = left - 1 + f / OPERANDS;
        turns -= 1;
    }
    0
}
