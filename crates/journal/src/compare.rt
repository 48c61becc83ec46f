// How many first and how many last words two rows of words have alike. Both go by blocks of sixteen words, of which std compares many at a
// time, and then word by word. The two directions stay two functions each: one for both
// would take as closures how a block and a word compare, and in its contract that the two agree, which is longer than the loops; and an iterator
// from either end (`iter()`, `iter().rev()`) has words but no blocks.
ghost use Rattle.std.specs.Prelude.{◌≡◌, reverse, ◌+◌, ◌≤◌, min, length, take, drop};
ghost use Rattle.sock.specs.Journal.{alike, same_words};
ghost use Rattle.journal.specs.Comparing.{both_of};

const BLOCK: usize = 16;

// Whether the sixteen words from `i` on in `a` and from `j` on in `b` are the same.
fn same_block(a: &[u16], i: usize, b: &[u16], j: usize) -> bool
    requires { (i + BLOCK ≤ length a.now) × (j + BLOCK ≤ length b.now) }
    ensures { result ≡ same_words (take BLOCK (drop i a.now)) (take BLOCK (drop j b.now)) }
{
    a[i..i + BLOCK] == b[j..j + BLOCK]
}

// From `i` on, word by word.
#[tactic(auto, using(crate::proofs::Comparing::first_word, crate::proofs::Comparing::first_stop, crate::proofs::Comparing::first_end))]
fn first_words(a: &[u16], b: &[u16], i: usize) -> usize
    requires { i ≤ min (length a.now) (length b.now) }
    ensures { result ≡ i + alike (drop i a.now) (drop i b.now) }
{
    let n = a.len().min(b.len());
    for k in i..n {
        if a[k] != b[k] {
            return k;
        }
    }
    n
}

// The count of first words alike.
#[tactic(auto, using(crate::proofs::Comparing::first_begin, crate::proofs::Comparing::first_turn))]
pub fn first_alike(a: &[u16], b: &[u16]) -> usize
    ensures { result ≡ alike a.now b.now }
{
    let n = a.len().min(b.len());
    for block in 0..n / BLOCK {
        let i = block * BLOCK;
        if !same_block(a, i, b, i) {
            return first_words(a, b, i);
        }
    }
    first_words(a, b, n / BLOCK * BLOCK)
}

// From the `i` last on, word by word.
#[tactic(auto, using(crate::proofs::Comparing::last_word, crate::proofs::Comparing::last_stop, crate::proofs::Comparing::last_end))]
fn last_words(a: &[u16], b: &[u16], i: usize) -> usize
    requires { i ≤ min (length a.now) (length b.now) }
    ensures { result ≡ i + alike (drop i (reverse a.now)) (drop i (reverse b.now)) }
{
    let n = a.len().min(b.len());
    for k in i..n {
        if a[a.len() - 1 - k] != b[b.len() - 1 - k] {
            return k;
        }
    }
    n
}

// The count of last words alike.
#[tactic(auto, using(crate::proofs::Comparing::first_begin, crate::proofs::Comparing::last_turn))]
pub fn last_alike(a: &[u16], b: &[u16]) -> usize
    ensures { result ≡ alike (reverse a.now) (reverse b.now) }
{
    let n = a.len().min(b.len());
    for block in 0..n / BLOCK {
        let i = block * BLOCK;
        if !same_block(a, a.len() - i - BLOCK, b, b.len() - i - BLOCK) {
            return last_words(a, b, i);
        }
    }
    last_words(a, b, n / BLOCK * BLOCK)
}

// The first words alike, and the last ones in what is left behind them.
#[derive(Clone, Copy)]
pub struct Alike {
    pub first: usize,
    pub last: usize,
}

#[tactic(auto, using(sock::proofs::Journal::alike_left, sock::proofs::Journal::alike_right, crate::proofs::Comparing::both_is, crate::proofs::Comparing::rest_is))]
pub fn both(a: &[u16], b: &[u16]) -> Alike
    ensures { result ≡ both_of a.now b.now }
{
    let first = first_alike(a, b);
    let last = last_alike(&a[first..], &b[first..]);
    Alike { first, last }
}
