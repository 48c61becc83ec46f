// Whether words are an index in order: the count, so many serials that rise strictly from above 0, and zeros behind them.
ghost use Rattle.std.specs.Prelude.{◌≡◌};
ghost use Rattle.sock.specs.Index.{rising};
ghost use Rattle.index.specs.Form.{in_order};

use layout::number::wide;

// How many words an index has, and how many serials one in order lists at most.
pub const WORDS: usize = 2049;

pub const MOST: usize = 2047;

// Whether words rise strictly from above 0.
fn rises(words: &[u16]) -> bool
    ensures { result ≡ rising 0 words.now }
{
    let mut last = 0;
    for word in words {
        if *word <= last {
            return false;
        }
        last = *word;
    }
    true
}

#[tactic(auto, using(crate::proofs::Forming::order_short, crate::proofs::Forming::order_many, crate::proofs::Forming::order_falls))]
pub fn in_order(index: &[u16]) -> bool
    ensures { result ≡ in_order index.now }
{
    if index.len() < WORDS {
        return false;
    }
    let n = wide(index[0]);
    if MOST < n {
        return false;
    }
    if !rises(&index[1..n + 1]) {
        return false;
    }
    index[n + 1..WORDS].iter().all(|word| *word == 0)
}
