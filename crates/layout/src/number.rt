// Small total functions on numbers, words and positions.
ghost use Rattle.std.specs.Prelude.{◌≡◌, ◌-◌, ◌%◌, ◌<◌, get_or};
ghost use Rattle.layout.specs.Positions.{onward};

// The largest word, and a figure above all words.
pub const LARGEST: u16 = 65535;

pub const ABOVE: usize = 65536;

// A word as a number: `usize::from` with a clause that says how large a word is, of which the proofs where it is called make use.
pub fn wide(w: u16) -> usize
    ensures { (result ≡ w) × (result < 65536) }
{
    usize::from(w)
}

// A number as a word; lengths of configurations, counts of their words and serials are words. Std has no `From` that would take it.
pub fn word_of(n: usize) -> u16
    ensures { result ≡ n % 65536 }
{
    (n % 65536) as u16
}

// The word at a position; 0 where there is none.
pub fn word(ws: &[u16], at: usize) -> u16
    ensures { result ≡ get_or ws.now at 0 }
{
    if ws.len() <= at {
        return 0;
    }
    ws[at]
}

// `n` places further, up to a figure that no output reaches.
#[tactic(auto, unfolding(crate::specs::Positions::onward))]
pub fn further(to: usize, n: usize) -> usize
    ensures { result ≡ onward to n }
{
    if 1152921504606846976 <= to {
        return to;
    }
    if 1152921504606846976 <= n {
        return to;
    }
    to + n
}
