// Writing words one after the other. The writers are total: where there is no room, or no such words, the output stays as it is; the place
// is counted on all the same, up to a figure that no output reaches.
ghost use Rattle.std.specs.Prelude.{◌≡◌, set};
ghost use Rattle.layout.specs.Positions.{onward};
ghost use Rattle.writers.specs.Writing.{pasted, pasted_end, lowered};

use layout::number::further;

// One word; the place behind it.
pub fn put(out: &mut [u16], to: usize, w: u16) -> usize
    ensures { (result ≡ onward to 1) × (out.new ≡ set out.old to w) }
{
    if to < out.len() {
        out[to] = w;
    }
    further(to, 1)
}

// The words from..upto of ws; the place behind them.
#[tactic(auto, unfolding(crate::specs::Writing::pasted, crate::specs::Writing::pasted_end))]
pub fn copy(ws: &[u16], from: usize, upto: usize, out: &mut [u16], to: usize) -> usize
    ensures { (result ≡ pasted_end ws.now from upto to) × (out.new ≡ pasted ws.now from upto out.old to) }
{
    if ws.len() < upto || upto < from {
        return to;
    }
    let n = upto - from;
    if to <= out.len() && n <= out.len() - to {
        out[to..to + n].copy_from_slice(&ws[from..upto]);
    }
    further(to, n)
}

// The words from..upto of out itself, moved down by one word.
#[tactic(auto, unfolding(crate::specs::Writing::lowered))]
pub fn down(out: &mut [u16], from: usize, upto: usize)
    ensures { out.new ≡ lowered out.old from upto }
{
    if 0 < from && from <= upto && upto <= out.len() {
        out.copy_within(from..upto, from - 1);
    }
}
