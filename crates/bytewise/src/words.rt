// From bytes to words, each the high byte first.
ghost use Rattle.std.specs.Prelude.{◌≡◌, ◌≤◌, length, map};
ghost use Rattle.sock.specs.Calls.{over};
ghost use Rattle.std.specs.Int.{w16, from_be_bytes};
ghost use Rattle.bytewise.specs.Held.{held, held_part};

// The words of the pairs, over the first of `ws`.
#[tactic(auto, using(crate::proofs::Holding::fill_turn, crate::proofs::Holding::laid_end))]
fn fill(pairs: &[[u8; 2]], ws: &mut [u16])
    requires { length pairs.now ≤ length ws.old }
    ensures { ws.new ≡ over (map (from_be_bytes w16) pairs.now) ws.old }
{
    for (i, pair) in pairs.iter().enumerate() {
        ws[i] = u16::from_be_bytes(*pair);
    }
}

// How many words the bytes are, and the words over the first of `ws`; none where the length is odd, or `ws` has too little room for them. That
// is 0, not `None`: the definitions' `held` is no words there as well, and each caller would take 0 for `None`.
#[tactic(auto, using(crate::proofs::Holding::odd_laid, crate::proofs::Holding::long_laid))]
pub fn hold(bytes: &[u8], ws: &mut [u16]) -> usize
    ensures { (result ≡ length (held (length ws.old) bytes.now)) × (ws.new ≡ over (held (length ws.old) bytes.now) ws.old) × (result ≤ length ws.old) }
{
    let (pairs, odd) = bytes.as_chunks::<2>();
    if !odd.is_empty() {
        return 0;
    }
    if ws.len() < pairs.len() {
        return 0;
    }
    fill(pairs, ws);
    pairs.len()
}

// The same words alone.
pub fn held<'a>(bytes: &[u8], scratch: &'a mut [u16]) -> &'a [u16]
    ensures { result.now ≡ held (length scratch.old) bytes.now }
{
    let n = hold(bytes, scratch);
    &scratch[..n]
}

// As many words of the bytes as `ws` has room for, an odd last byte left out: how many, and the words over the first of `ws`.
#[tactic(auto, using(crate::proofs::Parts::part_held))]
pub fn hold_part(bytes: &[u8], ws: &mut [u16]) -> usize
    ensures { (result ≡ length (held_part (length ws.old) bytes.now)) × (ws.new ≡ over (held_part (length ws.old) bytes.now) ws.old) × (result ≤ length ws.old) }
{
    let (pairs, _) = bytes.as_chunks::<2>();
    let n = pairs.len().min(ws.len());
    fill(&pairs[..n], ws);
    n
}

// The same words alone.
pub fn held_part<'a>(bytes: &[u8], scratch: &'a mut [u16]) -> &'a [u16]
    ensures { result.now ≡ held_part (length scratch.old) bytes.now }
{
    let n = hold_part(bytes, scratch);
    &scratch[..n]
}
