// The step on bytes.
ghost use Rattle.std.specs.Prelude.{◌≡◌, ◌≤◌, ◌<◌, ◌*◌, ◌^◌, length};
ghost use Rattle.sock.specs.Configuration.{standard};
ghost use Rattle.sock.specs.Calls.{answer_of, over};
ghost use Rattle.sock.specs.Calls as calls;
ghost use Rattle.sock.specs.Bytes.{bytes_of, bytes_after, byte_answer, byte_output};
ghost use Rattle.layout.specs.Limits.{figures};
ghost use Rattle.stepping.specs.Answers.{told};
ghost use Rattle.stepping.specs.Bundles.{numbers_as};
ghost use Rattle.stepping.specs.Lent.{Blank};
ghost use Rattle.bytewise.specs.Held.{held, room_of};

use crate::packing::pack;
use crate::words::held;
use layout::limit::LONGEST;
use layout::refusal::Refusal;
use stepping::answer::{Accepted, output_short};
use stepping::bundles::Numbers;
use stepping::limits::{Modest, STANDARD};
use stepping::steps::{FEW, MANY, SHORT, step_at};

// How many words a result may have in the short scratch, and the bytes of a short configuration.
pub const TWICE: usize = 2 * SHORT;

pub const SHORT_BYTES: usize = 2 * SHORT;

// The middle scratch: words of a configuration, the bytes of these, notes and words of a result. An eighth more words than the small cabinet's longest has,
// so that those of about 2,000 words are among them; notes twice as many, as in every scratch; for the result only a third more, since each word of
// room is zeroed and most steps add little to a configuration so long.
const MIDDLE: usize = 2304;

const MIDDLE_BYTES: usize = 2 * MIDDLE;

const MIDDLE_NOTES: usize = 2 * MIDDLE;

const MIDDLE_RESULT: usize = 4 * MIDDLE / 3;

// The bytes of the words, over the output.
#[tactic(auto, using(crate::proofs::Spreading::spread_none, crate::proofs::Spreading::spread_turn, crate::proofs::Spreading::spread_end))]
pub fn spread(words: &[u16], out: &mut [u8])
    requires { length words.now * 2 ≤ length out.old }
    ensures { out.new ≡ over (bytes_of words.now) out.old }
{
    for (i, word) in words.iter().enumerate() {
        out[2 * i..2 * i + 2].copy_from_slice(&word.to_be_bytes());
    }
}

// How many words the result may have, `most` or what the output has room for.
pub fn room_of(bytes: usize, most: usize) -> usize
    ensures { (result ≡ room_of most bytes) × (result ≤ most) × (result * 2 ≤ bytes) }
{
    let half = bytes / 2;
    most.min(half)
}

// The step on words at the limits given, its result written to `res` first, as far as the output has room for it. The notes are the step's, all 0.
// Inlined, since each `step_in` has the arrays at hand and a call more takes some sixty instructions.
#[inline(always)]
#[tactic(auto, unfolding(sock::specs::Calls::step_answer))]
pub fn written(
    ws: &[u16],
    k: Numbers,
    m: Modest,
    notes: &mut [u16],
    res: &mut [u16],
    out: &mut [u8],
) -> Result<Accepted, Refusal>
    requires { Blank notes.old }
    ensures answered { told result ≡ answer_of (calls.step (figures m.limits) ws.now (numbers_as k) (room_of (length res.old) (length out.old))) }
    ensures wrote { out.new ≡ bytes_after (calls.step (figures m.limits) ws.now (numbers_as k) (room_of (length res.old) (length out.old))) out.old }
{
    let room = room_of(out.len(), res.len());
    let part = &mut res[..room];
    let a = step_at(ws, k, m, notes, part)?;
    spread(&part[..usize::from(a.length)], out);
    Ok(a)
}

// The step with scratch for so many words of a configuration, so many notes and so many words of a result. Not inlined, so that a first try's scratch is
// off the stack when the second begins.
#[inline(never)]
pub fn step_in<const WORDS: usize, const NOTES: usize, const RESULT: usize>(
    k: Numbers,
    m: Modest,
    config: &[u8],
    out: &mut [u8],
) -> Result<Accepted, Refusal>
    requires { (WORDS < 2 ^ 32) × (NOTES < 2 ^ 32) × (RESULT < 2 ^ 32) }
    ensures answered { told result ≡ answer_of (calls.step (figures m.limits) (held WORDS config.now) (numbers_as k) (room_of RESULT (length out.old))) }
    ensures wrote { out.new ≡ bytes_after (calls.step (figures m.limits) (held WORDS config.now) (numbers_as k) (room_of RESULT (length out.old))) out.old }
{
    let mut scratch = [0u16; WORDS];
    let mut notes = [0u16; NOTES];
    let mut result = [0u16; RESULT];
    let ws = held(config, &mut scratch);
    written(ws, k, m, &mut notes, &mut result, out)
}

// With scratch for every configuration and every result.
fn large(k: Numbers, config: &[u8], out: &mut [u8]) -> u64
    ensures { (result ≡ byte_answer standard config.now (numbers_as k) out.old) × (out.new ≡ byte_output standard config.now (numbers_as k) out.old) }
{
    pack(step_in::<LONGEST, MANY, LONGEST>(k, STANDARD, config, out))
}

// First with scratch for so many words of a configuration, which it has at most, and of a result; `OutputShort` may then be for that alone.
fn tried<const WORDS: usize, const NOTES: usize, const RESULT: usize>(
    k: Numbers,
    config: &[u8],
    out: &mut [u8],
) -> u64
    requires { (WORDS < 2 ^ 32) × (NOTES < 2 ^ 32) × (RESULT < 2 ^ 32) × (length config.now ≤ WORDS * 2) }
    ensures { (result ≡ byte_answer standard config.now (numbers_as k) out.old) × (out.new ≡ byte_output standard config.now (numbers_as k) out.old) }
{
    let given = step_in::<WORDS, NOTES, RESULT>(k, STANDARD, config, out);
    if output_short(given) {
        return large(k, config, out);
    }
    pack(given)
}

// Step: from the top, the number, kind and fault in 8 bits each, 8 zero, serial and length in 16 each. A refusal changes no byte.
// A long scratch would take most of a short configuration's time, so that is first tried with a short one, and one of middle length with a middle one.
pub fn step(k: Numbers, config: &[u8], out: &mut [u8]) -> u64
    ensures { (result ≡ byte_answer standard config.now (numbers_as k) out.old) × (out.new ≡ byte_output standard config.now (numbers_as k) out.old) }
{
    if config.len() <= SHORT_BYTES {
        return tried::<SHORT, FEW, TWICE>(k, config, out);
    }
    if config.len() <= MIDDLE_BYTES {
        return tried::<MIDDLE, MIDDLE_NOTES, MIDDLE_RESULT>(k, config, out);
    }
    large(k, config, out)
}
