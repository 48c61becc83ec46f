// The call that translates a planners' start.
ghost use Rattle.std.specs.Prelude.{◌≡◌, ◌≤◌, length};
ghost use Rattle.sock.specs.Configuration.{standard};
ghost use Rattle.planning.specs.Answers.{number_in, translated_in};
ghost use Rattle.planning.specs.Call.{translate_answer, translate_output};
ghost use Rattle.planning.specs.Walk.{judged, measured};

use crate::refusal::Refusal;
use crate::rewrite::rewrite;
use layout::head;
use layout::limit::{DEEPEST, LONGEST, Limits};
use layout::number::word_of;
use layout::refusal::Refusal as Plain;
use reading::calls::{readable_at, start_at};
use writers::write::copy;

// Room for what any plan becomes, four words for each of its words, and for what is written on the way there, two words for each level more.
const ROOM: usize = 33024;

// Figures that no plan's rewriting reaches.
const BEYOND_DEEPEST: usize = 512;

const BEYOND_LONGEST: usize = 65535;

const BEYOND: Limits = Limits {
    deepest: BEYOND_DEEPEST,
    longest: BEYOND_LONGEST,
};

const NO_DEEPER: Limits = Limits {
    deepest: DEEPEST,
    longest: BEYOND_LONGEST,
};

// A plan by its stand-in, and by whether cH is free in a fixed scope's own handlers: 1, 14, 11.
#[tactic(auto, unfolding(crate::specs::Walk::judged))]
fn judge(words: &[u16], caught: bool) -> Result<(), Refusal>
    ensures { number_in result ≡ judged words.now caught }
{
    readable_at(words, BEYOND)?;
    if caught {
        return Err(Refusal::FixedCh);
    }
    start_at(words, BEYOND)?;
    Ok(())
}

// The translated start by the limits and the output's room: 8, 9, 10.
#[tactic(auto, unfolding(crate::specs::Walk::measured))]
fn measure(start: &[u16], room: usize) -> Result<(), Refusal>
    ensures { number_in result ≡ measured start.now room }
{
    start_at(start, BEYOND)?;
    if readable_at(start, NO_DEEPER).is_err() {
        return Err(Plain::TooDeep.into());
    }
    if LONGEST < start.len() {
        return Err(Plain::TooLong.into());
    }
    if room < start.len() {
        return Err(Plain::OutputShort.into());
    }
    Ok(())
}

// With two scratches lent.
fn within(ws: &[u16], a: &mut [u16], b: &mut [u16], out: &mut [u16]) -> Result<u16, Refusal>
    requires { (length ws.now ≤ 8192) × (length a.old ≡ 33024) × (length b.old ≡ 33024) }
    ensures answered { translated_in result ≡ translate_answer standard ws.now out.old }
    ensures written { out.new ≡ translate_output standard ws.now out.old }
{
    let standing = rewrite(ws, head::PAR, a, b).ok_or(Plain::Unreadable)?;
    judge(&a[..standing.to], standing.caught)?;
    let translated = rewrite(ws, head::SEQ, a, b).ok_or(Plain::Unreadable)?;
    measure(&a[..translated.to], out.len())?;
    copy(a, 0, translated.to, out, 0);
    Ok(word_of(translated.to))
}

// Translates the planners' start `ws` into `out`, and how many words it has. Refused if the words are not readable as a plan, if cH is free in a
// fixed scope's own handlers, if it is not fresh, if the start is too deep, too long, or the output too short; a refusal changes no word.
pub fn translate(ws: &[u16], out: &mut [u16]) -> Result<u16, Refusal>
    ensures answered { translated_in result ≡ translate_answer standard ws.now out.old }
    ensures written { out.new ≡ translate_output standard ws.now out.old }
{
    if LONGEST < ws.len() {
        return Err(Plain::Unreadable.into());
    }
    let mut a = [0u16; ROOM];
    let mut b = [0u16; ROOM];
    within(ws, &mut a, &mut b, out)
}
