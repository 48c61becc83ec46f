// The step with a journal, and taking back, on bytes. A journal's space, or its words, are half its bytes, rounded down.
ghost use Rattle.std.specs.Prelude.{◌≡◌, ◌<◌, ◌*◌, ◌/◌, ◌^◌, length};
ghost use Rattle.sock.specs.Configuration.{standard};
ghost use Rattle.sock.specs.Calls.{answer_of};
ghost use Rattle.sock.specs.Journal.{journal_step, taken_of, take_back, restored_over};
ghost use Rattle.sock.specs.Bytes.{bytes_after, journal_bytes_after, byte_journal_step, byte_journal_answer, byte_journal_output, byte_journal_written, byte_take_back, byte_taken, byte_restored};
ghost use Rattle.layout.specs.Limits.{figures};
ghost use Rattle.stepping.specs.Answers.{told, numbers};
ghost use Rattle.stepping.specs.Bundles.{numbers_as};
ghost use Rattle.stepping.specs.Lent.{Blank};
ghost use Rattle.journal.specs.Answers.{taken_as};
ghost use Rattle.bytewise.specs.Held.{held, room_of};

use bytewise::packing::{numbered, pack};
use bytewise::stepping_bytes::{SHORT_BYTES, TWICE, room_of, spread};
use bytewise::words::{held, held_part};
use journal::back::take_back;
use journal::lay::lay;
use journal::steps::compare;
use layout::limit::LONGEST;
use layout::refusal::Refusal;
use stepping::answer::{Accepted, output_short};
use stepping::bundles::Numbers;
use stepping::limits::{Modest, STANDARD};
use stepping::steps::{FEW, MANY, SHORT};

// The counts at the head of a journal.
pub(crate) const COUNTS: usize = 4;

// Words for the journal of any step: its four counts and two configurations; and of a step of a short one.
const JOURNAL: usize = COUNTS + 2 * LONGEST;

const SHORT_JOURNAL: usize = COUNTS + SHORT + TWICE;

// The step on words at the limits given; its result and its journal are written to scratch first, as far as output and journal have room for
// them. The notes are the step's, all 0. Inlined, as `bytewise`'s `written` is.
#[inline(always)]
pub(crate) fn journaled(
    ws: &[u16],
    k: Numbers,
    m: Modest,
    notes: &mut [u16],
    res: &mut [u16],
    words: &mut [u16],
    out: &mut [u8],
    journal: &mut [u8],
) -> Result<Accepted, Refusal>
    requires { Blank notes.old }
    ensures answered { told result ≡ answer_of (journal_step (figures m.limits) ws.now (numbers_as k) (room_of (length res.old) (length out.old)) (room_of (length words.old) (length journal.old))) }
    ensures wrote { out.new ≡ bytes_after (journal_step (figures m.limits) ws.now (numbers_as k) (room_of (length res.old) (length out.old)) (room_of (length words.old) (length journal.old))) out.old }
    ensures noted { journal.new ≡ journal_bytes_after ws.now (journal_step (figures m.limits) ws.now (numbers_as k) (room_of (length res.old) (length out.old)) (room_of (length words.old) (length journal.old))) journal.old }
{
    let room = room_of(out.len(), res.len());
    let most = room_of(journal.len(), words.len());
    let part = &mut res[..room];
    let noted = &mut words[..most];
    let c = compare(ws, k, m, notes, noted.len(), part)?;
    let n = usize::from(c.accepted.length);
    spread(&part[..n], out);
    let end = lay(ws, &part[..n], c.alike, noted);
    spread(&noted[..end], journal);
    Ok(c.accepted)
}

// With scratch for so many words of a configuration, so many notes, and so many words of a result and of a journal. Not inlined, so that a short
// configuration pays for no long scratch, and a first try's is off the stack when the second begins.
#[inline(never)]
pub(crate) fn journal_in<
    const WORDS: usize,
    const NOTES: usize,
    const RESULT: usize,
    const JOURNAL: usize,
>(
    k: Numbers,
    m: Modest,
    config: &[u8],
    out: &mut [u8],
    journal: &mut [u8],
) -> Result<Accepted, Refusal>
    requires { (WORDS < 2 ^ 32) × (NOTES < 2 ^ 32) × (RESULT < 2 ^ 32) × (JOURNAL < 2 ^ 32) }
    ensures answered { told result ≡ answer_of (journal_step (figures m.limits) (held WORDS config.now) (numbers_as k) (room_of RESULT (length out.old)) (room_of JOURNAL (length journal.old))) }
    ensures wrote { out.new ≡ bytes_after (journal_step (figures m.limits) (held WORDS config.now) (numbers_as k) (room_of RESULT (length out.old)) (room_of JOURNAL (length journal.old))) out.old }
    ensures noted { journal.new ≡ journal_bytes_after (held WORDS config.now) (journal_step (figures m.limits) (held WORDS config.now) (numbers_as k) (room_of RESULT (length out.old)) (room_of JOURNAL (length journal.old))) journal.old }
{
    let mut scratch = [0u16; WORDS];
    let mut notes = [0u16; NOTES];
    let mut result = [0u16; RESULT];
    let mut words = [0u16; JOURNAL];
    let ws = held(config, &mut scratch);
    journaled(ws, k, m, &mut notes, &mut result, &mut words, out, journal)
}

// With scratch for every configuration, every result and every journal.
fn large_journal(
    k: Numbers,
    config: &[u8],
    out: &mut [u8],
    journal: &mut [u8],
) -> Result<Accepted, Refusal>
    ensures answered { told result ≡ answer_of (byte_journal_step standard config.now (numbers_as k) (length out.old / 2) (length journal.old / 2)) }
    ensures wrote { out.new ≡ byte_journal_output standard config.now (numbers_as k) out.old journal.old }
    ensures noted { journal.new ≡ byte_journal_written standard config.now (numbers_as k) out.old journal.old }
{
    journal_in::<LONGEST, MANY, LONGEST, JOURNAL>(k, STANDARD, config, out, journal)
}

// The step with a journal. As in the step, a short configuration is first tried with short scratch; `OutputShort` may then be for that alone.
pub(crate) fn step_journal(
    k: Numbers,
    config: &[u8],
    out: &mut [u8],
    journal: &mut [u8],
) -> Result<Accepted, Refusal>
    ensures answered { told result ≡ answer_of (byte_journal_step standard config.now (numbers_as k) (length out.old / 2) (length journal.old / 2)) }
    ensures wrote { out.new ≡ byte_journal_output standard config.now (numbers_as k) out.old journal.old }
    ensures noted { journal.new ≡ byte_journal_written standard config.now (numbers_as k) out.old journal.old }
{
    if SHORT_BYTES < config.len() {
        return large_journal(k, config, out, journal);
    }
    let given = journal_in::<SHORT, FEW, TWICE, SHORT_JOURNAL>(k, STANDARD, config, out, journal);
    if output_short(given) {
        return large_journal(k, config, out, journal);
    }
    given
}

// Step with a journal, packed as the step is: a refusal changes no byte of output and journal.
pub fn sock_step_journal(
    engine: u16,
    position: u16,
    second: u16,
    place: u16,
    branch: u16,
    config: &[u8],
    out: &mut [u8],
    journal: &mut [u8],
) -> u64
    ensures answered { result ≡ byte_journal_answer standard config.now (numbers engine position second place branch) out.old journal.old }
    ensures wrote { out.new ≡ byte_journal_output standard config.now (numbers engine position second place branch) out.old journal.old }
    ensures noted { journal.new ≡ byte_journal_written standard config.now (numbers engine position second place branch) out.old journal.old }
{
    let k = Numbers {
        engine,
        position,
        second,
        second_position: place,
        branch,
    };
    pack(step_journal(k, config, out, journal))
}

// Taking back on bytes, what is restored in the first words of `res`. Words past those that a journal of two configurations may have are not part
// of any, so they need not be held.
pub(crate) fn take_back_bytes(
    config: &[u8],
    journal: &[u8],
    res: &mut [u16; LONGEST],
    out: &mut [u8],
) -> Result<u16, Refusal>
    ensures answered { taken_as result ≡ taken_of (byte_take_back config.now journal.now (length out.old / 2)) }
    ensures wrote { out.new ≡ byte_restored config.now journal.now out.old }
    ensures held { res.new ≡ restored_over (byte_take_back config.now journal.now (length out.old / 2)) res.old }
{
    let mut scratch = [0u16; LONGEST];
    let ws = held(config, &mut scratch);
    let mut words = [0u16; JOURNAL];
    let noted = held_part(journal, &mut words);
    let room = room_of(out.len(), LONGEST);
    let length = take_back(ws, noted, &mut res[..room])?;
    spread(&res[..usize::from(length)], out);
    Ok(length)
}

// Taking back: from the top, the number in 8 bits, 40 zero, the length in 16. A refusal changes no byte.
pub fn sock_take_back(config: &[u8], journal: &[u8], out: &mut [u8]) -> u64
    ensures answered { result ≡ byte_taken config.now journal.now out.old }
    ensures wrote { out.new ≡ byte_restored config.now journal.now out.old }
{
    let mut result = [0u16; LONGEST];
    numbered(take_back_bytes(config, journal, &mut result, out))
}
