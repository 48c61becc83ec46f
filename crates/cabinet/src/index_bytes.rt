// The calls with an index on bytes (document 02, g). An index is half its bytes in words; it is held in scratch, and written back once the call is
// accepted.
ghost use Rattle.std.specs.Prelude.{◌≡◌, length, take, ◌*◌, ◌+◌};
ghost use Rattle.sock.specs.IndexBytes.{byte_begin_answer, byte_begin_index, byte_indexed_answer, byte_indexed_output, byte_indexed_journal, byte_indexed_index, byte_indexed_taken, byte_indexed_restored, byte_indexed_relisted, byte_open_count, byte_oldest};
ghost use Rattle.layout.specs.Refusals.{number_in};
ghost use Rattle.stepping.specs.Answers.{told, numbers};
ghost use Rattle.stepping.specs.Bundles.{numbers_as};
ghost use Rattle.bytewise.specs.Held.{packed_as, numbered_as};
ghost use Rattle.sock.specs.Bytes.{words_in};
ghost use Rattle.sock.specs.Calls.{over};
ghost use Rattle.index.specs.Form.{in_order, oldest_as};

use crate::journal_bytes::{step_journal, take_back_bytes};
use bytewise::packing::{NUMBER, numbered, pack};
use bytewise::stepping_bytes::spread;
use bytewise::words::{held, held_part, hold_part};
use index::form::{WORDS, in_order};
use index::questions::{oldest, open_count};
use index::steps::follow;
use index::waiters::list_anew;
use layout::limit::LONGEST;
use layout::refusal::{Refusal, number};
use reading::calls::check_start;
use std::num::NonZeroU16;
use stepping::answer::Accepted;
use stepping::bundles::Numbers;
use stepping::serial;

// Whether the index lent is in order; its words, as many as an index has, over the first of `serials`.
fn held_index(index: &[u8], serials: &mut [u16; WORDS]) -> bool
    ensures ordered { result ≡ in_order (words_in index.now) }
    ensures held { serials.new ≡ over (take 2049 (words_in index.now)) serials.old }
{
    let n = hold_part(index, serials);
    in_order(&serials[..n])
}

// `begin`, `stepped` and `taken_back` have the frames of `index`'s calls on words. Why one function for both is no plainer stands beside those.

// The 2,049 words of an index are zeros, once it is long enough and the start is one.
fn begin(config: &[u8], index: &mut [u8]) -> Result<(), Refusal>
    ensures answered { number_in result ≡ byte_begin_answer config.now index.old }
    ensures begun { index.new ≡ byte_begin_index config.now index.old }
{
    if index.len() / 2 < WORDS {
        return Err(Refusal::NoIndex);
    }
    let mut scratch = [0u16; LONGEST];
    check_start(held(config, &mut scratch))?;
    spread(&[0u16; WORDS], index);
    Ok(())
}

// An index begun with a start: 17 if it is short, 1 or 11 as the start check; else 0, and its 2,049 words are zeros.
pub fn sock_begin_index(config: &[u8], index: &mut [u8]) -> u8
    ensures answered { result ≡ byte_begin_answer config.now index.old }
    ensures begun { index.new ≡ byte_begin_index config.now index.old }
{
    number(begin(config, index))
}

// The step with the index held in scratch, and written back once it follows.
fn stepped(
    k: Numbers,
    config: &[u8],
    out: &mut [u8],
    journal: &mut [u8],
    index: &mut [u8],
) -> Result<Accepted, Refusal>
    ensures answered { packed_as (told result) ≡ byte_indexed_answer config.now (numbers_as k) out.old journal.old index.old }
    ensures wrote { out.new ≡ byte_indexed_output config.now (numbers_as k) out.old journal.old index.old }
    ensures noted { journal.new ≡ byte_indexed_journal config.now (numbers_as k) out.old journal.old index.old }
    ensures followed { index.new ≡ byte_indexed_index config.now (numbers_as k) out.old journal.old index.old }
{
    let mut serials = [0u16; WORDS];
    if !held_index(index, &mut serials) {
        return Err(Refusal::NoIndex);
    }
    let given = step_journal(k, config, out, journal)?;
    follow(&mut serials, given.kind, given.serial);
    spread(&serials, index);
    Ok(given)
}

// Step with a journal and an index: 17 before all others.
pub fn sock_step_indexed(
    engine: u16,
    position: u16,
    second: u16,
    place: u16,
    branch: u16,
    config: &[u8],
    out: &mut [u8],
    journal: &mut [u8],
    index: &mut [u8],
) -> u64
    ensures answered { result ≡ byte_indexed_answer config.now (numbers engine position second place branch) out.old journal.old index.old }
    ensures wrote { out.new ≡ byte_indexed_output config.now (numbers engine position second place branch) out.old journal.old index.old }
    ensures noted { journal.new ≡ byte_indexed_journal config.now (numbers engine position second place branch) out.old journal.old index.old }
    ensures followed { index.new ≡ byte_indexed_index config.now (numbers engine position second place branch) out.old journal.old index.old }
{
    let k = Numbers {
        engine,
        position,
        second,
        second_position: place,
        branch,
    };
    pack(stepped(k, config, out, journal, index))
}

// The taking back with the index held in scratch, and written back once its serials are listed anew.
fn taken_back(
    config: &[u8],
    journal: &[u8],
    out: &mut [u8],
    index: &mut [u8],
) -> Result<u16, Refusal>
    ensures answered { numbered_as result ≡ byte_indexed_taken config.now journal.now out.old index.old }
    ensures wrote { out.new ≡ byte_indexed_restored config.now journal.now out.old index.old }
    ensures relisted { index.new ≡ byte_indexed_relisted config.now journal.now out.old index.old }
{
    let mut serials = [0u16; WORDS];
    if !held_index(index, &mut serials) {
        return Err(Refusal::NoIndex);
    }
    let mut result = [0u16; LONGEST];
    let length = take_back_bytes(config, journal, &mut result, out)?;
    list_anew(&result[..usize::from(length)], &mut serials);
    spread(&serials, index);
    Ok(length)
}

// Taking back with an index: 17 before all others; the serials of the waiters in what was restored are listed anew.
pub fn sock_take_back_indexed(
    config: &[u8],
    journal: &[u8],
    out: &mut [u8],
    index: &mut [u8],
) -> u64
    ensures answered { result ≡ byte_indexed_taken config.now journal.now out.old index.old }
    ensures wrote { out.new ≡ byte_indexed_restored config.now journal.now out.old index.old }
    ensures relisted { index.new ≡ byte_indexed_relisted config.now journal.now out.old index.old }
{
    numbered(taken_back(config, journal, out, index))
}

// How many serials are open: from the top, the number in 8 bits, 40 zero, the count in 16.
pub fn sock_open_count(index: &[u8]) -> u64
    ensures { result ≡ byte_open_count index.now }
{
    let mut serials = [0u16; WORDS];
    numbered(open_count(held_part(index, &mut serials)))
}

// C has no `None`: 0 for it.
fn or_0(given: Result<Option<NonZeroU16>, Refusal>) -> Result<u16, Refusal>
    ensures { numbered_as result ≡ (oldest_as given).number * NUMBER + (oldest_as given).value }
{
    given.map(serial::number)
}

// The oldest open serial, packed as the count; 0 if none is open.
pub fn sock_oldest(index: &[u8]) -> u64
    ensures { result ≡ byte_oldest index.now }
{
    let mut serials = [0u16; WORDS];
    numbered(or_0(oldest(held_part(index, &mut serials))))
}
