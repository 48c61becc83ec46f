// The swing bridge cabinet's calls on bytes (document 02, i): the same as the large cabinet's, with limits and scratch of its own.
ghost use Rattle.std.specs.Prelude.{◌≡◌};
ghost use Rattle.sock.specs.Cabinets.{small};
ghost use Rattle.sock.specs.Bytes.{byte_answer, byte_output, byte_check_readable, byte_check_start, byte_journal_answer, byte_journal_output, byte_journal_written};
ghost use Rattle.stepping.specs.Answers.{numbers};

use crate::journal_bytes::{COUNTS, journal_in};
use bytewise::packing::pack;
use bytewise::stepping_bytes::step_in;
use bytewise::words::held;
use layout::limit::{self, SMALL_LONGEST};
use layout::refusal::number;
use reading::calls::{readable_at, start_at};
use stepping::bundles::Numbers;
use stepping::limits::SMALL;

// Notes for every configuration, two words for each of its words; words for the journal of any step.
const NOTES: usize = 2 * SMALL_LONGEST;

const JOURNAL: usize = COUNTS + 2 * SMALL_LONGEST;

// Readable check.
#[tactic(auto, using(bytewise::proofs::Holding::readable_as))]
pub fn sock_check_readable_small(config: &[u8]) -> u8
    ensures { result ≡ byte_check_readable small config.now }
{
    let mut scratch = [0u16; SMALL_LONGEST];
    number(readable_at(held(config, &mut scratch), limit::SMALL))
}

// Start check.
#[tactic(auto, using(bytewise::proofs::Holding::start_as))]
pub fn sock_check_start_small(config: &[u8]) -> u8
    ensures { result ≡ byte_check_start small config.now }
{
    let mut scratch = [0u16; SMALL_LONGEST];
    number(start_at(held(config, &mut scratch), limit::SMALL))
}

// Step, packed as the large cabinet's.
pub fn sock_step_small(
    engine: u16,
    position: u16,
    second: u16,
    place: u16,
    branch: u16,
    config: &[u8],
    out: &mut [u8],
) -> u64
    ensures { (result ≡ byte_answer small config.now (numbers engine position second place branch) out.old) × (out.new ≡ byte_output small config.now (numbers engine position second place branch) out.old) }
{
    let k = Numbers {
        engine,
        position,
        second,
        second_position: place,
        branch,
    };
    pack(step_in::<SMALL_LONGEST, NOTES, SMALL_LONGEST>(k, SMALL, config, out))
}

// Step with a journal.
pub fn sock_step_journal_small(
    engine: u16,
    position: u16,
    second: u16,
    place: u16,
    branch: u16,
    config: &[u8],
    out: &mut [u8],
    journal: &mut [u8],
) -> u64
    ensures answered { result ≡ byte_journal_answer small config.now (numbers engine position second place branch) out.old journal.old }
    ensures wrote { out.new ≡ byte_journal_output small config.now (numbers engine position second place branch) out.old journal.old }
    ensures noted { journal.new ≡ byte_journal_written small config.now (numbers engine position second place branch) out.old journal.old }
{
    let k = Numbers {
        engine,
        position,
        second,
        second_position: place,
        branch,
    };
    pack(journal_in::<SMALL_LONGEST, NOTES, SMALL_LONGEST, JOURNAL>(k, SMALL, config, out, journal))
}
