// The start: the configuration's words, and what the start check says of them.
ghost use Rattle.std.specs.Prelude.{◌≡◌, ◌≤◌, ◌<◌, Some, IfOk, IfSome, MatchOption, not, eqb};
ghost use Rattle.sock.specs.Configuration.{standard};
ghost use Rattle.sock.specs.Calls.{check_start};
ghost use Rattle.sock.specs.Bytes.{start_line};
ghost use Rattle.handover.specs.Lines.{line_of, is_last};
ghost use Rattle.handover.specs.Printed.{count_in, wanted_for, start_words, words_read, left_behind_words};

use crate::line::Said;
use crate::state::Words;
use crate::text::start_line;
use cases::{read_full, word};
use layout::limit::LONGEST;
use reading::calls::check_start;
use std::io;
use std::io::Read;

const MOST_BYTES: usize = 2 * LONGEST;

// The word L, where it is there and no more than the words that a configuration may have.
fn count(head: &[u8]) -> Option<usize>
    ensures { MatchOption result (8192 < count_in head.now) (λ n. (n ≡ count_in head.now) × (n ≤ 8192)) }
{
    let [high, low, ..] = head else {
        return None;
    };
    let n = usize::from(word(*high, *low));
    if n <= LONGEST { Some(n) } else { None }
}

// How many bytes of words stand behind it; none where it is missing or too large.
fn size(head: &[u8]) -> usize
    ensures bytes { result ≡ wanted_for (count_in head.now) }
    ensures within { result ≤ 16384 }
{
    match count(head) {
        Some(n) => 2 * n,
        None => 0,
    }
}

// The words that those bytes are; none where they are too many, or some are missing.
fn words_in(head: &[u8], bytes: &[u8]) -> Words
    ensures { result ≡ start_words (count_in head.now) bytes.now }
{
    let Some(n) = count(head) else {
        return Words::none();
    };
    if bytes.len() < 2 * n {
        return Words::none();
    }
    Words::of(&bytes[..2 * n])
}

// The word L and the words behind it are read.
pub(crate) fn read_words<R: Read>(input: &mut R) -> io::Result<Words>
    ensures { IfOk result (λ words. IfSome (R.remaining input.old) (λ bytes. (words ≡ words_read bytes) × (R.remaining input.new ≡ Some (left_behind_words bytes)))) }
{
    let mut head = [0u8; 2];
    let got = read_full(input, &mut head)?;
    let mut bytes = [0u8; MOST_BYTES];
    let wanted = size(&head[..got]);
    let have = read_full(input, &mut bytes[..wanted])?;
    Ok(words_in(&head[..got], &bytes[..have]))
}

// The first line, which is the last unless the check's number is 0. No words are not readable, hence the number 1 where words are missing or
// too many.
pub(crate) fn begin(words: &Words) -> Said
    ensures line { line_of result ≡ start_line (check_start standard words.now) }
    ensures last { is_last result ≡ not (eqb (check_start standard words.now) 0) }
{
    let given = check_start(words.as_slice());
    let line = start_line(given);
    if given.is_ok() {
        Said::More(line)
    } else {
        Said::Last(line)
    }
}
