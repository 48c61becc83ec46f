// What the programs over vectors share: a word of two bytes, a sum over words, and input and output over any reader and writer. The
// contracts name the bytes that move where the reader or the writer tells them; standard input and output tell none.
#![tactic(auto)]

ghost use Rattle.std.specs.Prelude.{◌≡◌, ◌+◌, ◌*◌, ◌≤◌, ◌<◌, true, false, length, take, IfOk, IfSome, OnOk, slice_index};
ghost use Rattle.std.specs.Io.KnownBytes.{Appends, Consumes, IsAtEnd};
ghost use Rattle.cases.specs.Sums.{summed};
ghost use Rattle.cases.specs.Printed.{printed};

use std::io;
use std::io::{Read, Write};

pub fn word(high: u8, low: u8) -> u16
    ensures { result ≡ high * 256 + low }
{
    u16::from_be_bytes([high, low])
}

// A sum in which the order of the words counts.
pub fn sum(ws: &[u16]) -> u16
    ensures { result ≡ summed 0 ws.now }
{
    ws.iter().fold(0, |s, w| s.wrapping_mul(3).wrapping_add(*w))
}

// A number, and a space or the end of the line behind it.
pub fn print<W: Write>(output: &mut W, n: u64, last: bool) -> io::Result<()>
    ensures { OnOk result (Appends (W.contents output.old) (W.contents output.new) (printed n last)) }
{
    if last {
        write!(output, "{n}\n")
    } else {
        write!(output, "{n} ")
    }
}

// Reads until `bytes` is full or the input ends; how many there were.
pub fn read_full<R: Read>(input: &mut R, bytes: &mut [u8]) -> io::Result<usize>
    ensures count { IfOk result (λ n. n ≤ length bytes.old) }
    ensures same_length { length bytes.new ≡ length bytes.old }
    ensures consumed { IfOk result (λ n. Consumes (R.remaining input.old) (R.remaining input.new) (take n bytes.new)) }
    ensures ended { IfOk result (λ n. n < length bytes.old → IsAtEnd (R.remaining input.new)) }
{
    let mut done = 0;
    // How many bytes each read gives is the reader's to say, hence no `for`.
    while done < bytes.len() {
        let n = input.read(&mut bytes[done..])?;
        if n == 0 {
            break;
        }
        done += n;
    }
    Ok(done)
}

// Whether there were `count` bytes to read.
pub fn take<R: Read>(input: &mut R, bytes: &mut [u8], count: usize) -> io::Result<bool>
    ensures room { IfOk result (λ is. is ≡ true → count ≤ length bytes.old) }
    ensures consumed { IfOk result (λ is. is ≡ true → Consumes (R.remaining input.old) (R.remaining input.new) (take count bytes.new)) }
    ensures ended { IfOk result (λ is. is ≡ false → count ≤ length bytes.old → IsAtEnd (R.remaining input.new)) }
{
    if bytes.len() < count {
        return Ok(false);
    }
    Ok(count <= read_full(input, &mut bytes[..count])?)
}

// A case read over the first of `bytes`: `head` bytes, of which the first two are how many words there are, and the words. How many bytes it
// has; none where the input ends before or there is no room.
pub fn read_case<R: Read>(input: &mut R, head: usize, bytes: &mut [u8]) -> io::Result<Option<usize>>
    ensures same_length { length bytes.new ≡ length bytes.old }
    ensures size { IfOk result (λ o. IfSome o (λ n. n ≡ head + (slice_index bytes.new 0 * 256 + slice_index bytes.new 1) * 2)) }
    ensures within { IfOk result (λ o. IfSome o (λ n. n ≤ length bytes.old)) }
    ensures consumed { IfOk result (λ o. IfSome o (λ n. Consumes (R.remaining input.old) (R.remaining input.new) (take n bytes.new))) }
{
    if head < 2 || !take(input, bytes, head)? {
        return Ok(None);
    }
    let size = 2 * usize::from(word(bytes[0], bytes[1]));
    if !take(input, &mut bytes[head..], size)? {
        return Ok(None);
    }
    Ok(Some(head + size))
}
