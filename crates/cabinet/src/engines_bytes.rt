// Joining and leaving on bytes.
ghost use Rattle.std.specs.Prelude.{◌≡◌, length};
ghost use Rattle.sock.specs.Configuration.{standard};
ghost use Rattle.sock.specs.Journal.{taken_of};
ghost use Rattle.sock.specs.Bytes.{packed_taken, restored_bytes};
ghost use Rattle.sock.specs.Engines.{join, leave};
ghost use Rattle.sock.specs.EnginesBytes.{byte_join_answer, byte_join_output, byte_leave_answer, byte_leave_output};
ghost use Rattle.bytewise.specs.Held.{numbered_as, room_of};
ghost use Rattle.cabinet.specs.Handed.{too_long};

use bytewise::packing::numbered;
use bytewise::stepping_bytes::{room_of, spread};
use bytewise::words::held;
use engines::join::{admit, join};
use engines::leave::leave;
use layout::limit::LONGEST;
use layout::refusal::Refusal;

// How many words of a newcomer are read, and their bytes: no configuration has so many.
const NEWCOMER: usize = 16384;

const NEWCOMER_BYTES: usize = 2 * NEWCOMER;

// Joining on words, the result written to scratch first, as far as the output has room for it.
fn let_in(ws: &[u16], engine: &[u16], res: &mut [u16], out: &mut [u8]) -> Result<u16, Refusal>
    ensures answered { numbered_as result ≡ packed_taken (taken_of (join standard ws.now engine.now (room_of (length res.old) (length out.old)))) }
    ensures wrote { out.new ≡ restored_bytes (join standard ws.now engine.now (room_of (length res.old) (length out.old))) out.old }
{
    let room = room_of(out.len(), res.len());
    let part = &mut res[..room];
    let length = join(ws, engine, part)?;
    spread(&part[..usize::from(length)], out);
    Ok(length)
}

// Leaving on words, the same way.
fn let_go(ws: &[u16], res: &mut [u16], out: &mut [u8]) -> Result<u16, Refusal>
    ensures answered { numbered_as result ≡ packed_taken (taken_of (leave standard ws.now (room_of (length res.old) (length out.old)))) }
    ensures wrote { out.new ≡ restored_bytes (leave standard ws.now (room_of (length res.old) (length out.old))) out.old }
{
    let room = room_of(out.len(), res.len());
    let part = &mut res[..room];
    let length = leave(ws, part)?;
    spread(&part[..usize::from(length)], out);
    Ok(length)
}

// The answer to a newcomer that is not read: who may not be admitted goes before `TooLong`.
#[tactic(auto, using(crate::proofs::Engines::unread_answer))]
fn unread(ws: &[u16]) -> u64
    ensures { result ≡ packed_taken (taken_of (too_long standard ws.now)) }
{
    numbered(admit(ws).and(Err(Refusal::TooLong)))
}

// Joining: from the top, the number in 8 bits, 40 zero, the length in 16. A refusal changes no byte.
pub fn sock_join(config: &[u8], newcomer: &[u8], out: &mut [u8]) -> u64
    ensures answered { result ≡ byte_join_answer config.now newcomer.now out.old }
    ensures wrote { out.new ≡ byte_join_output config.now newcomer.now out.old }
{
    let mut scratch = [0u16; LONGEST];
    let ws = held(config, &mut scratch);
    if NEWCOMER_BYTES < newcomer.len() {
        return unread(ws);
    }
    let mut engine = [0u16; NEWCOMER];
    let news = held(newcomer, &mut engine);
    let mut result = [0u16; LONGEST];
    numbered(let_in(ws, news, &mut result, out))
}

// Leaving, packed as joining is. A refusal changes no byte.
pub fn sock_leave(config: &[u8], out: &mut [u8]) -> u64
    ensures answered { result ≡ byte_leave_answer config.now out.old }
    ensures wrote { out.new ≡ byte_leave_output config.now out.old }
{
    let mut scratch = [0u16; LONGEST];
    let ws = held(config, &mut scratch);
    let mut result = [0u16; LONGEST];
    numbered(let_go(ws, &mut result, out))
}
