// Translating a planners' start on bytes.
ghost use Rattle.std.specs.Prelude.{◌≡◌, length};
ghost use Rattle.sock.specs.Bytes.{packed_taken};
ghost use Rattle.sock.specs.Configuration.{standard};
ghost use Rattle.bytewise.specs.Held.{room_of};
ghost use Rattle.planning.specs.Answers.{translated_in};
ghost use Rattle.planning.specs.Bytes.{translated_bytes, byte_translate_answer, byte_translate_output};
ghost use Rattle.planning.specs.Call.{translate, answer_of};

use bytewise::packing::NUMBER;
use bytewise::stepping_bytes::{room_of, spread};
use bytewise::words::held;
use layout::limit::LONGEST;
use planning::calls::translate;
use planning::refusal::Refusal;

// Translating on words, the start written to scratch first, as far as the output has room for it.
fn translated(ws: &[u16], res: &mut [u16], out: &mut [u8]) -> Result<u16, Refusal>
    ensures answered { translated_in result ≡ answer_of (translate standard ws.now (room_of (length res.old) (length out.old))) }
    ensures wrote { out.new ≡ translated_bytes (translate standard ws.now (room_of (length res.old) (length out.old))) out.old }
{
    let room = room_of(out.len(), res.len());
    let part = &mut res[..room];
    let length = translate(ws, part)?;
    spread(&part[..usize::from(length)], out);
    Ok(length)
}

// The length, or a refusal's number in the top 8 bits.
#[tactic(auto, unfolding(sock::specs::Bytes::packed_taken))]
fn packed(given: Result<u16, Refusal>) -> u64
    ensures { result ≡ packed_taken (translated_in given) }
{
    match given {
        Ok(length) => u64::from(length),
        Err(refusal) => u64::from(u8::from(refusal)) * NUMBER,
    }
}

// Translating, packed as joining is. A refusal changes no byte.
pub fn sock_translate(config: &[u8], out: &mut [u8]) -> u64
    ensures answered { result ≡ byte_translate_answer config.now out.old }
    ensures wrote { out.new ≡ byte_translate_output config.now out.old }
{
    let mut scratch = [0u16; LONGEST];
    let ws = held(config, &mut scratch);
    let mut result = [0u16; LONGEST];
    packed(translated(ws, &mut result, out))
}
