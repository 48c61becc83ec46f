// What is carried from step to step: the configuration's words.
ghost use Rattle.std.specs.Prelude.{◌≡◌, ◌≤◌, ℕ, List, [], IfOk, length, take};
ghost use Rattle.sock.specs.Configuration.{standard};
ghost use Rattle.sock.specs.Calls.{answer_of, step, step_answer, step_output};
ghost use Rattle.sock.specs.Bytes.{numbers_in, words_after};
ghost use Rattle.stepping.specs.Answers.{told};
ghost use Rattle.bytewise.specs.Held.{held};

use bytewise::words::hold;
use cases::word;
use layout::limit::LONGEST;
use layout::refusal::Refusal;
use std::marker::Model;
use stepping::answer::Accepted;
use stepping::bundles::Numbers;
use stepping::steps::step;

// How many bytes a step has: five words.
pub const STEP_SIZE: usize = 10;

// The words, in room for the longest configuration.
#[derive(Drop)]
pub struct Words {
    row: [u16; LONGEST],
    length: usize,
}

impl Model for Words {
    ghost Value = { List ℕ };

    ghost view = { λ w. take w.length w.row };

    ghost invariant = { λ w. w.length ≤ 8192 };
}

impl Words {
    pub fn none() -> Words
        ensures { result ≡ [] }
    {
        Words {
            row: [0; LONGEST],
            length: 0,
        }
    }

    // The words that the bytes are; none where the length is odd or there are too many.
    pub fn of(bytes: &[u8]) -> Words
        ensures { result ≡ held 8192 bytes.now }
    {
        let mut row = [0u16; LONGEST];
        let length = hold(bytes, &mut row);
        Words { row, length }
    }

    pub fn as_slice(&self) -> &[u16]
        ensures { result.now ≡ self.now }
    {
        &self.row[..self.length]
    }

    // What the step answers whose five numbers the bytes are. Where it was accepted its result takes the words' place.
    pub fn advance(&mut self, bytes: &[u8; STEP_SIZE]) -> Result<Accepted, Refusal>
        ensures answer { told result ≡ answer_of (step standard self.old (numbers_in bytes.now) 8192) }
        ensures words { self.new ≡ words_after (step standard self.old (numbers_in bytes.now) 8192) self.old }
    {
        let mut out = [0u16; LONGEST];
        let given = stepped(self.as_slice(), bytes, &mut out)?;
        let length = usize::from(given.length);
        self.row[..length].copy_from_slice(&out[..length]);
        self.length = length;
        Ok(given)
    }
}

// The step whose five numbers the bytes are.
fn stepped(ws: &[u16], bytes: &[u8; STEP_SIZE], out: &mut [u16]) -> Result<Accepted, Refusal>
    ensures answer { told result ≡ step_answer standard ws.now (numbers_in bytes.now) out.old }
    ensures words { out.new ≡ step_output standard ws.now (numbers_in bytes.now) out.old }
    ensures fits { length out.old ≤ 8192 → IfOk result (λ a. a.length ≤ length out.old) }
{
    let k = Numbers {
        engine: word(bytes[0], bytes[1]),
        position: word(bytes[2], bytes[3]),
        second: word(bytes[4], bytes[5]),
        second_position: word(bytes[6], bytes[7]),
        branch: word(bytes[8], bytes[9]),
    };
    step(ws, k, out)
}
