// A line, put together here before it is printed: a write for each of its parts would make a call of the system for each.
ghost use Rattle.std.specs.Prelude.{◌≡◌, ℕ, ◌+◌, ◌≤◌, List, [], ◌∷◌, ◌++◌, length, take};
ghost use Rattle.handover.specs.declared.line.TheConstants.{LINE};

use itoa::{Buffer, Integer};
use std::marker::Model;

// No line has more bytes.
const LINE: usize = 128;

// Its bytes, in room for the longest.
#[derive(Drop)]
pub struct Line {
    row: [u8; LINE],
    length: usize,
}

impl Model for Line {
    ghost Value = { List ℕ };

    ghost view = { λ l. take l.length l.row };

    ghost invariant = { λ l. l.length ≤ LINE };
}

impl Line {
    pub fn new() -> Line
        ensures { result ≡ [] }
    {
        Line {
            row: [0; LINE],
            length: 0,
        }
    }

    pub fn as_bytes(&self) -> &[u8]
        ensures { result.now ≡ self.now }
    {
        &self.row[..self.length]
    }

    pub fn text(&mut self, part: &[u8])
        requires { length self.old + length part.now ≤ LINE }
        ensures { self.new ≡ self.old ++ part.now }
    {
        let end = self.length + part.len();
        self.row[self.length..end].copy_from_slice(part);
        self.length = end;
    }

    // A number, and the byte behind it.
    pub fn field<I: Integer>(&mut self, n: I, behind: u8)
        requires { length self.old + I.MAX_STR_LEN + 1 ≤ LINE }
        ensures text { self.new ≡ self.old ++ I.text n ++ behind ∷ [] }
        ensures room { length self.new ≤ length self.old + I.MAX_STR_LEN + 1 }
    {
        self.text(Buffer::new().format(n).as_bytes());
        self.text(&[behind]);
    }
}

// A line, and whether it is the last.
pub enum Said {
    More(Line),
    Last(Line),
}
