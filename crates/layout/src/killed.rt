// The heads and words that killing writes, from those that it finds.
ghost use Rattle.std.specs.Prelude.{◌≡◌};
ghost use Rattle.sock.specs.Words.{bit};
ghost use Rattle.layout.specs.Kinds.{mark_number};
ghost use Rattle.layout.specs.Killed.{zombie_head, notice_head, notice_word, waiter_word};

use crate::mark::Mark;

// A scope's head as a zombie's, with another mark.
pub fn zombie(h: u16, mark: Mark) -> u16
    ensures { result ≡ zombie_head h (mark_number mark) }
{
    h / 32 * 32 + u16::from(mark) * 8 + 4
}

// A notice's head, from its executor's.
pub fn notice(h: u16) -> u16
    ensures { result ≡ notice_head h }
{
    36864 + h / 32 % 64 * 32
}

// A notice's first word, from the fault and its executor's first word.
pub fn notice_word(fault: u16, w: u16) -> u16
    ensures { result ≡ notice_word fault w }
{
    fault % 64 * 1024 + w / 8192 * 128
}

// A waiter's first word with another bit for dead.
pub fn waiter_word(dead: bool, w: u16) -> u16
    ensures { result ≡ waiter_word (bit dead) w }
{
    u16::from(dead) * 32768 + w % 32768
}
