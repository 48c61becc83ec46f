// An index begun with a start: no serial is open.
ghost use Rattle.std.specs.Prelude.{◌≡◌, ◌≤◌, length};
ghost use Rattle.layout.specs.Refusals.{number_in};
ghost use Rattle.index.specs.Form.{cleared};
ghost use Rattle.sock.specs.Configuration.{standard};
ghost use Rattle.sock.specs.Index.{begin_answer, begin_index};

use crate::form::WORDS;
use layout::refusal::Refusal;
use reading::calls::check_start;

// The words from there to the index's end are 0.
pub(crate) fn clear(index: &mut [u16], from: usize)
    requires { (from ≤ 2049) × (2049 ≤ length index.old) }
    ensures { index.new ≡ cleared from index.old }
{
    index[from..WORDS].fill(0);
}

// `cabinet` has this frame on bytes. To call this one it would hold the index's old words only to overwrite them, and be no shorter.

// 17 if fewer than 2,049 words are lent, then 1 and 11 as the start check; else the 2,049 words are zeros. A refusal changes no word.
#[tactic(auto, using(crate::proofs::Answering::begin_short, crate::proofs::Answering::begin_refused, crate::proofs::Answering::begin_done))]
pub fn begin_index(ws: &[u16], index: &mut [u16]) -> Result<(), Refusal>
    ensures answered { number_in result ≡ begin_answer standard ws.now index.old }
    ensures begun { index.new ≡ begin_index standard ws.now index.old }
{
    if index.len() < WORDS {
        return Err(Refusal::NoIndex);
    }
    check_start(ws)?;
    clear(index, 0);
    Ok(())
}
