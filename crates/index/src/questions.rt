// The two questions: how many serials are open, and the oldest one, if one is. 17 if the index is not in order.
ghost use Rattle.std.specs.Prelude.{◌≡◌};
ghost use Rattle.sock.specs.Index.{open_count};
ghost use Rattle.sock.specs.Index as sock;
ghost use Rattle.index.specs.Form.{counted_as, oldest_as};

use crate::form::in_order;
use layout::refusal::Refusal;
use std::num::NonZeroU16;

#[tactic(auto, using(crate::proofs::Forming::order_long, crate::proofs::Answering::count_told, crate::proofs::Answering::count_refused))]
pub fn open_count(index: &[u16]) -> Result<u16, Refusal>
    ensures { counted_as result ≡ open_count index.now }
{
    if in_order(index) {
        Ok(index[0])
    } else {
        Err(Refusal::NoIndex)
    }
}

// Behind the count stands the lowest serial listed, or a 0.
#[tactic(auto, using(crate::proofs::Forming::order_long, crate::proofs::Answering::oldest_told, crate::proofs::Answering::oldest_refused))]
pub fn oldest(index: &[u16]) -> Result<Option<NonZeroU16>, Refusal>
    ensures { oldest_as result ≡ sock.oldest index.now }
{
    if in_order(index) {
        Ok(NonZeroU16::new(index[1]))
    } else {
        Err(Refusal::NoIndex)
    }
}
