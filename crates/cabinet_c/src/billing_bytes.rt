// The bill on bytes. Numbers are four bytes, totals eight, high first.
ghost use Rattle.std.specs.Prelude.{◌≡◌};
ghost use Rattle.billing.specs.Bytes.{byte_number, byte_totals};

// Bill: 0, and the eight totals in the first 64 bytes of `totals`; or 19 or 20, and no byte changed.
#[unsafe(no_mangle)]
pub extern "C" fn sock_bill(rates: &[u8], replies: &[u8], totals: &mut [u8]) -> u8
    ensures { (result ≡ byte_number rates.now replies.now totals.old) × (totals.new ≡ byte_totals rates.now replies.now totals.old) }
{
    cabinet::billing_bytes::sock_bill(rates, replies, totals)
}
