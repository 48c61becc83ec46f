// The window of faults on bytes. Words are two bytes, high first.
ghost use Rattle.std.specs.Prelude.{◌≡◌};
ghost use Rattle.window.specs.Window.{answer};
ghost use Rattle.window.specs.Bytes.{byte_number, byte_window, byte_count};

use window::on_bytes::{count_bytes, next_bytes};

// Hands an answer on to the window in the first 2,178 bytes: 0; or 18, and no byte changed.
pub fn sock_window_next(width: u16, number: u8, fault: u8, operation: u16, window: &mut [u8]) -> u8
    ensures { (result ≡ byte_number width (answer number fault operation) window.old) × (window.new ≡ byte_window width (answer number fault operation) window.old) }
{
    next_bytes(width, number, fault, operation, window)
}

// The faults of an operation: from the top, the number in 8 bits, 40 zero, the count in 16.
pub fn sock_window_count(operation: u16, window: &[u8]) -> u64
    ensures { result ≡ byte_count operation window.now }
{
    count_bytes(operation, window)
}
