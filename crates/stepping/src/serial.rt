// A serial that an answer may have, and its number, which is 0 where there is none: no serial is 0.
ghost use Rattle.std.specs.Prelude.{◌≡◌};
ghost use Rattle.stepping.specs.Serials.{serial_in};

use std::num::NonZeroU16;

pub fn number(serial: Option<NonZeroU16>) -> u16
    ensures { result ≡ serial_in serial }
{
    serial.map_or(0, NonZeroU16::get)
}
