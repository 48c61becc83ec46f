// The readable check on words, exported for the benchmark.
#![tactic(auto)]

ghost use Rattle.std.specs.Prelude.{◌≡◌};
ghost use Rattle.sock.specs.Configuration.{standard};
ghost use Rattle.sock.specs.Calls.{check_readable};

use layout::refusal::number;

pub fn timing_check_readable(ws: &[u16]) -> u8
    ensures { result ≡ check_readable standard ws.now }
{
    number(reading::calls::check_readable(ws))
}
