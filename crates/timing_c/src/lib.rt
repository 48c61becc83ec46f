// The readable check on words, exported for the benchmark.
#![tactic(auto)]

ghost use Rattle.std.specs.Prelude.{◌≡◌};
ghost use Rattle.sock.specs.Configuration.{standard};
ghost use Rattle.sock.specs.Calls.{check_readable};

#[unsafe(no_mangle)]
pub extern "C" fn timing_check_readable(ws: &[u16]) -> u8
    ensures { result ≡ check_readable standard ws.now }
{
    timing::timing_check_readable(ws)
}
