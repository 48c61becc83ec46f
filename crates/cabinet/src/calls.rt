// The calls on bytes.
ghost use Rattle.std.specs.Prelude.{◌≡◌};
ghost use Rattle.sock.specs.Bytes.{byte_check_readable, byte_check_start, byte_ends, byte_process};
ghost use Rattle.sock.specs.Configuration.{standard};
ghost use Rattle.sock.specs.Pending.{byte_pending};

// Readable check: 0, or 1 if the configuration is not readable.
pub fn sock_check_readable(config: &[u8]) -> u8
    ensures { result ≡ byte_check_readable standard config.now }
{
    bytewise::calls::check_readable(config)
}

// Start check: 1 if the configuration is not readable, 11 if it is not fresh, else 0.
pub fn sock_check_start(config: &[u8]) -> u8
    ensures { result ≡ byte_check_start standard config.now }
{
    bytewise::calls::check_start(config)
}

// Ends: from the top, the number in 8 bits, 24 zero, the waiters and the workers in 16 each.
pub fn sock_ends(config: &[u8], serial: u16) -> u64
    ensures { result ≡ byte_ends config.now serial }
{
    bytewise::calls::ends(config, serial)
}

// Process of an engine: its first word in the upper 32 bits, the count of its words in the lower, both counted from the configuration's
// start; 0 if unreadable or no such engine.
pub fn sock_process(config: &[u8], engine: u16) -> u64
    ensures { result ≡ byte_process config.now engine }
{
    bytewise::calls::process(config, engine)
}

// Pending: from the top, the number in 8 bits, whether a pending process was found in 8, 16 zero, the count in 32.
pub fn sock_pending(engine: u16, position: u16, config: &[u8]) -> u64
    ensures { result ≡ byte_pending config.now engine position }
{
    bytewise::calls::pending(engine, position, config)
}
