// The swing bridge cabinet's calls on bytes (document 02, i): the same as the large cabinet's, with limits and scratch of its own.
ghost use Rattle.std.specs.Prelude.{◌≡◌};
ghost use Rattle.sock.specs.Cabinets.{small};
ghost use Rattle.sock.specs.Bytes.{byte_answer, byte_output, byte_check_readable, byte_check_start, byte_journal_answer, byte_journal_output, byte_journal_written};
ghost use Rattle.stepping.specs.Answers.{numbers};

// Readable check.
#[unsafe(no_mangle)]
pub extern "C" fn sock_check_readable_small(config: &[u8]) -> u8
    ensures { result ≡ byte_check_readable small config.now }
{
    cabinet::small_bytes::sock_check_readable_small(config)
}

// Start check.
#[unsafe(no_mangle)]
pub extern "C" fn sock_check_start_small(config: &[u8]) -> u8
    ensures { result ≡ byte_check_start small config.now }
{
    cabinet::small_bytes::sock_check_start_small(config)
}

// Step, packed as the large cabinet's.
#[unsafe(no_mangle)]
pub extern "C" fn sock_step_small(
    engine: u16,
    position: u16,
    second: u16,
    place: u16,
    branch: u16,
    config: &[u8],
    out: &mut [u8],
) -> u64
    ensures { (result ≡ byte_answer small config.now (numbers engine position second place branch) out.old) × (out.new ≡ byte_output small config.now (numbers engine position second place branch) out.old) }
{
    cabinet::small_bytes::sock_step_small(engine, position, second, place, branch, config, out)
}

// Step with a journal.
#[unsafe(no_mangle)]
pub extern "C" fn sock_step_journal_small(
    engine: u16,
    position: u16,
    second: u16,
    place: u16,
    branch: u16,
    config: &[u8],
    out: &mut [u8],
    journal: &mut [u8],
) -> u64
    ensures answered { result ≡ byte_journal_answer small config.now (numbers engine position second place branch) out.old journal.old }
    ensures wrote { out.new ≡ byte_journal_output small config.now (numbers engine position second place branch) out.old journal.old }
    ensures noted { journal.new ≡ byte_journal_written small config.now (numbers engine position second place branch) out.old journal.old }
{
    cabinet::small_bytes::sock_step_journal_small(
        engine, position, second, place, branch, config, out, journal,
    )
}
