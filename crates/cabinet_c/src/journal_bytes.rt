// The step with a journal, and taking back, on bytes. A journal's space, or its words, are half its bytes, rounded down.
ghost use Rattle.std.specs.Prelude.{◌≡◌};
ghost use Rattle.sock.specs.Configuration.{standard};
ghost use Rattle.sock.specs.Bytes.{byte_journal_answer, byte_journal_output, byte_journal_written, byte_taken, byte_restored};
ghost use Rattle.stepping.specs.Answers.{numbers};

// Step with a journal, packed as the step is: a refusal changes no byte of output and journal.
#[unsafe(no_mangle)]
pub extern "C" fn sock_step_journal(
    engine: u16,
    position: u16,
    second: u16,
    place: u16,
    branch: u16,
    config: &[u8],
    out: &mut [u8],
    journal: &mut [u8],
) -> u64
    ensures answered { result ≡ byte_journal_answer standard config.now (numbers engine position second place branch) out.old journal.old }
    ensures wrote { out.new ≡ byte_journal_output standard config.now (numbers engine position second place branch) out.old journal.old }
    ensures noted { journal.new ≡ byte_journal_written standard config.now (numbers engine position second place branch) out.old journal.old }
{
    cabinet::journal_bytes::sock_step_journal(
        engine, position, second, place, branch, config, out, journal,
    )
}

// Taking back: from the top, the number in 8 bits, 40 zero, the length in 16. A refusal changes no byte.
#[unsafe(no_mangle)]
pub extern "C" fn sock_take_back(config: &[u8], journal: &[u8], out: &mut [u8]) -> u64
    ensures answered { result ≡ byte_taken config.now journal.now out.old }
    ensures wrote { out.new ≡ byte_restored config.now journal.now out.old }
{
    cabinet::journal_bytes::sock_take_back(config, journal, out)
}
