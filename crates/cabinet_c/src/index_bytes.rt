// The calls with an index on bytes (document 02, g). An index is half its bytes in words; it is held in scratch, and written back once the call is
// accepted.
ghost use Rattle.std.specs.Prelude.{◌≡◌};
ghost use Rattle.sock.specs.IndexBytes.{byte_begin_answer, byte_begin_index, byte_indexed_answer, byte_indexed_output, byte_indexed_journal, byte_indexed_index, byte_indexed_taken, byte_indexed_restored, byte_indexed_relisted, byte_open_count, byte_oldest};
ghost use Rattle.stepping.specs.Answers.{numbers};

// An index begun with a start: 17 if it is short, 1 or 11 as the start check; else 0, and its 2,049 words are zeros.
#[unsafe(no_mangle)]
pub extern "C" fn sock_begin_index(config: &[u8], index: &mut [u8]) -> u8
    ensures answered { result ≡ byte_begin_answer config.now index.old }
    ensures begun { index.new ≡ byte_begin_index config.now index.old }
{
    cabinet::index_bytes::sock_begin_index(config, index)
}

// Step with a journal and an index: 17 before all others.
#[unsafe(no_mangle)]
pub extern "C" fn sock_step_indexed(
    engine: u16,
    position: u16,
    second: u16,
    place: u16,
    branch: u16,
    config: &[u8],
    out: &mut [u8],
    journal: &mut [u8],
    index: &mut [u8],
) -> u64
    ensures answered { result ≡ byte_indexed_answer config.now (numbers engine position second place branch) out.old journal.old index.old }
    ensures wrote { out.new ≡ byte_indexed_output config.now (numbers engine position second place branch) out.old journal.old index.old }
    ensures noted { journal.new ≡ byte_indexed_journal config.now (numbers engine position second place branch) out.old journal.old index.old }
    ensures followed { index.new ≡ byte_indexed_index config.now (numbers engine position second place branch) out.old journal.old index.old }
{
    cabinet::index_bytes::sock_step_indexed(
        engine, position, second, place, branch, config, out, journal, index,
    )
}

// Taking back with an index: 17 before all others; the serials of the waiters in what was restored are listed anew.
#[unsafe(no_mangle)]
pub extern "C" fn sock_take_back_indexed(
    config: &[u8],
    journal: &[u8],
    out: &mut [u8],
    index: &mut [u8],
) -> u64
    ensures answered { result ≡ byte_indexed_taken config.now journal.now out.old index.old }
    ensures wrote { out.new ≡ byte_indexed_restored config.now journal.now out.old index.old }
    ensures relisted { index.new ≡ byte_indexed_relisted config.now journal.now out.old index.old }
{
    cabinet::index_bytes::sock_take_back_indexed(config, journal, out, index)
}

// How many serials are open: from the top, the number in 8 bits, 40 zero, the count in 16.
#[unsafe(no_mangle)]
pub extern "C" fn sock_open_count(index: &[u8]) -> u64
    ensures { result ≡ byte_open_count index.now }
{
    cabinet::index_bytes::sock_open_count(index)
}

// The oldest open serial, packed as the count; 0 if none is open.
#[unsafe(no_mangle)]
pub extern "C" fn sock_oldest(index: &[u8]) -> u64
    ensures { result ≡ byte_oldest index.now }
{
    cabinet::index_bytes::sock_oldest(index)
}
