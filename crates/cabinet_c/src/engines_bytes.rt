// Joining and leaving on bytes.
ghost use Rattle.std.specs.Prelude.{◌≡◌};
ghost use Rattle.sock.specs.EnginesBytes.{byte_join_answer, byte_join_output, byte_leave_answer, byte_leave_output};

// Joining: from the top, the number in 8 bits, 40 zero, the length in 16. A refusal changes no byte.
#[unsafe(no_mangle)]
pub extern "C" fn sock_join(config: &[u8], newcomer: &[u8], out: &mut [u8]) -> u64
    ensures answered { result ≡ byte_join_answer config.now newcomer.now out.old }
    ensures wrote { out.new ≡ byte_join_output config.now newcomer.now out.old }
{
    cabinet::engines_bytes::sock_join(config, newcomer, out)
}

// Leaving, packed as joining is. A refusal changes no byte.
#[unsafe(no_mangle)]
pub extern "C" fn sock_leave(config: &[u8], out: &mut [u8]) -> u64
    ensures answered { result ≡ byte_leave_answer config.now out.old }
    ensures wrote { out.new ≡ byte_leave_output config.now out.old }
{
    cabinet::engines_bytes::sock_leave(config, out)
}
