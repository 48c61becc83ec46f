// Translating a planners' start on bytes.
ghost use Rattle.std.specs.Prelude.{◌≡◌};
ghost use Rattle.planning.specs.Bytes.{byte_translate_answer, byte_translate_output};

// Translating, packed as joining is. A refusal changes no byte.
#[unsafe(no_mangle)]
pub extern "C" fn sock_translate(config: &[u8], out: &mut [u8]) -> u64
    ensures answered { result ≡ byte_translate_answer config.now out.old }
    ensures wrote { out.new ≡ byte_translate_output config.now out.old }
{
    cabinet::planning_bytes::sock_translate(config, out)
}
