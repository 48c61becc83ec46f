// The step on bytes.
ghost use Rattle.std.specs.Prelude.{◌≡◌};
ghost use Rattle.sock.specs.Configuration.{standard};
ghost use Rattle.sock.specs.Bytes.{byte_answer, byte_output};
ghost use Rattle.stepping.specs.Answers.{numbers};

use stepping::bundles::Numbers;

// Step: from the top, the number, kind and fault in 8 bits each, 8 zero, serial and length in 16 each. A refusal changes no byte.
pub fn sock_step(
    engine: u16,
    position: u16,
    second: u16,
    place: u16,
    branch: u16,
    config: &[u8],
    out: &mut [u8],
) -> u64
    ensures { (result ≡ byte_answer standard config.now (numbers engine position second place branch) out.old) × (out.new ≡ byte_output standard config.now (numbers engine position second place branch) out.old) }
{
    let k = Numbers {
        engine,
        position,
        second,
        second_position: place,
        branch,
    };
    bytewise::stepping_bytes::step(k, config, out)
}
