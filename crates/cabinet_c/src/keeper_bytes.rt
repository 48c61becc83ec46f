// Keeper against the river for C, with its scratch counted in words.
ghost use Rattle.std.specs.Prelude.{◌≡◌, length};
ghost use Rattle.keeper.specs.Calls.{keeper_number};
ghost use Rattle.keeper.specs.Bytes.{config_in, ByteAnswer};

// Keeper against the river, packed. A refusal changes no word of the scratch.
#[unsafe(no_mangle)]
pub extern "C" fn sock_keeper_words(
    config: &[u8],
    engines: u8,
    serial: u16,
    k: u16,
    scratch: &mut [u16],
) -> u64
    ensures answered { ByteAnswer config.now engines serial k (length scratch.old) result }
    ensures kept { (keeper_number (config_in config.now) serial k (length scratch.old) ≡ 0 → ⊥) → scratch.new ≡ scratch.old }
{
    cabinet::keeper_bytes::sock_keeper_words(config, engines, serial, k, scratch)
}
