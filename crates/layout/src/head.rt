// The heads and words that rules write, from the heads and words that they find.
ghost use Rattle.std.specs.Prelude.{◌≡◌};
ghost use Rattle.layout.specs.Heads.{executor_head, client_word, waiter_head, server_word, throw_head, cleared_head, faulted_head, fault_word};

// Where nothing but the kind is in them.
pub const NIL: u16 = 0;

pub const SEQ: u16 = 4096;

pub const PAR: u16 = 6144;

pub const INST: u16 = 24576;

// The executor that serves the request with the head h and the word w.
pub fn executor(h: u16, w: u16) -> u16
    ensures { result ≡ executor_head h w }
{
    32768 + (h / 32 % 64 * 32 + w / 2048)
}

// Its word: the client engine.
pub fn client_word(client: u16) -> u16
    ensures { result ≡ client_word client }
{
    client % 8 * 8192
}

// The waiter that the solicit with the head h and the word w becomes.
pub fn waiter(h: u16, w: u16) -> u16
    ensures { result ≡ waiter_head h w }
{
    34816 + (h / 32 % 64 * 32 + w / 64 % 32)
}

// Its word, not dead: the server engine.
pub fn server_word(server: u16) -> u16
    ensures { result ≡ server_word server }
{
    server % 8 * 4096
}

// The throw of the fault in a notice's word w.
pub fn throw(w: u16) -> u16
    ensures { result ≡ throw_head w }
{
    26624 + w / 1024 * 32
}

// A scope's head with its mark cleared.
pub fn cleared(h: u16) -> u16
    ensures { result ≡ cleared_head h }
{
    h / 32 * 32 + h / 4 % 2 * 4
}

// With mark 1; and the word behind it, with the fault.
pub fn faulted(h: u16) -> u16
    ensures { result ≡ faulted_head h }
{
    h / 32 * 32 + 8 + h / 4 % 2 * 4
}

pub fn fault_word(fault: u16) -> u16
    ensures { result ≡ fault_word fault }
{
    fault % 64 * 1024
}
