// The host boundary: whole packets at once. The exports have the C calling convention and take
// numbers and byte slices (docs/HOST.md), side by side, as C hands them over; no engine crosses. Call lists
// are `crates/host`.
#![tactic(auto)]

ghost use Rattle.std.specs.Prelude.{◌≡◌};
ghost use Rattle.tc_aead_cipher.specs.declared.phase.Direction.{Direction};
ghost use Rattle.packet.specs.Packet.{packet_of};

mod packet;

use tc_aead_cipher::phase::Direction;

// Seals a message: the ciphertext and the tag go to the output.
#[unsafe(no_mangle)]
pub extern "C" fn schwaemm_seal(
    variant: u8,
    key: &[u8],
    nonce: &[u8],
    header: &[u8],
    message: &[u8],
    output: &mut [u8],
    first: &mut usize,
    second: &mut usize,
) -> u8
    ensures value { result ≡ (packet_of variant Direction.Encrypt key.now nonce.now header.now message.now output.old).reply.number }
    ensures first_after { first.new ≡ (packet_of variant Direction.Encrypt key.now nonce.now header.now message.now output.old).reply.first }
    ensures second_after { second.new ≡ (packet_of variant Direction.Encrypt key.now nonce.now header.now message.now output.old).reply.second }
    ensures output_after { output.new ≡ (packet_of variant Direction.Encrypt key.now nonce.now header.now message.now output.old).out }
{
    let sealed = packet::packet(
        variant,
        Direction::Encrypt,
        key,
        nonce,
        header,
        message,
        output,
    );
    *first = sealed.first;
    *second = sealed.second;
    sealed.number
}

// Opens a packet: the message goes to the output. C has a name for each direction (docs/HOST.md).
#[unsafe(no_mangle)]
pub extern "C" fn schwaemm_open(
    variant: u8,
    key: &[u8],
    nonce: &[u8],
    header: &[u8],
    sealed: &[u8],
    output: &mut [u8],
    first: &mut usize,
    second: &mut usize,
) -> u8
    ensures value { result ≡ (packet_of variant Direction.Decrypt key.now nonce.now header.now sealed.now output.old).reply.number }
    ensures first_after { first.new ≡ (packet_of variant Direction.Decrypt key.now nonce.now header.now sealed.now output.old).reply.first }
    ensures second_after { second.new ≡ (packet_of variant Direction.Decrypt key.now nonce.now header.now sealed.now output.old).reply.second }
    ensures output_after { output.new ≡ (packet_of variant Direction.Decrypt key.now nonce.now header.now sealed.now output.old).out }
{
    let opened = packet::packet(
        variant,
        Direction::Decrypt,
        key,
        nonce,
        header,
        sealed,
        output,
    );
    *first = opened.first;
    *second = opened.second;
    opened.number
}
