// The host boundary: a packet that is opened whole or not (document 02, 2026-03). The export has the C
// calling convention and takes numbers and byte slices (docs/HOST.md), side by side, as C hands them over;
// no engine crosses. It has an archive of its own: in that of `crates/packet` the parts of a packet have one
// caller each and are compiled into it (docs/PERFORMANCE.md).
#![tactic(auto)]

ghost use Rattle.std.specs.Prelude.{◌≡◌};
ghost use Rattle.open_whole.specs.OpenWhole.{open_whole_of};

mod by_number;

// Opens a packet: the message goes to the output where the tag is right. A refusal leaves the output as
// it was lent.
#[unsafe(no_mangle)]
pub extern "C" fn schwaemm_open_whole(
    variant: u8,
    key: &[u8],
    nonce: &[u8],
    header: &[u8],
    sealed: &[u8],
    output: &mut [u8],
    first: &mut usize,
    second: &mut usize,
) -> u8
    ensures value { result ≡ (open_whole_of variant key.now nonce.now header.now sealed.now output.old).reply.number }
    ensures first_after { first.new ≡ (open_whole_of variant key.now nonce.now header.now sealed.now output.old).reply.first }
    ensures second_after { second.new ≡ (open_whole_of variant key.now nonce.now header.now sealed.now output.old).reply.second }
    ensures output_after { output.new ≡ (open_whole_of variant key.now nonce.now header.now sealed.now output.old).out }
{
    let opened = by_number::open_whole(variant, key, nonce, header, sealed, output);
    *first = opened.first;
    *second = opened.second;
    opened.number
}
