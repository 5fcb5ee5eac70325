// A packet that is opened whole or not, by the number of its variant.
ghost use Rattle.std.specs.Prelude.{◌≡◌};
ghost use Rattle.open_whole.specs.OpenWhole.{open_whole_of};

use tc_aead_cipher::reply::Reply;
use tc_aead_cipher::variant::SparkleVariant;
use tc_sparkle_aead::verify;

// Opens a packet; 23 where no variant has the number.
// `packet.rt` of `crates/packet` has the same match. 23 is no answer of a call, so it is no case of `Refusal`; a
// function for both would take the call as a closure, and be no shorter.
#[tactic(auto, unfolding(crate::specs::OpenWhole::open_whole_of))]
pub(crate) fn open_whole(
    v: u8,
    key: &[u8],
    nonce: &[u8],
    header: &[u8],
    packet: &[u8],
    out: &mut [u8],
) -> Reply
    ensures value { result ≡ (open_whole_of v key.now nonce.now header.now packet.now out.old).reply }
    ensures out_after { out.new ≡ (open_whole_of v key.now nonce.now header.now packet.now out.old).out }
{
    match SparkleVariant::try_from(v) {
        Ok(variant) => verify::open_whole(variant, key, nonce, header, packet, out).into(),
        Err(unknown) => unknown.into(),
    }
}
