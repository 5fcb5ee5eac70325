// A whole packet at once, by the number of its variant.
ghost use Rattle.std.specs.Prelude.{◌≡◌};
ghost use Rattle.packet.specs.Packet.{packet_of};

use tc_aead_cipher::phase::Direction;
use tc_aead_cipher::reply::Reply;
use tc_aead_cipher::variant::SparkleVariant;
use tc_sparkle_aead::whole;

// Seals a message or opens a packet; 23 where no variant has the number.
// `by_number.rt` of `crates/open_whole` has the same match. 23 is no answer of a call, so it is no case of
// `Refusal`; a function for both would take the call as a closure, and be no shorter.
#[tactic(auto, unfolding(crate::specs::Packet::packet_of))]
pub(crate) fn packet(
    v: u8,
    d: Direction,
    key: &[u8],
    nonce: &[u8],
    header: &[u8],
    input: &[u8],
    out: &mut [u8],
) -> Reply
    ensures value { result ≡ (packet_of v d key.now nonce.now header.now input.now out.old).reply }
    ensures out_after { out.new ≡ (packet_of v d key.now nonce.now header.now input.now out.old).out }
{
    match SparkleVariant::try_from(v) {
        Ok(variant) => whole::packet(variant, d, key, nonce, header, input, out).into(),
        Err(unknown) => unknown.into(),
    }
}
