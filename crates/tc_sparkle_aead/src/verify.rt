// A packet that is opened whole or not (document 02, 2026-03). A first pass verifies the tag and writes
// nothing; only then is the message written, by a second pass.
ghost use Rattle.std.specs.Prelude.{◌≡◌, ◌-◌, ◌≤◌, length};
ghost use Rattle.schwaemm.specs.Schwaemm.{body, decrypt, verified};
ghost use Rattle.tc_aead_cipher.specs.Variant.{params_of};
ghost use Rattle.tc_aead_cipher.specs.Outcome.{answered};
ghost use Rattle.tc_aead_cipher.specs.Reply.{reply_of};
ghost use Rattle.tc_sparkle_aead.specs.Message.{written};
ghost use Rattle.tc_sparkle_aead.specs.OpenWhole.{verify, open_whole};

use super::message::Start;
use super::{blocks, bytes, whole};
use tc_aead_cipher::aead_error::AeadError;
use tc_aead_cipher::checks;
use tc_aead_cipher::phase::Direction;
use tc_aead_cipher::refusal::Refusal;
use tc_aead_cipher::variant::SparkleVariant;

// Whether a packet's tag is the specification's. The last block is opened to an array of its own.
fn verified(start: Start, sealed: &[u8]) -> bool
    requires { (params_of start.variant).key ≤ length sealed.now }
    ensures { result ≡ verified (params_of start.entry.variant) start.entry.key.now start.entry.nonce.now start.entry.header.now sealed.now }
{
    let variant = start.variant;
    let words = whole::prepare(start);
    let at = whole::data(variant, Direction::Decrypt, words, sealed, &mut [], false);
    let mut last = [0u8; 64];
    let opened = at.open_end(variant, bytes::in_array(start.key), &mut last);
    opened.mac.readable
}

// The message of a packet is written to the output's start.
fn decrypt(start: Start, sealed: &[u8], output: &mut [u8])
    requires { ((params_of start.variant).key ≤ length sealed.now) × (length sealed.now - (params_of start.variant).key ≤ length output.old) }
    ensures { output.new ≡ written (decrypt (params_of start.entry.variant) start.entry.key.now start.entry.nonce.now start.entry.header.now (body (params_of start.entry.variant) sealed.now)) output.old }
{
    let variant = start.variant;
    let words = whole::prepare(start);
    let at = whole::data(variant, Direction::Decrypt, words, sealed, output, true);
    let n = at.held - variant.tag_bytes();
    let last = blocks::crypt(variant, at.words, &at.buffer[..n]);
    let pos = sealed.len() - at.held;
    output[pos..pos + n].copy_from_slice(&last[..n]);
}

// The verifying pass: the checks of a packet for which there would be `room`, and whether it is
// verified. It writes nothing. Key, nonce and header come side by side: nothing is known of their lengths before
// the check, and `Start` is made behind it.
#[tactic(auto, unfolding(crate::specs::OpenWhole::verify))]
pub fn verify(
    variant: SparkleVariant,
    key: &[u8],
    nonce: &[u8],
    header: &[u8],
    sealed: &[u8],
    room: usize,
) -> Result<usize, Refusal>
    ensures { answered result ≡ verify variant key.now nonce.now header.now sealed.now room }
{
    let n = checks::packet_check(variant, key.len(), nonce.len(), sealed.len(), room)?;
    let start = Start {
        variant,
        key,
        nonce,
        header,
    };
    if verified(start, sealed) {
        Ok(n)
    } else {
        Err(Refusal::Call(AeadError::AuthenticationFailed))
    }
}

// Opens a packet whole, or leaves the output as it was lent. Key, nonce and header come side by side as to `verify`,
// which checks them.
#[tactic(auto, unfolding(crate::specs::OpenWhole::open_whole))]
pub fn open_whole(
    variant: SparkleVariant,
    key: &[u8],
    nonce: &[u8],
    header: &[u8],
    sealed: &[u8],
    output: &mut [u8],
) -> Result<usize, Refusal>
    ensures value { reply_of (answered result) ≡ (open_whole variant key.now nonce.now header.now sealed.now output.old).reply }
    ensures output_after { output.new ≡ (open_whole variant key.now nonce.now header.now sealed.now output.old).out }
{
    let n = verify(variant, key, nonce, header, sealed, output.len())?;
    let start = Start {
        variant,
        key,
        nonce,
        header,
    };
    decrypt(start, sealed, output);
    Ok(n)
}
