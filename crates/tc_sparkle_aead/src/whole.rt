// A whole packet at once, past the engine: what init on a new engine, one data call and the end make of it.
// No engine is put together (docs/PERFORMANCE.md says what that saves).
ghost use Rattle.std.specs.Prelude.{◌≡◌, ◌*◌, ◌≤◌, true, length, if◌then◌else◌};
ghost use Rattle.schwaemm.specs.Schwaemm.{prepared};
ghost use Rattle.tc_aead_cipher.specs.declared.phase.Phase.{Phase};
ghost use Rattle.tc_aead_cipher.specs.Variant.{params_of};
ghost use Rattle.tc_aead_cipher.specs.Checks.{direction_of, keep};
ghost use Rattle.tc_aead_cipher.specs.Outcome.{answered};
ghost use Rattle.tc_aead_cipher.specs.Reply.{reply_of};
ghost use Rattle.tc_sparkle_aead.specs.Message.{in_array, block_count, data_from, stream_out, written};
ghost use Rattle.tc_sparkle_aead.specs.Packet.{data_point, point_end, variant_packet};

use super::blocks::Mode;
use super::message::{Point, Start};
use super::{blocks, bytes};
use tc_aead_cipher::aead_error::AeadError;
use tc_aead_cipher::checks;
use tc_aead_cipher::checks::Held;
use tc_aead_cipher::phase::{Direction, Phase};
use tc_aead_cipher::refusal::Refusal;
use tc_aead_cipher::variant::SparkleVariant;

// The state that a message begins with: the start, and the header behind it.
pub(crate) fn prepare(start: Start) -> [u32; 16]
    ensures { result ≡ in_array 16 (prepared (params_of start.entry.variant) start.entry.key.now start.entry.nonce.now start.entry.header.now) }
{
    let variant = start.variant;
    let header = start.header;
    let mut w = blocks::initialise(variant, start.key, start.nonce);
    if header.is_empty() {
        return w;
    }
    let count = checks::block_count(variant, 0, header.len());
    let gone = count * variant.nonce_bytes();
    blocks::blocks(
        variant,
        &mut w,
        Mode::leading(false),
        header,
        &mut [],
        false,
        count,
    );
    blocks::mix_last(variant, w, &header[gone..], 0)
}

// The point after the data, which is all of the message or packet. Where `write` is true, what the blocks
// become is written; the flag stands beside the output as in `blocks_of` of blocks.rt.
pub(crate) fn data(
    variant: SparkleVariant,
    d: Direction,
    words: [u32; 16],
    input: &[u8],
    output: &mut [u8],
    write: bool,
) -> Point
    requires { write ≡ true → block_count (params_of variant) (keep (params_of variant) (Phase.Data d)) (data_point d words) input.now * (params_of variant).rate ≤ length output.old }
    ensures value { result ≡ (data_from (params_of variant) (data_point d words) input.now).point }
    ensures output_after { output.new ≡ (if write then written (stream_out (params_of variant) (data_point d words) input.now) output.old else output.old) }
{
    let phase = Phase::Data(d);
    let held = Held {
        variant,
        phase,
        bytes: 0,
    };
    let mut w = words;
    let mode = Mode::leading(checks::opening(phase));
    let count = checks::block_count(variant, held.keep(), input.len());
    blocks::blocks(variant, &mut w, mode, input, output, write, count);
    let gone = count * variant.nonce_bytes();
    let rest = &input[gone..];
    Point {
        phase,
        words: w,
        buffer: bytes::in_array(rest),
        held: rest.len(),
    }
}

// The end, behind the n bytes that the data wrote.
#[tactic(auto, unfolding(crate::specs::Packet::point_end))]
fn end(start: Start, at: Point, n: usize, output: &mut [u8]) -> Result<usize, Refusal>
    requires { (at.phase ≡ Phase.Data (direction_of at.phase)) × (n ≤ length output.old) }
    ensures value { reply_of (answered result) ≡ (point_end n (params_of start.entry.variant) start.entry.key.now at output.old).reply }
    ensures output_after { output.new ≡ (point_end n (params_of start.entry.variant) start.entry.key.now at output.old).out }
{
    let variant = start.variant;
    let m = at.as_held(variant).end_check(output.len() - n)?;
    let key = bytes::in_array(start.key);
    if checks::opening(at.phase) {
        let opened = at.open_end(variant, key, &mut output[n..]);
        if opened.mac.readable {
            return Ok(n + m);
        }
        return Err(Refusal::Call(AeadError::AuthenticationFailed));
    }
    at.seal_end(variant, key, &mut output[n..]);
    Ok(n + m)
}

// Seals a message or opens a packet. No pair repeats: a new engine has none. Key, nonce and header come side by
// side: nothing is known of their lengths before the check, and `Start` is made behind it.
pub fn packet(
    variant: SparkleVariant,
    d: Direction,
    key: &[u8],
    nonce: &[u8],
    header: &[u8],
    input: &[u8],
    output: &mut [u8],
) -> Result<usize, Refusal>
    ensures value { reply_of (answered result) ≡ (variant_packet variant d key.now nonce.now header.now input.now output.old).reply }
    ensures output_after { output.new ≡ (variant_packet variant d key.now nonce.now header.now input.now output.old).out }
{
    let size = variant.tag_bytes();
    checks::start_check(variant, d, key.len(), nonce.len(), size, false)?;
    let start = Start {
        variant,
        key,
        nonce,
        header,
    };
    let held = Held {
        variant,
        phase: Phase::Data(d),
        bytes: 0,
    };
    let n = held.data_check(input.len(), output.len())?;
    let words = prepare(start);
    let at = data(variant, d, words, input, output, true);
    end(start, at, n, output)
}
