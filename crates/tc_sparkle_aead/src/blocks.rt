// Blocks and the state (the Rust's process_aad_block, process_data_block and process_final_data in
// engine.rs). `blocks` says once how the state takes up blocks; header, message, last block and start
// are uses of it.
//
// The state stays in local words from block to block. What keeps it fast is fragile, and
// docs/PERFORMANCE.md has the figures: the loop, once for each kind of state, is compiled into `blocks`
// with all that it calls; no held bytes are looked at in it; sealing and opening differ by a mask, which
// is data.
ghost use Rattle.std.specs.Prelude.{◌≡◌, ◌+◌, ◌*◌, ◌/◌, ◌<◌, ◌≤◌, true, false, ◌++◌, length, take, drop, if◌then◌else◌};
ghost use Rattle.std.proofs.Math.Seq.{paste};
ghost use Rattle.schwaemm.specs.Bytes.{to_bytes};
ghost use Rattle.schwaemm.specs.Blocks.{after, given};
ghost use Rattle.schwaemm.specs.Schwaemm.{schwaemm128_128, schwaemm256_128, schwaemm192_192, schwaemm256_256, crypt, padded, domain, mix_last, initialise, absorb_block, message_block, opening, tag_of};
ghost use Rattle.tc_aead_cipher.specs.Variant.{params_of};
ghost use Rattle.tc_sparkle_aead.specs.Message.{Fits, Held, sized, in_array, state_in, put_state, plain_by, xor_last, block_step, blocks_out, start_words, held_blocks};

use super::bytes;
use super::duplex::{Duplex, Mask, Sponge};
use sparkle::sse2::Groups;
use tc_aead_cipher::variant::SparkleVariant;

// ---- blocks

// What runs of blocks differ in: what is xored into the state's last word before the first block, what the
// state takes up of a block, and whether big steps come behind each.
#[derive(Clone, Copy)]
pub(crate) struct Mode {
    last: u32,
    mask: Mask,
    big: bool,
}

impl Mode {
    // Blocks that are not the last: slim steps come behind each.
    pub(crate) fn leading(opening: bool) -> Mode
        ensures { result ≡ record { last = 0; mask = opening; big = false } }
    {
        Mode {
            last: 0,
            mask: Mask::new(opening),
            big: false,
        }
    }

    // The start's block, and a last one, with its domain constant: big steps come behind it.
    fn single(domain: u32) -> Mode
        ensures { result ≡ record { last = domain; mask = false; big = true } }
    {
        Mode {
            last: domain,
            mask: Mask::new(false),
            big: true,
        }
    }
}

// The words are written to the output from `pos` on, where `write` says so (`blocks_of`).
#[tactic(auto, using(crate::proofs::ByteLaws::words_over))]
fn store(output: &mut [u8], pos: usize, words: &[u32], write: bool)
    requires { write ≡ true → pos + length words.now * 4 ≤ length output.old }
    ensures { output.new ≡ (if write then paste output.old pos (to_bytes words.now) (length words.now * 4) else output.old) }
{
    if write {
        bytes::put_words(&mut output[pos..], words);
    }
}

// `blocks`, for a kind of state. A flag stands beside the output: where a loop holds a lent slice in an
// `Option`, no proof was found of what the slice becomes. By index: the output needs the block's
// place, since its chunks are no help (`put_words` of bytes.rt), and chunks of the input would only stand beside
// the index.
#[inline(always)]
fn blocks_of<S: Duplex>(
    words: &mut [u32; 16],
    mode: Mode,
    input: &[u8],
    output: &mut [u8],
    write: bool,
    count: usize,
)
    requires { Fits S.params × (count * S.params.rate ≤ length input.now) × (write ≡ true → count * S.params.rate ≤ length output.old) }
    ensures words_after { words.new ≡ put_state S.params words.old (after S.params.rate (block_step S.params mode.big mode.mask) count (xor_last S.params mode.last (state_in S.params words.old)) input.now) }
    ensures output_after { output.new ≡ blocks_out S.params mode.big mode.mask write count (xor_last S.params mode.last (state_in S.params words.old)) input.now output.old }
{
    let n = S::block_words();
    let steps = S::steps(mode.big);
    let mut state = S::load(words, mode.last);
    for i in 0..count {
        let pos = i * (n * 4);
        let block = bytes::words_in(&input[pos..pos + n * 4]);
        store(output, pos, &state.crypt(block)[..n], write);
        state = state.take_up(block, mode.mask, steps);
    }
    state.store(words);
}

// The state takes up `count` blocks of the input. Where `write` says so, what the blocks become goes to the
// output from its start; the flag stands beside the output as in `blocks_of`. The match turns a variant, which
// is known at a call, into const arguments, which are known before. What both take side by side is of one call: a
// struct would be made for `blocks` and taken apart in `blocks_of`.
pub(crate) fn blocks(
    variant: SparkleVariant,
    words: &mut [u32; 16],
    mode: Mode,
    input: &[u8],
    output: &mut [u8],
    write: bool,
    count: usize,
)
    requires { (count * (params_of variant).rate ≤ length input.now) × (write ≡ true → count * (params_of variant).rate ≤ length output.old) }
    ensures words_after { words.new ≡ put_state (params_of variant) words.old (after (params_of variant).rate (block_step (params_of variant) mode.big mode.mask) count (xor_last (params_of variant) mode.last (state_in (params_of variant) words.old)) input.now) }
    ensures output_after { output.new ≡ blocks_out (params_of variant) mode.big mode.mask write count (xor_last (params_of variant) mode.last (state_in (params_of variant) words.old)) input.now output.old }
{
    match variant {
        SparkleVariant::Schwaemm128_128 => {
            blocks_of::<Sponge<8, 4, 7, 10>>(words, mode, input, output, write, count)
        }
        SparkleVariant::Schwaemm256_128 => {
            blocks_of::<Sponge<12, 8, 7, 11>>(words, mode, input, output, write, count)
        }
        SparkleVariant::Schwaemm192_192 => {
            blocks_of::<Sponge<12, 6, 7, 11>>(words, mode, input, output, write, count)
        }
        SparkleVariant::Schwaemm256_256 => {
            blocks_of::<Groups>(words, mode, input, output, write, count)
        }
    }
}

// Held bytes and input come as two slices with their bounds beside them: the bounds are the variant's, and a
// struct of all three would be made at each call and taken apart at once.

// Of `count` blocks, how many have held bytes in them.
#[tactic(auto, using(crate::proofs::StreamLaws::held_value, crate::proofs::StreamLaws::held_first))]
fn held_blocks(variant: SparkleVariant, held: usize, count: usize) -> usize
    requires { held ≤ (params_of variant).rate + (params_of variant).key }
    ensures value { result ≡ held_blocks (params_of variant) held count }
    ensures held { Held (params_of variant) held count result }
{
    count.min(held.div_ceil(variant.nonce_bytes()))
}

// The state after `count` blocks of the held bytes and the input together, which are sealed, absorbed or
// opened. Where `write` says so, what they become goes to the output from its start; the flag stands beside the
// output as in `blocks_of`. The mode is made for each run: made once, before the
// `if` of `behind`, it left what is passed behind that unproved.
#[inline(always)]
fn stream(
    variant: SparkleVariant,
    opening: bool,
    words: [u32; 16],
    held: &[u8],
    input: &[u8],
    output: &mut [u8],
    write: bool,
    count: usize,
) -> [u32; 16]
    requires { (length held.now ≤ (params_of variant).rate + (params_of variant).key) × (count * (params_of variant).rate ≤ length held.now + length input.now) × (write ≡ true → count * (params_of variant).rate ≤ length output.old) }
    ensures value { result ≡ put_state (params_of variant) words (after (params_of variant).rate (block_step (params_of variant) false opening) count (state_in (params_of variant) words) (held.now ++ input.now)) }
    ensures output_after { output.new ≡ blocks_out (params_of variant) false opening write count (state_in (params_of variant) words) (held.now ++ input.now) output.old }
{
    let mut v = words;
    if held.is_empty() {
        blocks(
            variant,
            &mut v,
            Mode::leading(opening),
            input,
            output,
            write,
            count,
        );
        return v;
    }
    let first = held_blocks(variant, held.len(), count);
    let n = first * variant.nonce_bytes();
    let part = bytes::gather(held, input, 0, n);
    blocks(
        variant,
        &mut v,
        Mode::leading(opening),
        &part,
        output,
        write,
        first,
    );
    if first == count {
        return v;
    }
    let at = n - held.len();
    let behind = if write { n } else { 0 };
    blocks(
        variant,
        &mut v,
        Mode::leading(opening),
        &input[at..],
        &mut output[behind..],
        write,
        count - first,
    );
    v
}

// The state after `count` header blocks.
#[tactic(auto, unfolding(schwaemm::specs::Schwaemm::absorb_block, schwaemm::specs::Schwaemm::sealing, crate::specs::Message::block_step, crate::specs::Message::plain_by))]
pub(crate) fn absorb_blocks(
    variant: SparkleVariant,
    words: [u32; 16],
    held: &[u8],
    input: &[u8],
    count: usize,
) -> [u32; 16]
    requires { (length held.now ≤ (params_of variant).rate + (params_of variant).key) × (count * (params_of variant).rate ≤ length held.now + length input.now) }
    ensures { result ≡ put_state (params_of variant) words (after (params_of variant).rate (absorb_block (params_of variant)) count (state_in (params_of variant) words) (held.now ++ input.now)) }
{
    stream(variant, false, words, held, input, &mut [], false, count)
}

// The state after `count` message blocks; what they become is written to the output from its start.
#[tactic(auto, unfolding(schwaemm::specs::Schwaemm::message_block, crate::specs::Message::block_step, crate::specs::Message::blocks_out))]
pub(crate) fn crypt_blocks(
    variant: SparkleVariant,
    opening: bool,
    words: [u32; 16],
    held: &[u8],
    input: &[u8],
    output: &mut [u8],
    count: usize,
) -> [u32; 16]
    requires { (length held.now ≤ (params_of variant).rate + (params_of variant).key) × (count * (params_of variant).rate ≤ length held.now + length input.now) × (count * (params_of variant).rate ≤ length output.old) }
    ensures value { result ≡ put_state (params_of variant) words (after (params_of variant).rate (message_block (params_of variant) (plain_by (params_of variant) opening)) count (state_in (params_of variant) words) (held.now ++ input.now)) }
    ensures output_after { output.new ≡ given (params_of variant).rate (message_block (params_of variant) (plain_by (params_of variant) opening)) (crypt (params_of variant)) count (state_in (params_of variant) words) (held.now ++ input.now) ++ drop (count * (params_of variant).rate) output.old }
{
    stream(variant, opening, words, held, input, output, true, count)
}

// ---- the last block, the start and the tag

// A last block comes as a slice, and each contract here bounds it by the rate: the bound is the variant's, and
// a slice of its own type would carry the variant a second time. The variant stands beside the words as it
// does beside a point: it is the engine's. The key comes as the engine keeps it, in fixed memory.

// What the bytes of a block become, sealed or opened.
pub(crate) fn crypt(variant: SparkleVariant, words: [u32; 16], block: &[u8]) -> [u8; 64]
    requires { length block.now ≤ (params_of variant).rate }
    ensures { result ≡ in_array 64 (crypt (params_of variant) (state_in (params_of variant) words) block.now) }
{
    bytes::xored(&bytes::bytes_of(words), block)
}

// The last bytes as a block: a short one gets byte 80 (hexadecimal) and zeros.
fn pad(variant: SparkleVariant, last: &[u8]) -> [u8; 64]
    requires { length last.now ≤ (params_of variant).rate }
    ensures { result ≡ in_array 64 (padded (params_of variant) last.now) }
{
    let mut r = bytes::in_array(last);
    if last.len() < variant.nonce_bytes() {
        r[last.len()] = 0x80;
    }
    r
}

// The domain constant: (v xor 2^(key bytes / 8)) × 2^24. v is a number, as in document 01; an enum in its place is
// a request of document 02 (2026-06), which is a landing of its own.
#[tactic(auto, using(crate::proofs::LastBlock::domain_power), unfolding(schwaemm::specs::Schwaemm::domain))]
pub(crate) fn domain_constant(variant: SparkleVariant, v: u32) -> u32
    requires { v < 4 }
    ensures { result ≡ domain (params_of variant) v }
{
    (v ^ (1 << (variant.key_bytes() / 8))) * 0x100_0000
}

// The last block is taken up; `short` is document 01's v of a short block: 0 for the header, 2 for the message. A
// full one has the next number.
pub(crate) fn mix_last(
    variant: SparkleVariant,
    words: [u32; 16],
    last: &[u8],
    short: u32,
) -> [u32; 16]
    requires { (length last.now ≤ (params_of variant).rate) × (short < 3) }
    ensures { result ≡ put_state (params_of variant) words (mix_last (params_of variant) short (state_in (params_of variant) words) last.now) }
{
    let block = pad(variant, last);
    let v = if last.len() < variant.nonce_bytes() {
        short
    } else {
        short + 1
    };
    let mode = Mode::single(domain_constant(variant, v));
    let mut r = words;
    blocks(variant, &mut r, mode, &block, &mut [], false, 1);
    r
}

// The state that makes nonce and key of the nonce, once it takes it up: feedback and whitening cancel.
// RATE and KEY are how many words rate and key have.
fn start_of<const RATE: usize, const KEY: usize>(key: [u32; 8]) -> [u32; 16]
    requires { Fits (sized (RATE + KEY) RATE 0 0) × (KEY ≤ 8) }
    ensures { result ≡ in_array 16 (start_words (sized (RATE + KEY) RATE 0 0) (take KEY key)) }
{
    let half = RATE / 2;
    let mut words = [0; 16];
    words[half..RATE].copy_from_slice(&key[..half]);
    words[RATE..RATE + KEY].copy_from_slice(&key[..KEY]);
    // By index: the words of the key are gone through twice, the second time from another place.
    for i in 0..half {
        words[i] = key[i] ^ key[(half + i) % KEY];
    }
    words
}

// `start_of` for a variant: a match, as in `blocks`.
#[tactic(auto, unfolding(crate::specs::Message::start_words, schwaemm::specs::Schwaemm::whitening))]
fn start_words(variant: SparkleVariant, key: [u32; 8]) -> [u32; 16]
    ensures { result ≡ in_array 16 (start_words (params_of variant) (take ((params_of variant).key / 4) key)) }
{
    match variant {
        SparkleVariant::Schwaemm128_128 => start_of::<4, 4>(key),
        SparkleVariant::Schwaemm256_128 => start_of::<8, 4>(key),
        SparkleVariant::Schwaemm192_192 => start_of::<6, 6>(key),
        SparkleVariant::Schwaemm256_256 => start_of::<8, 8>(key),
    }
}

// The start: nonce words, then key words, then big steps.
pub(crate) fn initialise(variant: SparkleVariant, key: &[u8], nonce: &[u8]) -> [u32; 16]
    requires { (length key.now ≡ (params_of variant).key) × (length nonce.now ≡ (params_of variant).rate) }
    ensures { result ≡ in_array 16 (initialise (params_of variant) key.now nonce.now) }
{
    let key: [u8; 32] = bytes::in_array(key);
    let mut v = start_words(variant, bytes::words_in(&key));
    blocks(variant, &mut v, Mode::single(0), nonce, &mut [], false, 1);
    v
}

// The tag: the key xored into the capacity.
pub(crate) fn make_tag(variant: SparkleVariant, words: [u32; 16], key: [u8; 32]) -> [u8; 32]
    ensures { result ≡ in_array 32 (tag_of (params_of variant) (take (params_of variant).key key) (state_in (params_of variant) words)) }
{
    let rate = variant.nonce_bytes();
    let n = variant.key_bytes();
    let state = bytes::bytes_of(words);
    bytes::xored(&state[rate..], &key[..n])
}
