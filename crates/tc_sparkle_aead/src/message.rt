// The work on a message (the Rust's start_data, absorb_aad_bytes, process_encrypt_bytes and their like in
// engine.rs): it goes by the message's point, and the call puts the engine together.
ghost use Rattle.std.specs.Prelude.{◌≡◌, ◌+◌, ◌*◌, ◌<◌, ◌≤◌, length, take, if◌then◌else◌, nat_lt};
ghost use Rattle.tc_aead_cipher.specs.Variant.{params_of};
ghost use Rattle.schwaemm.specs.Schwaemm.{message_block};
ghost use Rattle.tc_aead_cipher.specs.Checks.{keep};
ghost use Rattle.tc_sparkle_aead.specs.Message.{empty_point, no_mac, buffered_count, block_count, streamed, start_point, absorb_header, header_steps, begin_point, begin_steps, stream_out, plain_of, data_from, written, state_in, put_state, last_state, reset_point, seal_end, seal_out, open_end, open_out};

use super::{blocks, bytes};
use tc_aead_cipher::checks;
use tc_aead_cipher::checks::Held;
use tc_aead_cipher::phase::{Direction, Phase};
use tc_aead_cipher::variant::SparkleVariant;

// A point of a message: the phase, the state's words, the bytes that are held and how many they are.
// Words and bytes beyond the state's and the held ones are 0. The bytes are an array with their number beside
// it: an engine has fixed memory and no heap. `held` stands before the arrays: call lists take less code and
// fewer moves so (docs/PERFORMANCE.md). The variant stands once, in the engine, and not in each of its points:
// methods have it beside `self`.
#[derive(Clone, Copy)]
pub struct Point {
    pub(crate) phase: Phase,
    pub(crate) held: usize,
    pub(crate) words: [u32; 16],
    pub(crate) buffer: [u8; 64],
}

// A tag and whether it can be read (the Rust's `Option<[u8; 32]>`): docs/01-scope.md, "Bending the Rust", has the
// flag beside the array.
#[derive(Clone, Copy)]
pub struct Mac {
    pub readable: bool,
    pub bytes: [u8; 32],
}

// What a start takes, behind the check of its lengths: a key and a nonce of the variant, and a header.
#[derive(Clone, Copy)]
pub(crate) struct Start<'a> {
    pub(crate) variant: SparkleVariant,
    pub(crate) key: &'a [u8],
    pub(crate) nonce: &'a [u8],
    pub(crate) header: &'a [u8],
    ghost key_fits: { length key.now ≡ (params_of variant).key },
    ghost nonce_fits: { length nonce.now ≡ (params_of variant).rate },
}

// Where a part of a call leads: the point, and the steps that it runs.
#[derive(Clone, Copy)]
pub struct Progress {
    pub(crate) point: Point,
    pub(crate) steps: u64,
}

// What the end of a message gives: the tag, and the steps that it runs. Not one type with `Progress`: the
// definitions name what each has, the point or the tag.
#[derive(Clone, Copy)]
pub struct End {
    pub(crate) mac: Mac,
    pub(crate) steps: u64,
}

impl Mac {
    // No tag.
    #[tactic(auto, unfolding(crate::specs::Message::zeros, crate::specs::Message::no_mac))]
    pub(crate) fn none() -> Mac
        ensures { result ≡ no_mac }
    {
        Mac {
            readable: false,
            bytes: [0; 32],
        }
    }
}

impl Point {
    // A point where no bytes are held.
    #[tactic(auto, unfolding(crate::specs::Message::zeros))]
    pub(crate) fn empty(phase: Phase, words: [u32; 16]) -> Point
        ensures { result ≡ empty_point phase words }
    {
        Point {
            phase,
            words,
            buffer: [0; 64],
            held: 0,
        }
    }

    // The point after the start, before the initial header.
    #[tactic(auto, unfolding(crate::specs::Message::start_point))]
    pub(crate) fn start(start: Start, d: Direction) -> Point
        ensures { result ≡ start_point (params_of start.entry.variant) d start.entry.key.now start.entry.nonce.now }
    {
        let words = blocks::initialise(start.variant, start.key, start.nonce);
        Point::empty(Phase::Init(d), words)
    }

    // What the checks look at of it.
    pub(crate) fn as_held(self, variant: SparkleVariant) -> Held
        ensures { result ≡ record { variant = variant; phase = self.phase; bytes = self.held } }
    {
        Held {
            variant,
            phase: self.phase,
            bytes: self.held,
        }
    }

    // How many bytes it holds: of the header at most a block, of the data as the queries count it.
    pub(crate) fn buffered_count(self, variant: SparkleVariant) -> usize
        ensures { result ≡ buffered_count (params_of variant) self.phase self.held }
    {
        match self.phase {
            Phase::Aad(_) => self.held.min(variant.nonce_bytes()),
            Phase::Data(_) => self.as_held(variant).data(),
            _ => 0,
        }
    }

    // ---- header and data

    // The point after a header: as it was, where there is none.
    pub(crate) fn absorb(self, variant: SparkleVariant, d: Direction, header: &[u8]) -> Point
        ensures { result ≡ absorb_header (params_of variant) d self header.now }
    {
        if header.is_empty() {
            return self;
        }
        let held = self.buffered_count(variant);
        let total = held + header.len();
        let count = checks::block_count(variant, 0, total);
        let gone = count * variant.nonce_bytes();
        let rest = total - gone;
        Point {
            phase: Phase::Aad(d),
            words: blocks::absorb_blocks(variant, self.words, &self.buffer[..held], header, count),
            buffer: bytes::gather(&self.buffer[..held], header, gone, rest),
            held: rest,
        }
    }

    // The steps that a header's blocks run.
    pub(crate) fn header_steps(self, variant: SparkleVariant, header: &[u8]) -> u64
        ensures { result ≡ header_steps (params_of variant) self header.now }
    {
        let held = self.buffered_count(variant);
        let count = checks::block_count(variant, 0, held + header.len());
        (count as u64) * u64::from(variant.slim_steps())
    }

    // The point where the data begins: the header's last block is taken up. A point where it has begun stays.
    #[tactic(auto, unfolding(crate::specs::Message::without_header, crate::specs::Message::after_header))]
    pub(crate) fn begin_data(self, variant: SparkleVariant) -> Point
        ensures { result ≡ begin_point (params_of variant) self.phase self }
    {
        match self.phase {
            Phase::Init(d) => Point::empty(Phase::Data(d), self.words),
            Phase::Aad(d) => {
                let n = self.held.min(variant.nonce_bytes());
                let words = blocks::mix_last(variant, self.words, &self.buffer[..n], 0);
                Point::empty(Phase::Data(d), words)
            }
            _ => self,
        }
    }

    // The steps that this runs.
    pub(crate) fn begin_steps(self, variant: SparkleVariant) -> u64
        ensures { result ≡ begin_steps (params_of variant) self.phase }
    {
        match self.phase {
            Phase::Aad(_) => u64::from(variant.big_steps()),
            _ => 0,
        }
    }

    // The point after data, of which `count` blocks go to the output.
    fn stream_in(
        self,
        variant: SparkleVariant,
        input: &[u8],
        output: &mut [u8],
        count: usize,
    ) -> Point
        requires { (count ≡ block_count (params_of variant) (keep (params_of variant) self.phase) self input.now) × (count * (params_of variant).rate ≤ length output.old) }
        ensures value { result ≡ streamed (params_of variant) (keep (params_of variant) self.phase) (message_block (params_of variant) (plain_of (params_of variant) self.phase)) self.phase self input.now }
        ensures output_after { output.new ≡ written (stream_out (params_of variant) self input.now) output.old }
    {
        let held = self.buffered_count(variant);
        let words = blocks::crypt_blocks(
            variant,
            checks::opening(self.phase),
            self.words,
            &self.buffer[..held],
            input,
            output,
            count,
        );
        let gone = count * variant.nonce_bytes();
        let rest = held + input.len() - gone;
        Point {
            phase: self.phase,
            words,
            buffer: bytes::gather(&self.buffer[..held], input, gone, rest),
            held: rest,
        }
    }

    // The point after data in phase Data, its steps, and what is written.
    pub(crate) fn data_in(
        self,
        variant: SparkleVariant,
        input: &[u8],
        output: &mut [u8],
    ) -> Progress
        requires { block_count (params_of variant) (keep (params_of variant) self.phase) self input.now * (params_of variant).rate ≤ length output.old }
        ensures value { result ≡ data_from (params_of variant) self input.now }
        ensures output_after { output.new ≡ written (stream_out (params_of variant) self input.now) output.old }
    {
        let held = self.buffered_count(variant);
        let keep = self.as_held(variant).keep();
        let count = checks::block_count(variant, keep, held + input.len());
        Progress {
            point: self.stream_in(variant, input, output, count),
            steps: (count as u64) * u64::from(variant.slim_steps()),
        }
    }

    // ---- the end

    // The end of a sealing: the last bytes and the tag.
    pub(crate) fn seal_end(self, variant: SparkleVariant, key: [u8; 32], output: &mut [u8]) -> End
        requires { (buffered_count (params_of variant) self.phase self.held ≤ (params_of variant).rate) × (buffered_count (params_of variant) self.phase self.held + (params_of variant).key ≤ length output.old) }
        ensures value { result ≡ seal_end (params_of variant) (take (params_of variant).key key) self }
        ensures output_after { output.new ≡ written (seal_out (params_of variant) (take (params_of variant).key key) self) output.old }
    {
        let held = self.buffered_count(variant);
        let size = variant.tag_bytes();
        let last = blocks::crypt(variant, self.words, &self.buffer[..held]);
        let words = last_words(variant, self.words, &self.buffer[..held]);
        let tag = blocks::make_tag(variant, words, key);
        output[..held].copy_from_slice(&last[..held]);
        output[held..held + size].copy_from_slice(&tag[..size]);
        End {
            mac: Mac {
                readable: true,
                bytes: tag,
            },
            steps: last_steps(variant, held),
        }
    }

    // The end of an opening: the last bytes where the received tag is right, else zeros in their place.
    pub(crate) fn open_end(self, variant: SparkleVariant, key: [u8; 32], output: &mut [u8]) -> End
        requires { ((params_of variant).key ≤ buffered_count (params_of variant) self.phase self.held) × (buffered_count (params_of variant) self.phase self.held ≤ (params_of variant).rate + (params_of variant).key) × (buffered_count (params_of variant) self.phase self.held ≤ length output.old + (params_of variant).key) }
        ensures value { result ≡ open_end (params_of variant) (take (params_of variant).key key) self }
        ensures output_after { output.new ≡ written (open_out (params_of variant) (take (params_of variant).key key) self) output.old }
    {
        let size = variant.tag_bytes();
        let body = self.buffered_count(variant) - size;
        let plain = blocks::crypt(variant, self.words, &self.buffer[..body]);
        let words = last_words(variant, self.words, &plain[..body]);
        let tag = blocks::make_tag(variant, words, key);
        let steps = last_steps(variant, body);
        if bytes::same_bytes(&self.buffer[body..body + size], &tag[..size]) {
            output[..body].copy_from_slice(&plain[..body]);
            End {
                mac: Mac {
                    readable: true,
                    bytes: tag,
                },
                steps,
            }
        } else {
            output[..body].fill(0);
            End {
                mac: Mac::none(),
                steps,
            }
        }
    }
}

// The words after the last block: as they were, where there is none. The variant stands beside the words, as beside
// a point.
#[tactic(auto, using(crate::proofs::EndLaws::put_last_none, crate::proofs::EndLaws::put_last_some))]
fn last_words(variant: SparkleVariant, words: [u32; 16], last: &[u8]) -> [u32; 16]
    requires { length last.now ≤ (params_of variant).rate }
    ensures { result ≡ put_state (params_of variant) words (last_state (params_of variant) (state_in (params_of variant) words) last.now last.now) }
{
    if last.is_empty() {
        words
    } else {
        blocks::mix_last(variant, words, last, 2)
    }
}

// The steps of a last block of n bytes.
fn last_steps(variant: SparkleVariant, n: usize) -> u64
    ensures { result ≡ (if nat_lt 0 n then (params_of variant).big else 0) }
{
    if 0 < n {
        u64::from(variant.big_steps())
    } else {
        0
    }
}

// Where a reset in a phase leads: words and buffer are wiped where a sealing has begun its data.
#[tactic(auto, unfolding(crate::specs::Message::zeros, crate::specs::Message::no_message, crate::specs::Message::final_point))]
pub(crate) fn reset_point(phase: Phase, initial: Point) -> Point
    ensures { result ≡ reset_point phase initial }
{
    match phase {
        Phase::Uninitialized => Point::empty(phase, [0; 16]),
        Phase::Data(Direction::Encrypt) | Phase::Final(Direction::Encrypt) => {
            Point::empty(Phase::Final(Direction::Encrypt), [0; 16])
        }
        _ => initial,
    }
}
