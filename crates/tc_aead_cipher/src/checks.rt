// The checks, as decisions of their own, and the length queries over phase and numbers: document
// 01's tables ("At the entry: phase and call"), and document 02's checks of a packet that is opened
// whole. Sums are compared by subtraction.
ghost use Rattle.std.specs.Prelude.{◌≡◌};
ghost use Rattle.tc_aead_cipher.specs.Variant.{params_of};
ghost use Rattle.tc_aead_cipher.specs.Checks.{opens, direction_of, opening, held_data, keep, update_len, total_len, phase_check, room, header_check, data_check, end_check, start_check};
ghost use Rattle.tc_aead_cipher.specs.PacketCheck.{packet_check};
ghost use Rattle.tc_aead_cipher.specs.Outcome.{answered};
ghost use Rattle.schwaemm.specs.Blocks.{ready};

use super::aead_error::AeadError;
use super::aead_init_error::AeadInitError;
use super::phase::{Direction, Phase};
use super::refusal::Refusal;
use super::variant::SparkleVariant;

fn opens(d: Direction) -> bool
    ensures { result ≡ opens d }
{
    matches!(d, Direction::Decrypt)
}

// The direction of a phase; `Uninitialized`, which has none, counts as sealing.
pub fn direction(phase: Phase) -> Direction
    ensures { result ≡ direction_of phase }
{
    match phase {
        Phase::Uninitialized => Direction::Encrypt,
        Phase::Init(d) | Phase::Aad(d) | Phase::Data(d) | Phase::Final(d) => d,
    }
}

// Whether a phase opens.
pub fn opening(phase: Phase) -> bool
    ensures { result ≡ opening phase }
{
    opens(direction(phase))
}

// How many blocks of n bytes go while `keep` bytes and one more stay.
#[tactic(auto, unfolding(schwaemm::specs::Blocks::ready))]
pub fn block_count(variant: SparkleVariant, keep: usize, n: usize) -> usize
    ensures { result ≡ ready (params_of variant).rate keep n }
{
    n.saturating_sub(keep).saturating_sub(1) / variant.nonce_bytes()
}

// Whether a phase takes data and an end. This check and the one of a header count 0 where the call is taken,
// which is what a header call answers.
fn phase_check(phase: Phase) -> Result<usize, AeadError>
    ensures { result ≡ phase_check phase }
{
    match phase {
        Phase::Uninitialized => Err(AeadError::NotInitialized),
        Phase::Init(_) | Phase::Aad(_) | Phase::Data(_) => Ok(0),
        Phase::Final(_) => Err(AeadError::AlreadyFinalized),
    }
}

// The required length, where the output holds it.
fn with_room(required: usize, available: usize) -> Result<usize, AeadError>
    ensures { result ≡ room available required }
{
    if available < required {
        return Err(AeadError::OutputTooShort {
            required,
            available,
        });
    }
    Ok(required)
}

// Whether a phase takes a header that is not empty.
pub fn header_check(phase: Phase) -> Result<usize, AeadError>
    ensures { result ≡ header_check phase }
{
    match phase {
        Phase::Data(_) => Err(AeadError::AadAfterData),
        _ => phase_check(phase),
    }
}

// What the checks and the length queries look at of a message: its variant, its phase, and how many bytes
// are held.
#[derive(Clone, Copy, Debug, PartialEq, Eq)]
pub struct Held {
    pub variant: SparkleVariant,
    pub phase: Phase,
    pub bytes: usize,
}

impl Held {
    // The bytes that stay, besides one more: on an opening the tag's.
    pub fn keep(self) -> usize
        ensures { result ≡ keep (params_of self.variant) self.phase }
    {
        if opening(self.phase) {
            self.variant.tag_bytes()
        } else {
            0
        }
    }

    // The held bytes h of document 01: 0 outside Data.
    pub fn data(self) -> usize
        ensures { result ≡ held_data (params_of self.variant) self.phase self.bytes }
    {
        match self.phase {
            Phase::Data(_) => self.bytes.min(self.keep() + self.variant.nonce_bytes()),
            Phase::Uninitialized | Phase::Init(_) | Phase::Aad(_) | Phase::Final(_) => 0,
        }
    }

    // The length that a data call of n bytes writes.
    #[tactic(auto, using(schwaemm::proofs::Cut::ready_bound), unfolding(crate::specs::Checks::update_len))]
    pub fn update_len(self, n: usize) -> Result<usize, AeadError>
        ensures { result ≡ update_len (params_of self.variant) self.phase self.bytes n }
    {
        let h = self.data();
        if usize::MAX - h < n {
            return Err(AeadError::InputTooLong);
        }
        let count = block_count(self.variant, self.keep(), h + n);
        Ok(count * self.variant.nonce_bytes())
    }

    // The length that data calls of n bytes and the end write together.
    #[tactic(auto, unfolding(crate::specs::Checks::total_len))]
    pub fn total_len(self, n: usize) -> Result<usize, AeadError>
        ensures { result ≡ total_len (params_of self.variant) self.phase self.bytes n }
    {
        let h = self.data();
        if usize::MAX - h < n {
            return Err(AeadError::InputTooLong);
        }
        let tag = self.variant.tag_bytes();
        let sum = h + n;
        if opening(self.phase) {
            return Ok(sum.saturating_sub(tag));
        }
        if usize::MAX - tag < sum {
            return Err(AeadError::InputTooLong);
        }
        Ok(sum + tag)
    }

    // Whether a data call of n bytes into an output of `available` is taken, and what it writes.
    #[tactic(auto, unfolding(crate::specs::Checks::data_check))]
    pub fn data_check(self, n: usize, available: usize) -> Result<usize, AeadError>
        ensures { result ≡ data_check (params_of self.variant) self.phase self.bytes n available }
    {
        phase_check(self.phase)?;
        with_room(self.update_len(n)?, available)
    }

    // Whether an end into an output of `available` is taken, and what it writes. An opening must have as
    // much ciphertext as a tag.
    #[tactic(auto, unfolding(crate::specs::Checks::end_check))]
    pub fn end_check(self, available: usize) -> Result<usize, AeadError>
        ensures { result ≡ end_check (params_of self.variant) self.phase self.bytes available }
    {
        phase_check(self.phase)?;
        let length = with_room(self.total_len(0)?, available)?;
        if opening(self.phase) {
            let minimum = self.variant.tag_bytes();
            let actual = self.data();
            if actual < minimum {
                return Err(AeadError::CiphertextTooShort { minimum, actual });
            }
        }
        Ok(length)
    }
}

// Whether a start is taken. `repeats` says whether its key and nonce are the last loaded pair.
#[tactic(auto, unfolding(crate::specs::Checks::start_check))]
pub fn start_check(
    variant: SparkleVariant,
    direction: Direction,
    key: usize,
    nonce: usize,
    size: usize,
    repeats: bool,
) -> Result<(), AeadInitError>
    ensures { result ≡ start_check variant direction key nonce size repeats }
{
    if key != variant.key_bytes() {
        return Err(AeadInitError::InvalidKeyLength { actual: key });
    }
    if nonce != variant.nonce_bytes() {
        return Err(AeadInitError::InvalidNonceLength { actual: nonce });
    }
    if size != variant.tag_bytes() {
        return Err(AeadInitError::InvalidMacSize { actual: size });
    }
    if repeats && !opens(direction) {
        return Err(AeadInitError::NonceReuse);
    }
    Ok(())
}

// Whether a packet may be opened whole, by its lengths and the output's room, and how many bytes that
// writes (document 02, 2026-03). The tag's size is the variant's, and an opening's pair may repeat, so of a start
// only 1 and 2 are left.
#[tactic(auto, unfolding(crate::specs::Checks::start_check, crate::specs::PacketCheck::packet_check))]
pub fn packet_check(
    variant: SparkleVariant,
    key: usize,
    nonce: usize,
    packet: usize,
    room: usize,
) -> Result<usize, Refusal>
    ensures { answered result ≡ packet_check (params_of variant) key nonce packet room }
{
    let minimum = variant.tag_bytes();
    start_check(variant, Direction::Decrypt, key, nonce, minimum, false)?;
    if packet < minimum {
        return Err(Refusal::Call(AeadError::CiphertextTooShort {
            minimum,
            actual: packet,
        }));
    }
    Ok(with_room(packet - minimum, room)?)
}
