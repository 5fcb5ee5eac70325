// An answer of the engine as numbers: what a sheet's line has of it, and what crosses to the host.
ghost use Rattle.std.specs.Prelude.{◌≡◌, ◌≤◌, [], ◌∷◌};
ghost use Rattle.tc_aead_cipher.specs.Refusals.{refusal, init_refusal};
ghost use Rattle.tc_aead_cipher.specs.Outcome.{answered};
ghost use Rattle.tc_aead_cipher.specs.Outcome.Outcome.{no};
ghost use Rattle.tc_aead_cipher.specs.Reply.{reply_of};

use super::aead_error::AeadError;
use super::aead_init_error::AeadInitError;
use super::refusal::Refusal;
use super::variant::UnknownVariant;

// Number 0 and a count, or document 01's number of a refusal and its values. `values` says how many
// values there are, 1 for a count, since a value may be 0 itself; one that there is not is 0. These are the numbers
// that C takes (docs/HOST.md).
#[derive(Clone, Copy, Debug, PartialEq, Eq)]
pub struct Reply {
    pub number: u8,
    pub values: u8,
    pub first: usize,
    pub second: usize,
}

// A number and its values, of which there are at most two.
fn with_values<const N: usize>(number: u8, values: [usize; N]) -> Reply
    requires { N ≤ 2 }
    ensures { result ≡ reply_of (no (number ∷ values.entry)) }
{
    Reply {
        number,
        values: N as u8,
        first: values.get(0).copied().unwrap_or(0),
        second: values.get(1).copied().unwrap_or(0),
    }
}

// The refusal of a call on a message, or of a length query. This and `init_refusal` are the tables of two
// enums, each with document 01's own numbers: one function for both would be the same two matches.
pub fn refusal(x: AeadError) -> Reply
    ensures { result ≡ reply_of (no (refusal x)) }
{
    match x {
        AeadError::OutputTooShort {
            required,
            available,
        } => with_values(4, [required, available]),
        AeadError::CiphertextTooShort { minimum, actual } => with_values(5, [minimum, actual]),
        AeadError::AuthenticationFailed => with_values(6, []),
        AeadError::InputTooLong => with_values(7, []),
        AeadError::NotInitialized => with_values(8, []),
        AeadError::AadAfterData => with_values(9, []),
        AeadError::AlreadyFinalized => with_values(10, []),
    }
}

// The refusal of a start.
pub fn init_refusal(x: AeadInitError) -> Reply
    ensures { result ≡ reply_of (no (init_refusal x)) }
{
    match x {
        AeadInitError::InvalidKeyLength { actual } => with_values(1, [actual]),
        AeadInitError::InvalidNonceLength { actual } => with_values(2, [actual]),
        AeadInitError::InvalidMacSize { actual } => with_values(3, [actual]),
        AeadInitError::NonceReuse => with_values(11, []),
    }
}

impl From<Result<usize, Refusal>> for Reply {
    ghost from_gives = { λ a r. r ≡ reply_of (answered a) };

    fn from(answer: Result<usize, Refusal>) -> Reply {
        match answer {
            Ok(n) => with_values(0, [n]),
            Err(Refusal::Start(x)) => init_refusal(x),
            Err(Refusal::Call(x)) => refusal(x),
            Err(Refusal::Line(line)) => with_values(12, [line]),
        }
    }
}

// The refusal of a number that no variant has. The boundary gives it, and no engine (docs/HOST.md).
impl From<UnknownVariant> for Reply {
    ghost from_gives = { λ _ r. r ≡ reply_of (no (23 ∷ [])) };

    fn from(_: UnknownVariant) -> Reply {
        with_values(23, [])
    }
}
