// Why a call is refused, of whatever kind it is: the refusal of a start, of a call on a message, or of a call
// list as text. Document 01's numbers are `reply.rt`'s.
ghost use Rattle.std.specs.Prelude.{◌≡◌};
ghost use Rattle.tc_aead_cipher.specs.declared.refusal.Refusal.TheVariants.{Start, Call};
ghost use Rattle.tc_aead_cipher.specs.Outcome.{outcome, start_outcome, answered};

use super::aead_error::AeadError;
use super::aead_init_error::AeadInitError;

#[derive(Clone, Copy, Debug, PartialEq, Eq)]
pub enum Refusal {
    Start(AeadInitError),
    Call(AeadError),
    // a call list is wrong at a line (document 02, 2026-01)
    Line(usize),
}

impl From<AeadInitError> for Refusal {
    ghost from_gives = { λ x r. r ≡ Start x };

    fn from(x: AeadInitError) -> Refusal {
        Refusal::Start(x)
    }
}

impl From<AeadError> for Refusal {
    ghost from_gives = { λ x r. r ≡ Call x };

    fn from(x: AeadError) -> Refusal {
        Refusal::Call(x)
    }
}

// The answer of a start, which counts nothing. So this is not `call_answer` of a start's refusals, which hands
// a count on.
pub fn start_answer(r: Result<(), AeadInitError>) -> Result<usize, Refusal>
    ensures { answered result ≡ start_outcome r }
{
    r?;
    Ok(0)
}

// The answer of a call on a message, or of a length query.
pub fn call_answer(r: Result<usize, AeadError>) -> Result<usize, Refusal>
    ensures { answered result ≡ outcome r }
{
    Ok(r?)
}
