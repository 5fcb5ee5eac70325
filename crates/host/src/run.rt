// The run of a call list (docs/HOST.md) on a new engine.
ghost use Rattle.std.specs.Prelude.{◌≡◌, ◌+◌, ◌-◌, ◌≤◌, length, drop, leb};
ghost use Rattle.tc_sparkle_aead.specs.Message.{written};
ghost use Rattle.host.specs.CallList.{run_calls, run_list};
ghost use Rattle.host.specs.Stop.{reason_code, code_of, place_of};

use super::call;
use tc_aead_cipher::variant::SparkleVariant;
use tc_sparkle_aead::engine;
use tc_sparkle_aead::engine::SparkleEngine;

// Why a run stopped before the end of its list: no variant or a malformed call, or no room for an answer.
#[derive(Clone, Copy)]
pub enum Reason {
    Malformed,
    NoRoom,
}

// The return code.
impl From<Reason> for u8 {
    ghost from_gives = { λ r n. n ≡ reason_code r };

    fn from(reason: Reason) -> u8 {
        match reason {
            Reason::Malformed => 21,
            Reason::NoRoom => 22,
        }
    }
}

// Where a run stopped, and why.
#[derive(Clone, Copy)]
pub struct Stop {
    pub reason: Reason,
    pub place: usize,
}

// Whether an answer with n bytes behind its head has room; compared by subtraction, as document 01 has it.
fn fits(room: usize, n: usize) -> bool
    ensures { result ≡ leb (34 + n) room }
{
    call::ANSWER_HEAD <= room && n <= room - call::ANSWER_HEAD
}

// The calls of a list, from behind its first byte on.
fn run_calls(first: SparkleEngine, list: &[u8], answers: &mut [u8]) -> Result<(), Stop>
    requires { 1 ≤ length list.now }
    ensures code { code_of result ≡ (run_calls (length list.now) (drop 1 list.now) first (length answers.old)).code }
    ensures place { place_of (length list.now) result ≡ length list.now - (run_calls (length list.now) (drop 1 list.now) first (length answers.old)).left }
    ensures answers_after { answers.new ≡ written (run_calls (length list.now) (drop 1 list.now) first (length answers.old)).answers answers.old }
{
    let mut engine = first;
    let mut rest = &list[1..];
    // a slice of the answers' rest that moves leaves unproved what the whole slice holds
    let mut used = 0;
    while !rest.is_empty() {
        let place = list.len() - rest.len();
        let Some((call, behind)) = call::read_call(rest) else {
            return Err(Stop {
                reason: Reason::Malformed,
                place,
            });
        };
        let n = call::shown_len(call);
        if !fits(answers.len() - used, n) {
            return Err(Stop {
                reason: Reason::NoRoom,
                place,
            });
        }
        let end = used + call::ANSWER_HEAD + n;
        engine = call::answer(engine, call, &mut answers[used..end]);
        used = end;
        rest = behind;
    }
    Ok(())
}

// Runs a list and writes its answers.
pub fn run_list(list: &[u8], answers: &mut [u8]) -> Result<(), Stop>
    ensures code { code_of result ≡ (run_list list.now (length answers.old)).code }
    ensures place { place_of (length list.now) result ≡ length list.now - (run_list list.now (length answers.old)).left }
    ensures answers_after { answers.new ≡ written (run_list list.now (length answers.old)).answers answers.old }
{
    let malformed = Stop {
        reason: Reason::Malformed,
        place: 0,
    };
    let Some(&v) = list.first() else {
        return Err(malformed);
    };
    let Ok(variant) = SparkleVariant::try_from(v) else {
        return Err(malformed);
    };
    run_calls(engine::new(variant), list, answers)
}
