// The calls (the Rust's trait files and their implementation in engine.rs): the engine goes in by
// value and comes back by value. Each contract is an equation with a definition for the reply, the
// engine and the lent output, for every engine value.
ghost use Rattle.std.specs.Prelude.{◌≡◌, length};
ghost use Rattle.tc_sparkle_aead.specs.Engine.{update_output_len, output_len};
ghost use Rattle.tc_sparkle_aead.specs.Calls.{init, process_aad_bytes, data_answer, process_bytes, process_bytes_out, do_final, do_final_out, reset, mac_of, steps_now};

use super::engine::{Done, SparkleEngine, Steps};
use super::message;
use super::message::{Mac, Start};
use tc_aead_cipher::aead_error::AeadError;
use tc_aead_cipher::aead_init_error::AeadInitError;
use tc_aead_cipher::checks;
use tc_aead_cipher::phase::Direction;

// Ends the old message and starts a new one. Key, nonce, size and header side by side: document 01 has the
// four so first, and then the struct, `AeadParamsRef`.
#[tactic(auto, using(crate::proofs::InitLaws::init_taken, crate::proofs::InitLaws::init_refused, crate::proofs::InitLaws::started_by_variant, tc_aead_cipher::proofs::CheckLaws::start_check_lengths))]
pub fn init(
    e: SparkleEngine,
    direction: Direction,
    key: &[u8],
    nonce: &[u8],
    mac_size: usize,
    initial_aad: &[u8],
) -> Done<Result<(), AeadInitError>>
    ensures { result ≡ init e direction key.now nonce.now mac_size initial_aad.now }
{
    let variant = e.variant;
    let again = e.pair.repeats(variant, key, nonce);
    let answer = checks::start_check(variant, direction, key.len(), nonce.len(), mac_size, again);
    let Ok(()) = answer else {
        return Done {
            answer,
            engine: e.refused(),
        };
    };
    let start = Start {
        variant,
        key,
        nonce,
        header: initial_aad,
    };
    Done {
        answer,
        engine: SparkleEngine::start(start, direction),
    }
}

// Adds associated data to the message.
#[tactic(auto, using(crate::proofs::HeaderLaws::aad_empty, crate::proofs::HeaderLaws::aad_refused, crate::proofs::HeaderLaws::aad_taken))]
pub fn process_aad_bytes(e: SparkleEngine, input: &[u8]) -> Done<Result<usize, AeadError>>
    ensures { result ≡ process_aad_bytes e input.now }
{
    if input.is_empty() {
        return Done {
            answer: Ok(0),
            engine: e,
        };
    }
    let at = e.current;
    let answer = checks::header_check(at.phase);
    let Ok(_) = answer else {
        return Done { answer, engine: e };
    };
    let next = at.absorb(e.variant, checks::direction(at.phase), input);
    Done {
        answer,
        engine: e.at_point(next, at.header_steps(e.variant, input)),
    }
}

// An accepted data call. In a function of its own: the compiler would make one exit of this and of the
// refusal (docs/PERFORMANCE.md).
fn crypt_bytes(
    e: SparkleEngine,
    n: usize,
    input: &[u8],
    output: &mut [u8],
) -> Done<Result<usize, AeadError>>
    requires { data_answer e (length input.now) (length output.old) ≡ Ok n }
    ensures value { result ≡ process_bytes e input.now output.old }
    ensures output_after { output.new ≡ process_bytes_out e input.now output.old }
{
    let at = e.current;
    let done = at.begin_data(e.variant).data_in(e.variant, input, output);
    let steps = e.steps.add(at.begin_steps(e.variant)).add(done.steps);
    Done {
        answer: Ok(n),
        engine: SparkleEngine {
            current: done.point,
            steps,
            ..e
        },
    }
}

// Seals or opens the input that is ready and holds back the rest. A refused call leaves engine and
// output as they were.
#[tactic(auto, using(crate::proofs::DataLaws::data_refused, crate::proofs::DataLaws::data_refused_out))]
pub fn process_bytes(
    e: SparkleEngine,
    input: &[u8],
    output: &mut [u8],
) -> Done<Result<usize, AeadError>>
    ensures value { result ≡ process_bytes e input.now output.old }
    ensures output_after { output.new ≡ process_bytes_out e input.now output.old }
{
    let held = e.current.as_held(e.variant);
    match held.data_check(input.len(), output.len()) {
        Ok(n) => crypt_bytes(e, n, input, output),
        Err(x) => Done {
            answer: Err(x),
            engine: e,
        },
    }
}

// Ends the message: appends the tag, or verifies it.
pub fn do_final(e: SparkleEngine, output: &mut [u8]) -> Done<Result<usize, AeadError>>
    ensures value { result ≡ do_final e output.old }
    ensures output_after { output.new ≡ do_final_out e output.old }
{
    let at = e.current;
    let answer = at.as_held(e.variant).end_check(output.len());
    let Ok(n) = answer else {
        return Done { answer, engine: e };
    };
    let data_point = at.begin_data(e.variant);
    let key = e.pair.key;
    let first = at.begin_steps(e.variant);
    if checks::opening(at.phase) {
        let end = data_point.open_end(e.variant, key, output);
        // Where no tag can be read, the received one was wrong. The two answers have a return each: so the code that
        // is built asks once whether the tag is right, for the output and for the answer (tools/constant-time).
        if end.mac.readable {
            return e.finish(Ok(n), Direction::Decrypt, first, end);
        }
        let wrong = Err(AeadError::AuthenticationFailed);
        return e.finish(wrong, Direction::Decrypt, first, end);
    }
    let end = data_point.seal_end(e.variant, key, output);
    e.finish(Ok(n), Direction::Encrypt, first, end)
}

// How many bytes the next data call of n bytes writes.
#[tactic(auto, unfolding(crate::specs::Engine::update_output_len))]
pub fn update_output_len(e: SparkleEngine, n: usize) -> Result<usize, AeadError>
    ensures { result ≡ update_output_len e n }
{
    e.current.as_held(e.variant).update_len(n)
}

// How many bytes data calls of n bytes and the end write together.
#[tactic(auto, unfolding(crate::specs::Engine::output_len))]
pub fn output_len(e: SparkleEngine, n: usize) -> Result<usize, AeadError>
    ensures { result ≡ output_len e n }
{
    e.current.as_held(e.variant).total_len(n)
}

// Drops the readable tag and restarts the message, unless a sealing has begun its data.
#[tactic(auto, unfolding(crate::specs::Engine::init_steps, crate::specs::Engine::reset_steps, crate::specs::Calls::reset))]
pub fn reset(e: SparkleEngine) -> SparkleEngine
    ensures { result ≡ reset e }
{
    SparkleEngine {
        current: message::reset_point(e.current.phase, e.initial),
        mac: Mac::none(),
        steps: Steps::after_init(e.steps.initial),
        ..e
    }
}

// The tag after a successful end, until the next init or reset.
#[tactic(auto, unfolding(crate::specs::Calls::mac_of))]
pub fn mac(e: SparkleEngine) -> Mac
    ensures { result ≡ mac_of e }
{
    if e.mac.readable { e.mac } else { Mac::none() }
}

// The permutation steps of the current message, modulo 2^64.
#[tactic(auto, unfolding(crate::specs::Calls::steps_now))]
pub fn steps(e: SparkleEngine) -> u64
    ensures { result ≡ steps_now e }
{
    e.steps.current
}
