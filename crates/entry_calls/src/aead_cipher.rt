// The calls over a lent engine (the Rust's aead_cipher.rs): each copies the engine out, makes the call
// by value of tc_sparkle_aead and stores the engine that comes back. Each contract cites the definitions
// of the call by value, at the engine and the lent bytes on entry and on exit. None has a condition. They
// are functions and no methods: document 01 names this form, and the engine is another crate's type.
ghost use Rattle.std.specs.Prelude.{◌≡◌};
ghost use Rattle.tc_aead_cipher.specs.Variant.{params_of};
ghost use Rattle.tc_sparkle_aead.specs.Engine.{update_output_len, output_len};
ghost use Rattle.tc_sparkle_aead.specs.Calls.{init, process_aad_bytes, process_bytes, process_bytes_out, do_final, do_final_out, reset, mac_of, steps_now};

use tc_aead_cipher::aead_error::AeadError;
use tc_aead_cipher::aead_init_error::AeadInitError;
use tc_aead_cipher::phase::Direction;
use tc_aead_cipher::variant::SparkleVariant;
use tc_sparkle_aead::engine::SparkleEngine;
use tc_sparkle_aead::message::Mac;
use tc_sparkle_aead::{aead_cipher, engine};

// Ends the old message and starts a new one. Key, nonce, size and header side by side: document 01 has the
// four so first, and then the struct, `AeadParamsRef`.
pub fn init(
    e: &mut SparkleEngine,
    direction: Direction,
    key: &[u8],
    nonce: &[u8],
    mac_size: usize,
    initial_aad: &[u8],
) -> Result<(), AeadInitError>
    ensures value { result ≡ (init e.old direction key.now nonce.now mac_size initial_aad.now).answer }
    ensures engine_after { e.new ≡ (init e.old direction key.now nonce.now mac_size initial_aad.now).engine }
{
    let done = aead_cipher::init(*e, direction, key, nonce, mac_size, initial_aad);
    *e = done.engine;
    done.answer
}

// Adds associated data to the message.
pub fn process_aad_bytes(e: &mut SparkleEngine, input: &[u8]) -> Result<usize, AeadError>
    ensures value { result ≡ (process_aad_bytes e.old input.now).answer }
    ensures engine_after { e.new ≡ (process_aad_bytes e.old input.now).engine }
{
    let done = aead_cipher::process_aad_bytes(*e, input);
    *e = done.engine;
    done.answer
}

// Seals or opens the input that is ready and holds back the rest.
pub fn process_bytes(
    e: &mut SparkleEngine,
    input: &[u8],
    output: &mut [u8],
) -> Result<usize, AeadError>
    ensures value { result ≡ (process_bytes e.old input.now output.old).answer }
    ensures engine_after { e.new ≡ (process_bytes e.old input.now output.old).engine }
    ensures output_after { output.new ≡ process_bytes_out e.old input.now output.old }
{
    let done = aead_cipher::process_bytes(*e, input, output);
    *e = done.engine;
    done.answer
}

// Ends the message: appends the tag, or verifies it.
pub fn do_final(e: &mut SparkleEngine, output: &mut [u8]) -> Result<usize, AeadError>
    ensures value { result ≡ (do_final e.old output.old).answer }
    ensures engine_after { e.new ≡ (do_final e.old output.old).engine }
    ensures output_after { output.new ≡ do_final_out e.old output.old }
{
    let done = aead_cipher::do_final(*e, output);
    *e = done.engine;
    done.answer
}

// Drops the readable tag and restarts the message, unless a sealing has begun its data.
pub fn reset(e: &mut SparkleEngine)
    ensures { e.new ≡ reset e.old }
{
    *e = aead_cipher::reset(*e);
}

// The tag after a successful end, until the next init or reset.
pub fn mac(e: &SparkleEngine) -> Mac
    ensures { result ≡ mac_of e.now }
{
    aead_cipher::mac(*e)
}

// How many bytes the next data call of n bytes writes.
pub fn update_output_len(e: &SparkleEngine, n: usize) -> Result<usize, AeadError>
    ensures { result ≡ update_output_len e.now n }
{
    aead_cipher::update_output_len(*e, n)
}

// How many bytes data calls of n bytes and the end write together.
pub fn output_len(e: &SparkleEngine, n: usize) -> Result<usize, AeadError>
    ensures { result ≡ output_len e.now n }
{
    aead_cipher::output_len(*e, n)
}

// The permutation steps of the current message, modulo 2^64.
pub fn steps(e: &SparkleEngine) -> u64
    ensures { result ≡ steps_now e.now }
{
    aead_cipher::steps(*e)
}

pub fn variant(e: &SparkleEngine) -> SparkleVariant
    ensures { result ≡ e.now.variant }
{
    engine::variant(*e)
}

pub fn key_bytes(e: &SparkleEngine) -> usize
    ensures key { result ≡ (params_of e.now.variant).key }
{
    engine::key_bytes(*e)
}

pub fn nonce_bytes(e: &SparkleEngine) -> usize
    ensures nonce { result ≡ (params_of e.now.variant).rate }
{
    engine::nonce_bytes(*e)
}

pub fn tag_bytes(e: &SparkleEngine) -> usize
    ensures tag { result ≡ (params_of e.now.variant).key }
{
    engine::tag_bytes(*e)
}
