// What an init borrows (the Rust's aead_params_ref.rs): key, nonce and initial associated data, and the
// tag's size. Nothing is checked here: the init does.
ghost use Rattle.std.specs.Prelude.{◌≡◌};
ghost use Rattle.tc_sparkle_aead.specs.Calls.{init};

use super::aead_cipher;
use tc_aead_cipher::aead_init_error::AeadInitError;
use tc_aead_cipher::phase::Direction;
use tc_sparkle_aead::engine::{Done, SparkleEngine};

#[derive(Clone, Copy)]
pub struct AeadParamsRef<'a> {
    key: &'a [u8],
    nonce: &'a [u8],
    initial_aad: &'a [u8],
    mac_size: usize,
}

impl<'a> AeadParamsRef<'a> {
    pub fn new(key: &'a [u8], nonce: &'a [u8], mac_size: usize, initial_aad: &'a [u8]) -> Self
        ensures key_kept { result.key ≡ key.entry }
        ensures nonce_kept { result.nonce ≡ nonce.entry }
        ensures initial_aad_kept { result.initial_aad ≡ initial_aad.entry }
        ensures mac_size_kept { result.mac_size ≡ mac_size }
    {
        AeadParamsRef {
            key,
            nonce,
            initial_aad,
            mac_size,
        }
    }
}

// An init with what the parameters borrow.
pub fn init_with(
    e: &mut SparkleEngine,
    direction: Direction,
    params: AeadParamsRef<'_>,
) -> Result<(), AeadInitError>
    ensures value { result ≡ (init e.old direction params.entry.key.now params.entry.nonce.now params.entry.mac_size params.entry.initial_aad.now).answer }
    ensures engine_after { e.new ≡ (init e.old direction params.entry.key.now params.entry.nonce.now params.entry.mac_size params.entry.initial_aad.now).engine }
{
    aead_cipher::init(
        e,
        direction,
        params.key,
        params.nonce,
        params.mac_size,
        params.initial_aad,
    )
}

// The same of an engine by value and of plain parameters: whoever calls it needs no reference to an
// engine and no AeadParamsRef.
pub fn init_owned(
    e: SparkleEngine,
    direction: Direction,
    key: &[u8],
    nonce: &[u8],
    mac_size: usize,
    initial_aad: &[u8],
) -> Done<Result<(), AeadInitError>>
    ensures { result ≡ init e direction key.now nonce.now mac_size initial_aad.now }
{
    let mut lent = e;
    let params = AeadParamsRef::new(key, nonce, mac_size, initial_aad);
    let answer = init_with(&mut lent, direction, params);
    Done {
        answer,
        engine: lent,
    }
}
