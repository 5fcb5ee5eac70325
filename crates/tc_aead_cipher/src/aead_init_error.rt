// The refusals of a start (the Rust's aead_init_error.rs, without the names that this engine never
// gives). A start answers a `Result<(), AeadInitError>`. Document 01's numbers are `reply.rt`'s.

#[derive(Clone, Copy, Debug, PartialEq, Eq)]
pub enum AeadInitError {
    InvalidKeyLength { actual: usize },
    InvalidNonceLength { actual: usize },
    InvalidMacSize { actual: usize },
    NonceReuse,
}
