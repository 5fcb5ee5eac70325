// The refusals of a message's calls (the Rust's aead_error.rs, without the names that this engine
// never gives). Such a call answers a `Result<usize, AeadError>`; of a header call, which counts nothing,
// the count is 0. Document 01's numbers are `reply.rt`'s.

#[derive(Clone, Copy, Debug, PartialEq, Eq)]
pub enum AeadError {
    NotInitialized,
    AadAfterData,
    AlreadyFinalized,
    OutputTooShort { required: usize, available: usize },
    CiphertextTooShort { minimum: usize, actual: usize },
    AuthenticationFailed,
    InputTooLong,
}
