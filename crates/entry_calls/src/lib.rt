// The calls of the Rust's traits AeadCipher and AeadCipherInit over a lent engine (docs/01-scope.md,
// "Bending the Rust"): thin functions above the calls by value of tc_sparkle_aead.
#![tactic(auto)]

pub mod aead_cipher;
pub mod aead_params_ref;
