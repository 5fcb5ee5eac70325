// The Schwaemm engine of the buried probe (docs/01-scope.md): layer 2, over the permutation.
#![tactic(auto)]

pub mod aead_cipher;
mod blocks;
mod bytes;
mod duplex;
pub mod engine;
pub mod message;
pub mod verify;
pub mod whole;
