// The Sparkle permutation (document 01, "Down to the words"), in two forms: word by word, and in
// four groups of four words.
#![tactic(auto)]

pub mod scalar;
pub mod sse2;
