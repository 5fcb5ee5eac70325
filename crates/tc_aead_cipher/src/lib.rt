// What stands below the engine (docs/01-scope.md, layer 2): the variants, the phases, the kinds of calls, the
// refusals and the replies, and document 01's tables of checks over phase and numbers. Nothing here
// knows the engine.
#![tactic(auto)]

pub mod aead_error;
pub mod aead_init_error;
pub mod call;
pub mod checks;
pub mod phase;
pub mod refusal;
pub mod reply;
pub mod variant;
