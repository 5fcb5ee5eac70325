// Bracketed forms in bytes, as document 02 writes them (2026-01): where a form ends, and what decimal
// numbers and hexadecimal strings say. Nothing here knows an engine.
#![tactic(auto)]

pub mod bytes;
pub mod decimal;
pub mod form;
pub mod hex;
