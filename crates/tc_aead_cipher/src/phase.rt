// The phases of a message (document 01, "At the entry: phase and call"; the Rust's `State`, whose
// nine cases are a phase with a direction inside).

#[derive(Clone, Copy, Debug, PartialEq, Eq)]
pub enum Direction {
    Encrypt,
    Decrypt,
}

#[derive(Clone, Copy, Debug, PartialEq, Eq)]
pub enum Phase {
    Uninitialized,
    Init(Direction),
    Aad(Direction),
    Data(Direction),
    Final(Direction),
}
