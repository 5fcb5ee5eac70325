// The kinds of an engine's calls: which call, without its arguments. A start's has its direction.
use super::phase::Direction;

#[derive(Clone, Copy, Debug, PartialEq, Eq)]
pub enum CallKind {
    Init(Direction),
    Aad,
    Data,
    Final,
    Reset,
    Mac,
    Update,
    Output,
}
