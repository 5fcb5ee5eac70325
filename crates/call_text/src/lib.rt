// Call lists as text (document 02, 2026-01): which call a line stands for, which line of a file is
// wrong, and the sheet's lines one after another. The program `calls` reads and writes.
#![tactic(auto)]

pub mod line;
pub mod list;
pub mod run;
