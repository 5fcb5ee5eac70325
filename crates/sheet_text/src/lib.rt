// The text of document 01's sheet ("Worked by hand"), for the programs `sheet` and `calls`: the title,
// the line of a call from its kind and its answer, and a refusal alone. The code knows no
// engine.
#![tactic(auto)]

pub mod text;
