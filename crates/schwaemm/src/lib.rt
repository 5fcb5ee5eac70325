// No code: the specification of Schwaemm (specs/) and its laws (proofs/).
#![tactic(auto)]
