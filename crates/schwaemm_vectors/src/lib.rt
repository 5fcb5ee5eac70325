// No code: known answers of the specification of Schwaemm (proofs/).
#![tactic(auto)]
