// No code: what is claimed of the engine (specs/, proofs/Claims.antt), over the definitions that its calls' contracts cite.
#![tactic(auto)]
