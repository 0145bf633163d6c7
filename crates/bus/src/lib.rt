// No code: what a host gets over a two-wire bus, in specs/, and the proofs about it.
#![tactic(auto)]
