// No code: the laws of the definitions in `rules`, which the proofs of the other crates cite. They are in proofs/.
#![tactic(auto)]
