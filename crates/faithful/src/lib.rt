// What is proved of the definitions of `rules`. The statements stand in specs/Promises.antt, the proofs in proofs/.
#![tactic(auto)]
