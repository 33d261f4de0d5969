// What is proved of the definitions of `text`. The statements stand in specs/Promises.antt, the proofs in proofs/.
#![tactic(auto)]
