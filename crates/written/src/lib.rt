// What is proved of the texts that are written. The statements stand in specs/Promises.antt, the proofs in proofs/.
#![tactic(auto)]
