// What is claimed of the whole port: statements over the definitions and the contracts, in specs/, and their proofs, in proofs/. There is no code here.
#![tactic(auto)]
