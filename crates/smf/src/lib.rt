// What must be believed: definitions over lists of bytes, in specs/, and the laws on them, in proofs/. There is no code here.
#![tactic(auto)]
