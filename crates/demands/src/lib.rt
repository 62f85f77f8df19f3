// The three demands over areas of bytes; no code.
// Their own definitions stand in specs/, what is shown and its proofs in proofs/.
#![tactic(auto)]
