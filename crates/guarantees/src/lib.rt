// Theorems over the sending and the reading side together: specs/ states them, proofs/ proves them, and there is no code.
#![tactic(auto)]
