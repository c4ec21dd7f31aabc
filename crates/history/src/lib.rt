// Theorems over histories of commands: statements in specs/, proofs in proofs/. No code.

#![tactic(auto)]
