// Histories that come near the limits of demand 3, computed: see proofs/. No code.

#![tactic(auto)]
