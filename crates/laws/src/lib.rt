// Laws of the definitions of crates/rules: see proofs/. There is no code here.

#![tactic(auto)]
