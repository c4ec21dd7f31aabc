// The worked cases of document 01, proved of the definitions: specs/ has the table, proofs/ the claim.

#![tactic(auto)]
