// No code: the claims stand in specs/ and proofs/, over the definitions that the contracts of the other crates cite.

#![tactic(auto)]
