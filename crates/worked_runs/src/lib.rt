// The ten proved rows of document 01, and no code: see specs/ and proofs/.
#![tactic(auto)]
