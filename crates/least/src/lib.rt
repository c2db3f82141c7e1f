// Covers of positions by what lines can give, in `specs/`, and their theorems, in `proofs/`.
#![tactic(auto)]
