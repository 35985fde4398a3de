// Lines in any order against the rows of a table: theory only, in specs/ and proofs/.
#![tactic(auto)]
