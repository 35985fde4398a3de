// Reading one file, its lines in any order: the definition and its theorem, in specs/ and proofs/. The code stands above.
#![tactic(auto)]
