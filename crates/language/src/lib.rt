#![tactic(auto)]

// The definition of the language: what a reader must believe. It stands in specs/, one file for each paragraph of
// document 01; laws and demand 3 are proved in proofs/. No code is here; crates above are proved against it.
