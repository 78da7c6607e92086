#![tactic(auto)]

// Definitions that walk the tokens as the code does, and the theorem that joins them to the trees. No code is here.
