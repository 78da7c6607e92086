#![tactic(auto)]

// Fractions of whole numbers: their definition in specs/, and in proofs/ the laws of whole numbers and of fractions on which ℚ and the
// decimals above rest. No code is here.
