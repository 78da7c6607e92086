#![tactic(auto)]

// The free MPS form of a problem: its definition in specs/, and in proofs/ the laws of what it prints. No code is here.
