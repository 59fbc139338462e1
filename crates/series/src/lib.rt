// What a series of builds can hide, and policies by what they allow.
// There is no code here: specs/ has the theorems' statements, proofs/ the rest.
#![tactic(auto)]
