// What an import asks for is not looked at: its names and its kind decide.
// There is no code here: specs/ has the theorems' statements, proofs/ the rest.
#![tactic(auto)]
