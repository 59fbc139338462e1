// How long a report of `review` can be. There is no code here: specs/ has the theorems' statements, proofs/ the rest.
#![tactic(auto)]
