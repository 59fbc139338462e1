// Which way a number is bad. There is no code here: specs/ has the theorems' statements.
#![tactic(auto)]
