// What is proved of the promises themselves, and the checked examples. There is no code here: specs/ has the theorems.
#![tactic(auto)]
