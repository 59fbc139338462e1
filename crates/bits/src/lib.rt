// Facts about number widths, each stated once over the width, the shift or the bit. There is no code here: other crates cite proofs/.
#![tactic(auto)]
