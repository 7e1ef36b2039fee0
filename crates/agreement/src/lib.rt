// The theorems on the looms of a group: what they agree on, and when they answer. Definitions are in
// specs/, theorems and laws in proofs/.
#![tactic(auto)]
