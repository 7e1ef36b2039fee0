// The demands on a group, proved of its own functions: what its looms agree on, when they answer, and that they are Figure 2's machine.
// Definitions are in specs/, theorems and laws in proofs/.
#![tactic(auto)]
