// The longest order file that is taken: theorems alone.
#![tactic(auto)]
