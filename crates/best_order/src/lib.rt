// What planning answers and leaves, and that its plan is the best order: definitions and theorems, no code.
#![tactic(auto)]
