// How splitting a queue over two cutters ends, what it leaves, and that its split is the best: definitions and theorems. The call is `splitter::split`.
#![tactic(auto)]
