// Document 01's cases, collected: only definitions, in specs/.
#![tactic(auto)]
