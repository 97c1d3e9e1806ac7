// Formats: one description of a part of a message, from which every law of its reader and its writer follows. No code.
#![tactic(auto)]
