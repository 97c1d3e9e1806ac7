// What reading and writing plans promise together. No code.
#![tactic(auto)]
