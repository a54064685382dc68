// What is written of a lot, and what is read of it: each is had back from the other. No code.
#![tactic(auto)]
