// The lot file: its definitions and what is proved of them. No code.
#![tactic(auto)]
