// The printed slip of a lot: its definitions and what is proved of them. No code.
#![tactic(auto)]
