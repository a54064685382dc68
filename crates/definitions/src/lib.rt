// The definitions that every promise cites: specs/, in the order of the scope document. No code.
#![tactic(auto)]
