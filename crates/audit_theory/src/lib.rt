// Theorems only: the walk over an element's cells that the auditor makes, one cut at a time; as a search it is the one of `verdict_theory`, as a survey its recursion of the bounds.
#![tactic(auto)]
