// How long a slip can be: no slip is longer than the space that is lent for it. Theorems only, see specs/.
#![tactic(auto)]
