// Theorems about whole numbers and lists; see specs/.
#![tactic(auto)]
