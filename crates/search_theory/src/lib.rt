// Theorems only: the search and the bounds as the code follows them, cell by cell, whatever the size of its numbers.
#![tactic(auto)]
