// Whole numbers modulo a power of two, at any width, and the numbers of two words. Theorems alone: specs/.
#![tactic(auto)]
