// The Bézier expansion of the Jacobian determinant; theorems only, see specs/.
#![tactic(auto)]
