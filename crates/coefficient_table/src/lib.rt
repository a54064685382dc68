// The table of 27 rows that turns the twenty volumes into the 27 coefficients.
//
// An inner crate. `reference` has the table in full, as document 01 gives it; `sparse` the list of each row's non-zero places with their
// numbers, from which `coefficient_rows` works the rows; `audit_coefficients` works them from `reference`. Both are held to the definition.
#![tactic(auto)]

pub mod reference;
pub mod sparse;
