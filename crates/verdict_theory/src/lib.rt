// What the verdict, the record and the bounds promise: theorems only, see specs/.
#![tactic(auto)]
