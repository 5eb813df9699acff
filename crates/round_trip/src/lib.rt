#![tactic(auto)]
// What is written is read back as it was: theorems on the definitions of `message` and `pieces`, stated in specs/Claims. No code.
