#![tactic(auto)]
// What any sequence of calls on a lookup amounts to: theorems on the definitions of `lookup`, in specs/ and proofs/. No code.
