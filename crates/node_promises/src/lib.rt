#![tactic(auto)]
// What the box's entry points promise: theorems on the definitions of `node`, in specs/ and proofs/. No code.
