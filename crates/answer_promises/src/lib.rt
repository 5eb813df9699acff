#![tactic(auto)]
// What the answers to requests promise: theorems on the definitions of `answer`, in specs/ and proofs/. No code.
