#![tactic(auto)]
// What becomes of a store over any list of puts: theorems on the definitions of `records`, in specs/ and proofs/. No code.
