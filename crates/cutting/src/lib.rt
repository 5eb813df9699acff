#![tactic(auto)]
// That cutting a connection's bytes changes nothing: theorems on the definitions of `stream`, in specs/ and proofs/. No code.
