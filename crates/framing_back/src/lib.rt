#![tactic(auto)]
// That a message written with its length prefix is the message that a connection reads: theorems on the definitions of `message` and `stream`, in specs/ and proofs/. No code.
