#![tactic(auto)]
// The three demands hold of what C and Rust programs link: theorems about any list of calls of crate `host`, on bytes. No code.
