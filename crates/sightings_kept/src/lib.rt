#![tactic(auto)]
// What seen, settle, remove and doubt keep: form, and everyone else. Theorems on the definitions of `sightings`, in specs/ and proofs/. No code.
