#![tactic(auto)]
// The starred ones of RULES, Examples, one literal table under one claim: specs/Starred.antt states it, proofs/Table.antt proves it. No code.
