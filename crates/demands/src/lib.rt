#![tactic(auto)]
// The three demands as theorems about any list of calls: no code. The statements stand in specs/Demands.antt.
