#![tactic(auto)]
// The same program, run in pieces of 1.
fn main(rt: HostRuntime) {
    console::start(rt);
}
