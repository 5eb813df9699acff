#![tactic(auto)]
// The same program, run in pieces of 7.
fn main(rt: HostRuntime) {
    console::start(rt);
}
