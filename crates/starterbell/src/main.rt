#![tactic(auto)]
// The workshop's program; see crate console.
fn main(rt: HostRuntime) {
    console::start(rt);
}
