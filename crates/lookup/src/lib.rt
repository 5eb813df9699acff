#![tactic(auto)]
// The closest-peer lookup: its limits, and what a step answers. specs/Lookup.antt says what each step gives. `lookup_in_place` takes the steps on bytes
// that a host lends, `lookup_value` on a value.
pub use lookup_candidates::Candidate;

// Room for candidates, and the limit of the requests in flight.
pub const ROOM: usize = 256;

pub const LIMIT_MOST: usize = 10;

// What a step answers. A peer to ask is named by its rank; over comes with the number of requests sent.
#[derive(Clone, Copy)]
pub enum Answer {
    Complete(usize),
    CutShort(usize),
    Wait,
    Ask(usize),
    Going,
}
