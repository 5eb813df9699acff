#![tactic(auto)]
// The host's other calls, for a box: contacts, lookups, records and messages. All but `nearest` stand in the crates that they are passed on from.
// Every function takes any numbers and any buffers, and refuses by number.
ghost use Rattle.std.specs.Prelude.{◌≡◌};
ghost use Rattle.host_calls.specs.Hosts.{none_near, nearest_to};

use contacts::Closest;
pub use host_contacts::{doubt, remove, seen, settle};
pub use host_lookups::{lookup_failure, lookup_next, lookup_reply, lookup_start};
pub use message::read;
use peer::Peer;
pub use records::{find, put};
use refusal::Refusal;
pub use writer::write;

// Of the contacts that aren't doubtful, those nearest to a key; none where the call was refused.
#[derive(Drop)]
pub struct Nearby {
    pub closest: Closest,
    pub told: Result<(), Refusal>,
}

// No contacts, and a refusal.
fn none_near(r: Refusal) -> Nearby
    ensures { result ≡ none_near r }
{
    let at = [0usize; limits::MOST_NEAR];
    let closest = Closest { at, n: 0 };
    let told = Err(r);
    Nearby { closest, told }
}

// Of the contacts that aren't doubtful, those nearest to a key.
pub fn nearest(me: Peer, contacts: &[u8], key: &[u8]) -> Nearby
    ensures { result ≡ nearest_to me contacts.now key.now }
{
    let ours = me.place;
    if !contacts::in_form(contacts, &ours) {
        return none_near(Refusal::OutOfForm);
    }
    if key.len() == 0 {
        return none_near(Refusal::BreaksRules);
    }
    if limits::MOST_KEY < key.len() {
        return none_near(Refusal::BreaksRules);
    }
    if !connections::own_fits(me) {
        return none_near(Refusal::BadPeer);
    }
    let target = place::place_of(key);
    let closest = contacts::nearest(contacts, &target);
    let told = Ok(());
    Nearby { closest, told }
}
