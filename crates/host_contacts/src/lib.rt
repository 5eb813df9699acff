#![tactic(auto)]
// The host's calls on contacts, for a box: as in contact_calls, and refused where no start gives such a box. Every function takes any numbers and any
// buffers, and refuses by number.
ghost use Rattle.std.specs.Prelude.{◌≡◌};
ghost use Rattle.host_contacts.specs.Contacts.{seen_of, seen_after, settle_of, settle_after, remove_of, remove_after, doubt_of, doubt_after};
ghost use Rattle.host_contacts.specs.Inner.{refusal_of_box};

use contact_calls::{Settled, Sighting};
use peer::Peer;
use refusal::Refusal;

// What a call on the contacts gives a box that no start gives: 0, then 12.
fn refusal_of_box(contacts: &[u8], ours: &[u8]) -> Refusal
    ensures { result ≡ refusal_of_box contacts.now ours.now }
{
    if contacts::in_form(contacts, ours) {
        return Refusal::BadPeer;
    }
    Refusal::OutOfForm
}

// A peer was seen.
pub fn seen(
    me: Peer,
    contacts: &mut [u8],
    id: &[u8],
    client: bool,
    addresses: &[u8],
) -> Result<Sighting, Refusal>
    ensures { (result ≡ seen_of me contacts.old id.now client addresses.now) × (contacts.new ≡ seen_after me contacts.old id.now client addresses.now) }
{
    let ours = me.place;
    if !connections::own_fits(me) {
        return Err(refusal_of_box(contacts, &ours));
    }
    contact_calls::seen(contacts, &ours, id, client, addresses)
}

// The probe of a head came back: it answered, or it was silent, and the newcomer takes its place.
pub fn settle(
    me: Peer,
    contacts: &mut [u8],
    head: &[u8],
    id: &[u8],
    client: bool,
    addresses: &[u8],
    answered: bool,
) -> Result<Settled, Refusal>
    ensures { (result ≡ settle_of me contacts.old head.now id.now client addresses.now answered) × (contacts.new ≡ settle_after me contacts.old head.now id.now client addresses.now answered) }
{
    let ours = me.place;
    if !connections::own_fits(me) {
        return Err(refusal_of_box(contacts, &ours));
    }
    contact_calls::settle(contacts, &ours, head, id, client, addresses, answered)
}

// Takes a contact out.
pub fn remove(me: Peer, contacts: &mut [u8], id: &[u8]) -> Result<(), Refusal>
    ensures { (result ≡ remove_of me contacts.old id.now) × (contacts.new ≡ remove_after me contacts.old id.now) }
{
    let ours = me.place;
    if !connections::own_fits(me) {
        return Err(refusal_of_box(contacts, &ours));
    }
    contact_calls::remove(contacts, &ours, id)
}

// Marks a contact as doubtful.
pub fn doubt(me: Peer, contacts: &mut [u8], id: &[u8]) -> Result<(), Refusal>
    ensures { (result ≡ doubt_of me contacts.old id.now) × (contacts.new ≡ doubt_after me contacts.old id.now) }
{
    let ours = me.place;
    if !connections::own_fits(me) {
        return Err(refusal_of_box(contacts, &ours));
    }
    contact_calls::doubt(contacts, &ours, id)
}
