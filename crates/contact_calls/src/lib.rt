#![tactic(auto)]
// Seen, settle, remove and doubt as a host calls them: the table's form is tested, ids are judged, and what isn't taken is refused by number and
// changes nothing. Every public function takes any bytes.
ghost use Rattle.std.specs.Prelude.{◌≡◌};
ghost use Rattle.peer.specs.Peers.{peer_of, tidied};
ghost use Rattle.sightings.specs.Sightings.{sighting_of, seen_table};
ghost use Rattle.contact_calls.specs.Calls.{seen_call, seen_call_table, settle_call, settle_call_table, remove_call, remove_call_table, doubt_call, doubt_call_table};
ghost use Rattle.contact_calls.specs.Inner.{judged, admitted, client_outcome};

use refusal::Refusal;
pub use sightings::{Settled, Sighting};

// The place of an id that refusal 12 lets in. The length is looked at first, so that no long id is hashed.
fn judge(ours: &[u8], id: &[u8]) -> Result<[u8; 32], Refusal>
    ensures { result ≡ judged ours.now id.now }
{
    if !peer::id_fits(id) {
        return Err(Refusal::BadPeer);
    }
    let place = place::place_of(id);
    if octets::same_bytes(&place, ours) {
        return Err(Refusal::BadPeer);
    }
    Ok(place)
}

// What every call begins with: the table's form is tested, refusal 0, and then an id is judged, 12.
fn admit(table: &[u8], ours: &[u8], id: &[u8]) -> Result<[u8; 32], Refusal>
    ensures { result ≡ admitted table.now ours.now id.now }
{
    if !contacts::in_form(table, ours) {
        return Err(Refusal::OutOfForm);
    }
    judge(ours, id)
}

// A newcomer that is a client is never taken, and 15 comes before 18.
fn client_outcome(fit: bool) -> Result<Settled, Refusal>
    ensures { result ≡ client_outcome fit }
{
    Err(if fit {
        Refusal::Client
    } else {
        Refusal::NoLongerFits
    })
}

// A peer that was let in is seen, by value. Apart and never inlined: in `seen` its 1.2 KB would stand on the stack beside the index of the form test.
#[inline(never)]
fn see(
    table: &mut [u8],
    ours: &[u8],
    id: &[u8],
    place: [u8; 32],
    addresses: &[u8],
) -> Result<Sighting, Refusal>
    ensures { (result ≡ sighting_of table.old ours.now (tidied (peer_of id.now place addresses.now))) × (table.new ≡ seen_table table.old ours.now (tidied (peer_of id.now place addresses.now))) }
{
    sightings::seen(table, ours, peer::peer_of(id, place, addresses))
}

// A peer is seen: its id, whether it is a client, and its addresses (each a length of two bytes, the lowest first, and its bytes).
pub fn seen(
    table: &mut [u8],
    ours: &[u8],
    id: &[u8],
    client: bool,
    addresses: &[u8],
) -> Result<Sighting, Refusal>
    ensures { (result ≡ seen_call table.old ours.now id.now client addresses.now) × (table.new ≡ seen_call_table table.old ours.now id.now client addresses.now) }
{
    let place = admit(table, ours, id)?;
    if client {
        return Err(Refusal::Client);
    }
    see(table, ours, id, place, addresses)
}

// The head of a full bucket has been probed for a newcomer, which is given as for seen.
pub fn settle(
    table: &mut [u8],
    ours: &[u8],
    head: &[u8],
    id: &[u8],
    client: bool,
    addresses: &[u8],
    answered: bool,
) -> Result<Settled, Refusal>
    ensures { (result ≡ settle_call table.old ours.now head.now id.now client addresses.now answered) × (table.new ≡ settle_call_table table.old ours.now head.now id.now client addresses.now answered) }
{
    let from = admit(table, ours, head)?;
    let newcomer = judge(ours, id)?;
    if client {
        return client_outcome(sightings::still_fits(table, ours, &from, &newcomer));
    }
    sightings::settle(
        table,
        ours,
        &from,
        peer::peer_of(id, newcomer, addresses),
        answered,
    )
}

// A contact is removed.
pub fn remove(table: &mut [u8], ours: &[u8], id: &[u8]) -> Result<(), Refusal>
    ensures { (result ≡ remove_call table.old ours.now id.now) × (table.new ≡ remove_call_table table.old ours.now id.now) }
{
    let leaving = admit(table, ours, id)?;
    sightings::remove(table, ours, &leaving)
}

// A contact is marked as doubtful.
pub fn doubt(table: &mut [u8], ours: &[u8], id: &[u8]) -> Result<(), Refusal>
    ensures { (result ≡ doubt_call table.old ours.now id.now) × (table.new ≡ doubt_call_table table.old ours.now id.now) }
{
    let doubtful = admit(table, ours, id)?;
    sightings::doubt(table, &doubtful)
}
