#![tactic(auto)]
// The contact table's form test, its twenty nearest and its sightings, for C and Rust.
ghost use Rattle.std.specs.Prelude.{◌≡◌, [], ◌∷◌};
ghost use Rattle.place.specs.Place.{place_of};
ghost use Rattle.contacts.specs.Form.{in_form};
ghost use Rattle.contacts.specs.Near.{nearest_of};
ghost use Rattle.peer.specs.Peers.{peer_of};
ghost use Rattle.sightings.specs.Sightings.{sighting_of, seen_table};
ghost use Rattle.contact_calls.specs.Calls.{seen_call, seen_call_table, seen_number};
ghost use Rattle.contacts_c.specs.Codes.{named_by};

use contact_calls::Sighting;
use refusal::Refusal;

// Whether a table is in form, where our place is `ours`. A C program declares it so:
//
//     bool starterbell_in_form(const uint8_t *table, size_t length, const uint8_t ours[32]);
#[unsafe(no_mangle)]
pub extern "C" fn starterbell_in_form(table: &[u8], ours: &[u8; 32]) -> bool
    ensures { result ≡ in_form table.now ours.now }
{
    contacts::in_form(table, ours)
}

// Stores the numbers of the slots nearest to `target` in `out`, nearest first, and returns how many there are. A C program declares it so:
//
//     size_t starterbell_contacts_nearest(const uint8_t *table, size_t length, const uint8_t target[32], size_t out[20]);
#[unsafe(no_mangle)]
pub extern "C" fn starterbell_contacts_nearest(
    table: &[u8],
    target: &[u8; 32],
    out: &mut [usize; limits::MOST_NEAR],
) -> usize
    ensures { (result ≡ (nearest_of table.now target.now).n) × (out.new ≡ (nearest_of table.now target.now).at) }
{
    let found = contacts::nearest(table, target);
    let at = found.at;
    *out = at;
    found.n
}

// Stores the place of an id in `out`. A C program declares it so:
//
//     void starterbell_place(const uint8_t *id, size_t length, uint8_t out[32]);
#[unsafe(no_mangle)]
pub extern "C" fn starterbell_place(id: &[u8], out: &mut [u8; 32])
    ensures { out.new ≡ place_of id.now }
{
    let place = place::place_of(id);
    *out = place;
}

// What a sighting answered: its number, and the slot that it names.
#[derive(Drop)]
struct Answer {
    code: u8,
    slot: usize,
}

fn answer_of(o: Result<Sighting, Refusal>) -> Answer
    ensures { (result.code ≡ seen_number o) × (result.slot ≡ named_by o) }
{
    match o {
        Ok(Sighting::Moved(i)) => Answer { code: 64, slot: i },
        Ok(Sighting::Joined(i)) => Answer { code: 65, slot: i },
        Ok(Sighting::Probe(h)) => Answer {
            code: refusal::number(Refusal::BucketFull),
            slot: h,
        },
        Err(r) => Answer {
            code: refusal::number(r),
            slot: 0,
        },
    }
}

// A peer is seen, as a host calls it. Returns 64 where it moved, 65 where it joined, else the number of the refusal, and stores the slot
// that the answer names. A C program declares it so:
//
//     uint8_t starterbell_contacts_seen(uint8_t *table, size_t length, const uint8_t ours[32], const uint8_t *id, size_t id_length, bool client,
//                              const uint8_t *addresses, size_t addresses_length, size_t slot[1]);
#[unsafe(no_mangle)]
pub extern "C" fn starterbell_contacts_seen(
    table: &mut [u8],
    ours: &[u8; 32],
    id: &[u8],
    client: bool,
    addresses: &[u8],
    slot: &mut [usize; 1],
) -> u8
    ensures { (result ≡ seen_number (seen_call table.old ours.now id.now client addresses.now)) × (table.new ≡ seen_call_table table.old ours.now id.now client addresses.now) × (slot.new ≡ named_by (seen_call table.old ours.now id.now client addresses.now) ∷ []) }
{
    let told = answer_of(contact_calls::seen(table, ours, id, client, addresses));
    let named = [told.slot];
    *slot = named;
    told.code
}

// The same without the form test and the hash: the table is in form, and the place is that of the id.
#[unsafe(no_mangle)]
pub extern "C" fn starterbell_sighting(
    table: &mut [u8],
    ours: &[u8; 32],
    id: &[u8],
    place: &[u8; 32],
    addresses: &[u8],
    slot: &mut [usize; 1],
) -> u8
    ensures { (result ≡ seen_number (sighting_of table.old ours.now (peer_of id.now place.now addresses.now))) × (table.new ≡ seen_table table.old ours.now (peer_of id.now place.now addresses.now)) × (slot.new ≡ named_by (sighting_of table.old ours.now (peer_of id.now place.now addresses.now)) ∷ []) }
{
    let p = peer::peer_of(id, *place, addresses);
    let told = answer_of(sightings::seen(table, ours, p));
    let named = [told.slot];
    *slot = named;
    told.code
}
