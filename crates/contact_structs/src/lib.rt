#![tactic(auto)]
// Seen, settle, remove and doubt on contacts that sit in a list of structs lent by the host, above the core on flat bytes. The host lends room for the
// contacts' bytes too: 616 for each, else refusal 0. Every function takes any contacts and any bytes.
ghost use Rattle.std.specs.Prelude.{◌*◌, ◌≡◌, length};
ghost use Rattle.contacts.specs.Table.{slot_size};
ghost use Rattle.host_calls.specs.Hosts.{seen_after, settle_after, remove_after, doubt_after};
ghost use Rattle.contact_slots.specs.Slots.{table_bytes};
ghost use Rattle.contact_structs.specs.Structs.{contacts_after, room_after, seen_on, settle_on, remove_on, doubt_on};

use contact_calls::{Settled, Sighting};
use contact_slots::Contact;
use peer::Peer;
use refusal::Refusal;

// Lays the contacts out in the room, as the table of their slots; a room that is too short stays as it is. It also says how many bytes they are.
pub fn pack(t: &[Contact], room: &mut [u8])
    ensures { (room.new ≡ room_after t.now room.old (table_bytes t.now)) × (length (table_bytes t.now) ≡ length t.now * slot_size) }
{
    let n = t.len();
    for i in 0..n {
        contact_slots::lay(room, n, i, t[i]);
    }
}

// Takes the contacts from the room; from one that is too short nothing is taken.
pub fn unpack(t: &mut [Contact], room: &[u8])
    ensures { t.new ≡ contacts_after t.old room.now room.now }
{
    let n = t.len();
    for i in 0..n {
        let c = t[i];
        t[i] = contact_slots::pick(room, n, i, c);
    }
}

// A peer was seen.
pub fn seen(
    me: Peer,
    t: &mut [Contact],
    room: &mut [u8],
    id: &[u8],
    client: bool,
    addresses: &[u8],
) -> Result<Sighting, Refusal>
    ensures { (result ≡ seen_on me t.old room.old id.now client addresses.now) × (t.new ≡ contacts_after t.old room.old (seen_after me (table_bytes t.old) id.now client addresses.now)) × (room.new ≡ room_after t.old room.old (seen_after me (table_bytes t.old) id.now client addresses.now)) }
{
    pack(t, room);
    let n = t.len();
    let r = contact_slots::seen_in(me, room, n, id, client, addresses);
    unpack(t, room);
    r
}

// The probe of a head came back: it answered, or it was silent, and the newcomer takes its place.
pub fn settle(
    me: Peer,
    t: &mut [Contact],
    room: &mut [u8],
    head: &[u8],
    id: &[u8],
    client: bool,
    addresses: &[u8],
    answered: bool,
) -> Result<Settled, Refusal>
    ensures { (result ≡ settle_on me t.old room.old head.now id.now client addresses.now answered) × (t.new ≡ contacts_after t.old room.old (settle_after me (table_bytes t.old) head.now id.now client addresses.now answered)) × (room.new ≡ room_after t.old room.old (settle_after me (table_bytes t.old) head.now id.now client addresses.now answered)) }
{
    pack(t, room);
    let n = t.len();
    let r = contact_slots::settle_in(me, room, n, head, id, client, addresses, answered);
    unpack(t, room);
    r
}

// Takes a contact out.
pub fn remove(me: Peer, t: &mut [Contact], room: &mut [u8], id: &[u8]) -> Result<(), Refusal>
    ensures { (result ≡ remove_on me t.old room.old id.now) × (t.new ≡ contacts_after t.old room.old (remove_after me (table_bytes t.old) id.now)) × (room.new ≡ room_after t.old room.old (remove_after me (table_bytes t.old) id.now)) }
{
    pack(t, room);
    let n = t.len();
    let r = contact_slots::remove_in(me, room, n, id);
    unpack(t, room);
    r
}

// Marks a contact as doubtful.
pub fn doubt(me: Peer, t: &mut [Contact], room: &mut [u8], id: &[u8]) -> Result<(), Refusal>
    ensures { (result ≡ doubt_on me t.old room.old id.now) × (t.new ≡ contacts_after t.old room.old (doubt_after me (table_bytes t.old) id.now)) × (room.new ≡ room_after t.old room.old (doubt_after me (table_bytes t.old) id.now)) }
{
    pack(t, room);
    let n = t.len();
    let r = contact_slots::doubt_in(me, room, n, id);
    unpack(t, room);
    r
}
