#![tactic(auto)]
// A contact as a struct, in the slot of a table of flat bytes, and the contact calls on a table that lies at the start of the room that a host
// lends. Every function takes any numbers and any bytes; what lies past their end reads as zeros, and what would be written there is left out.
ghost use Rattle.std.specs.Prelude.{◌≡◌, cond, length, get_or};
ghost use Rattle.contacts.specs.Table.{slot_size, slot, put_slot};
ghost use Rattle.host_calls.specs.Hosts.{seen_after, settle_after, remove_after, doubt_after};
ghost use Rattle.contact_slots.specs.Slots.{slot_bytes, contact_in, enough, table_in, with_table, contact_from, seen_in, settle_in, remove_in, doubt_in};

use contact_calls::{Settled, Sighting};
pub use contacts::SLOT;
use peer::Peer;
use refusal::Refusal;

// A contact: mark 0 where its slot is free, else its rank in its bucket plus 1; doubt 1 where it is doubtful, else 0.
#[derive(Clone, Copy)]
pub struct Contact {
    pub peer: Peer,
    pub mark: u8,
    pub doubt: u8,
}

// ---- one contact

// Byte k of a slot, or 0 where there is none.
fn byte(s: &[u8], k: usize) -> u8
    ensures { result ≡ get_or s.now k 0 }
{
    if k < s.len() {
        return s[k];
    }
    0
}

// The contact in slot i.
pub fn contact_in(bytes: &[u8], i: usize) -> Contact
    ensures { result ≡ contact_in (slot bytes.now i) }
{
    let s = contacts::slot_of(bytes, i);
    let peer = flat::peer_in(s);
    let mark = byte(s, 0);
    let doubt = byte(s, 1);
    Contact { peer, mark, doubt }
}

// Writes a contact as slot i.
pub fn put_contact(bytes: &mut [u8], i: usize, c: Contact)
    ensures { bytes.new ≡ put_slot bytes.old i (slot_bytes c) }
{
    let n = bytes.len();
    if n / SLOT < i {
        return;
    }
    let at = i * SLOT;
    if at == n {
        return;
    }
    let p = c.peer;
    flat::put_peer(&mut bytes[at..], p);
    let marks = [c.mark, c.doubt];
    octets::copy(bytes, at, &marks);
}

// ---- one of n contacts, where the room has n slots

// Whether the room has the bytes of n slots.
fn has_slots(room: &[u8], n: usize) -> bool
    ensures { result ≡ enough n room.now }
{
    n <= room.len() / SLOT
}

// Writes contact i of n into the room, if all n have room. It also says how many bytes that is.
pub fn lay(room: &mut [u8], n: usize, i: usize, c: Contact)
    ensures { (room.new ≡ cond (enough n room.old) (put_slot room.old i (slot_bytes c)) room.old) × (length (slot_bytes c) ≡ slot_size) }
{
    if has_slots(room, n) {
        put_contact(room, i, c);
    }
}

// Contact i of n as it stands in the room, if all n have room; else the one handed in.
pub fn pick(room: &[u8], n: usize, i: usize, c: Contact) -> Contact
    ensures { result ≡ contact_from n room.now i c }
{
    if has_slots(room, n) {
        return contact_in(room, i);
    }
    c
}

// ---- the calls on the n contacts in the room: refusal 0 where it is too short for them

pub fn remove_in(me: Peer, room: &mut [u8], n: usize, id: &[u8]) -> Result<(), Refusal>
    ensures { (result ≡ remove_in me room.old n id.now) × (room.new ≡ with_table n room.old (remove_after me (table_in n room.old) id.now)) }
{
    if !has_slots(room, n) {
        return Err(Refusal::OutOfForm);
    }
    let e = n * SLOT;
    host_calls::remove(me, &mut room[..e], id)
}

pub fn doubt_in(me: Peer, room: &mut [u8], n: usize, id: &[u8]) -> Result<(), Refusal>
    ensures { (result ≡ doubt_in me room.old n id.now) × (room.new ≡ with_table n room.old (doubt_after me (table_in n room.old) id.now)) }
{
    if !has_slots(room, n) {
        return Err(Refusal::OutOfForm);
    }
    let e = n * SLOT;
    host_calls::doubt(me, &mut room[..e], id)
}

pub fn seen_in(
    me: Peer,
    room: &mut [u8],
    n: usize,
    id: &[u8],
    client: bool,
    addresses: &[u8],
) -> Result<Sighting, Refusal>
    ensures { (result ≡ seen_in me room.old n id.now client addresses.now) × (room.new ≡ with_table n room.old (seen_after me (table_in n room.old) id.now client addresses.now)) }
{
    if !has_slots(room, n) {
        return Err(Refusal::OutOfForm);
    }
    let e = n * SLOT;
    host_calls::seen(me, &mut room[..e], id, client, addresses)
}

pub fn settle_in(
    me: Peer,
    room: &mut [u8],
    n: usize,
    head: &[u8],
    id: &[u8],
    client: bool,
    addresses: &[u8],
    answered: bool,
) -> Result<Settled, Refusal>
    ensures { (result ≡ settle_in me room.old n head.now id.now client addresses.now answered) × (room.new ≡ with_table n room.old (settle_after me (table_in n room.old) head.now id.now client addresses.now answered)) }
{
    if !has_slots(room, n) {
        return Err(Refusal::OutOfForm);
    }
    let e = n * SLOT;
    host_calls::settle(me, &mut room[..e], head, id, client, addresses, answered)
}
