#![tactic(auto)]
// Seen, settle, remove and doubt on the contact table. Every public function takes any bytes.
ghost use Rattle.std.specs.Prelude.{◌≡◌, ◌+◌, ◌*◌, ◌<◌};
ghost use Rattle.place.specs.Place.{bucket_of};
ghost use Rattle.peer.specs.Peers.{tidied};
ghost use Rattle.contacts.specs.Table.{slots_of, slot, put_slot, place};
ghost use Rattle.contact_order.specs.Order.{free_at, tail_of};
ghost use Rattle.sightings.specs.Order.{contact_bytes, free_bytes, with_addresses, move_to_tail, move_and_renew, dropped, join};
ghost use Rattle.sightings.specs.Sightings.{sighting_of, newcomer, seen_table, after_sighting, fits, settlement_of, settled_table, removal_of, removed_table, marking_of, marked_table};

use contact_table::{ADDRESSES_AT, COUNT_AT, DOUBT_AT, ID_AT, PLACE_AT, SIZES_AT, SLOT};
use peer::Peer;
use refusal::Refusal;

// The most contacts of a bucket.
pub const BUCKET: u8 = limits::BUCKET as u8;

// The answers of the calls, here and in contact_calls, which alone gives refusals 0, 12 and 18: it tests the form, judges ids and is told of clients.
#[derive(Clone, Copy)]
pub enum Sighting {
    // the peer was held in this slot, and moved to its bucket's tail
    Moved(usize),
    // the peer joined its bucket's tail, in this slot
    Joined(usize),
    // refusal 13: the bucket is full; its head, in this slot, is to be probed
    Probe(usize),
}

#[derive(Drop)]
pub enum Settled {
    // the head answered, and moved to the tail
    Kept,
    // the head was silent, and the newcomer has come in for it
    Swapped,
}

// A contact is written as its whole slot.
fn write_slot(table: &mut [u8], i: usize, m: u8, p: Peer)
    requires { i < slots_of table.old }
    ensures { table.new ≡ put_slot table.old i (contact_bytes m p) }
{
    let head = [m, 0u8, p.size, p.count];
    let lens = p.lens;
    let place = p.place;
    let id = p.id;
    let addrs = p.addrs;
    let at = i * SLOT;
    octets::copy(table, at, &head);
    octets::copy(table, at + SIZES_AT, &lens);
    octets::copy(table, at + PLACE_AT, &place);
    octets::copy(table, at + ID_AT, &id);
    octets::copy(table, at + ADDRESSES_AT, &addrs);
}

// A freed slot is cleared to zeros.
fn clear_slot(table: &mut [u8], i: usize)
    requires { i < slots_of table.old }
    ensures { table.new ≡ put_slot table.old i free_bytes }
{
    let none = [0u8; SLOT];
    octets::copy(table, i * SLOT, &none);
}

// The contact in slot i takes a peer's addresses.
fn put_addresses(table: &mut [u8], i: usize, p: Peer)
    requires { i < slots_of table.old }
    ensures { table.new ≡ put_slot table.old i (with_addresses p (slot table.old i)) }
{
    let lens = p.lens;
    let addrs = p.addrs;
    let at = i * SLOT;
    table[at + COUNT_AT] = p.count;
    octets::copy(table, at + SIZES_AT, &lens);
    octets::copy(table, at + ADDRESSES_AT, &addrs);
}

// The contact in slot i goes to its bucket's tail, and is doubtful no more.
fn move_to_tail(table: &mut [u8], ours: &[u8], i: usize)
    requires { i < slots_of table.old }
    ensures { table.new ≡ move_to_tail table.old ours.now i }
{
    let b = contact_order::bucket_at(table, ours, i);
    let tail = contact_order::tail_of(table, ours, b);
    contact_order::leave_order(table, ours, i);
    let at = i * SLOT;
    table[at] = tail;
    table[at + DOUBT_AT] = 0;
}

// The same, and it takes the new addresses if there are any.
fn move_and_renew(table: &mut [u8], ours: &[u8], i: usize, p: Peer)
    requires { i < slots_of table.old }
    ensures { table.new ≡ move_and_renew table.old ours.now i p }
{
    move_to_tail(table, ours, i);
    if p.count == 0 {
        return;
    }
    put_addresses(table, i, p);
}

// The contact in slot i goes.
fn drop_slot(table: &mut [u8], ours: &[u8], i: usize)
    requires { i < slots_of table.old }
    ensures { table.new ≡ dropped table.old ours.now i }
{
    contact_order::leave_order(table, ours, i);
    clear_slot(table, i);
}

// A peer that isn't held is seen.
fn seen_new(table: &mut [u8], ours: &[u8], p: Peer) -> Result<Sighting, Refusal>
    ensures { (result ≡ newcomer table.old ours.now p) × (table.new ≡ after_sighting table.old ours.now p result) }
{
    let place = p.place;
    let b = place::bucket(&place, ours);
    let tail = contact_order::tail_of(table, ours, b);
    if BUCKET <= tail {
        return Ok(Sighting::Probe(contact_order::head_at(table, ours, b)));
    }
    let i = contact_order::free_at(table);
    if contacts::slots(table) <= i {
        return Err(Refusal::NoContactSlot);
    }
    write_slot(table, i, tail + 1, p);
    Ok(Sighting::Joined(i))
}

// A peer is seen, with its usable addresses.
pub fn seen(table: &mut [u8], ours: &[u8], p: Peer) -> Result<Sighting, Refusal>
    ensures { (result ≡ sighting_of table.old ours.now (tidied p)) × (table.new ≡ seen_table table.old ours.now (tidied p)) }
{
    let q = peer::tidied(p);
    let place = q.place;
    let i = contact_order::held_at(table, &place);
    if i < contacts::slots(table) {
        move_and_renew(table, ours, i, q);
        return Ok(Sighting::Moved(i));
    }
    seen_new(table, ours, q)
}

// The bucket is full, the contact at the place head is still its head, and the newcomer is of that bucket and not held.
pub fn still_fits(table: &[u8], ours: &[u8], head: &[u8], p: &[u8]) -> bool
    ensures { result ≡ fits table.now ours.now head.now p.now }
{
    let n = contacts::slots(table);
    let h = contact_order::held_at(table, head);
    if n <= h {
        return false;
    }
    if contacts::mark_of(table, h) != 1 {
        return false;
    }
    let b = place::bucket(head, ours);
    if place::bucket(p, ours) != b {
        return false;
    }
    if contact_order::tail_of(table, ours, b) != BUCKET {
        return false;
    }
    n <= contact_order::held_at(table, p)
}

// A newcomer joins its bucket's tail in the lowest free slot, of which there is one.
fn join_tail(table: &mut [u8], ours: &[u8], p: Peer)
    requires { (free_at table.old < slots_of table.old) × (tail_of table.old ours.now (bucket_of p.place ours.now) < 255) }
    ensures { table.new ≡ join table.old ours.now p }
{
    let place = p.place;
    let b = place::bucket(&place, ours);
    let tail = contact_order::tail_of(table, ours, b);
    let i = contact_order::free_at(table);
    write_slot(table, i, tail + 1, p);
}

// The head of a full bucket has been probed: it stays if it answered, else the newcomer comes in for it.
pub fn settle(
    table: &mut [u8],
    ours: &[u8],
    head: &[u8],
    p: Peer,
    answered: bool,
) -> Result<Settled, Refusal>
    ensures { (result ≡ settlement_of table.old ours.now head.now p answered) × (table.new ≡ settled_table table.old ours.now head.now p answered) }
{
    let place = p.place;
    if !still_fits(table, ours, head, &place) {
        return Err(Refusal::NoLongerFits);
    }
    let i = contact_order::held_at(table, head);
    if answered {
        move_to_tail(table, ours, i);
        return Ok(Settled::Kept);
    }
    drop_slot(table, ours, i);
    join_tail(table, ours, p);
    Ok(Settled::Swapped)
}

// The contact at a place goes.
pub fn remove(table: &mut [u8], ours: &[u8], p: &[u8]) -> Result<(), Refusal>
    ensures { (result ≡ removal_of table.old p.now) × (table.new ≡ removed_table table.old ours.now p.now) }
{
    let leaving = contact_order::held_at(table, p);
    if contacts::slots(table) <= leaving {
        return Err(Refusal::NoLongerFits);
    }
    drop_slot(table, ours, leaving);
    Ok(())
}

// The contact at a place is marked as doubtful; it stays where it is.
pub fn doubt(table: &mut [u8], p: &[u8]) -> Result<(), Refusal>
    ensures { (result ≡ marking_of table.old p.now) × (table.new ≡ marked_table table.old p.now) }
{
    let doubtful = contact_order::held_at(table, p);
    if contacts::slots(table) <= doubtful {
        return Err(Refusal::NoLongerFits);
    }
    table[doubtful * SLOT + DOUBT_AT] = 1;
    Ok(())
}
