#![tactic(auto)]
// Who stands where in the contact table: the contact at a place, the lowest free slot, a bucket's head and tail; and the order closing up. Every public
// function takes any bytes.
ghost use Rattle.std.specs.Prelude.{◌≡◌, ◌+◌, ◌*◌, ◌<◌, max, length};
ghost use Rattle.octets.specs.Octets.{part, number};
ghost use Rattle.place.specs.Place.{bucket_of};
ghost use Rattle.contacts.specs.Table.{slots_of, slot, put_slot, mark, place};
ghost use Rattle.contact_order.specs.Order.{is_at, is_head, mark_in, held_at, free_at, head_at, tail_of, lowered, close_up, leave};
ghost use Rattle.contact_order.specs.Inner.{Sieves, sifted_out};

use contacts::SLOT;

fn mark_at(table: &[u8], i: usize) -> u8
    requires { i < slots_of table.now }
    ensures { result ≡ mark (slot table.now i) }
{
    table[i * SLOT]
}

// The place in a slot.
fn place_at(table: &[u8], i: usize) -> &[u8]
    requires { i < slots_of table.now }
    ensures { (result.now ≡ place (slot table.now i)) × (length result.now ≡ 32) }
{
    let from = i * SLOT + contact_table::PLACE_AT;
    let to = from + limits::PLACE;
    &table[from..to]
}

// The bucket of the place in a slot.
pub fn bucket_at(table: &[u8], ours: &[u8], i: usize) -> usize
    ensures { result ≡ bucket_of (place (slot table.now i)) ours.now }
{
    place::bucket(contacts::place_of(table, i), ours)
}

// By which most places are seen not to be of a bucket: ours' first word, and how many of its leading bits such a place shares; 65 where that
// tells nothing.
#[derive(Clone, Copy)]
struct Sieve {
    word: u64,
    bits: usize,
}

fn sieve_of(ours: &[u8], b: usize) -> Sieve
    ensures { Sieves ours.now b result }
{
    let word = octets::word(ours, 0);
    if ours.len() != limits::PLACE {
        return Sieve { word, bits: 65 };
    }
    if 64 < b {
        return Sieve { word, bits: 64 };
    }
    Sieve { word, bits: b }
}

// Whether the first word of the place in a slot shows that it isn't of the sieve's bucket. It costs less than the bucket.
fn sifted(table: &[u8], sieve: Sieve, i: usize) -> bool
    requires { i < slots_of table.now }
    ensures { result ≡ sifted_out sieve (place (slot table.now i)) }
{
    if 64 < sieve.bits {
        return false;
    }
    let x = octets::word(place_at(table, i), 0) ^ sieve.word;
    let shared = u64::leading_zeros(x) as usize;
    shared != sieve.bits
}

// Whether a slot holds the contact at a place, whose first word is read once for all slots.
fn is_at(table: &[u8], p: &[u8], first: u64, i: usize) -> bool
    requires { (i < slots_of table.now) × (first ≡ number (part p.now 0 8)) }
    ensures { result ≡ is_at p.now (slot table.now i) }
{
    if mark_at(table, i) == 0 {
        return false;
    }
    let q = place_at(table, i);
    if octets::word(q, 0) != first {
        return false;
    }
    octets::same_bytes(q, p)
}

// Whether a slot holds the head of bucket b. The mark is looked at first: it costs less than the bucket.
fn is_head(table: &[u8], ours: &[u8], b: usize, i: usize) -> bool
    requires { i < slots_of table.now }
    ensures { result ≡ is_head ours.now b (slot table.now i) }
{
    if mark_at(table, i) != 1 {
        return false;
    }
    bucket_at(table, ours, i) == b
}

// The mark of a slot, where it is above top and the slot is of bucket b; else top.
fn higher(table: &[u8], ours: &[u8], b: usize, sieve: Sieve, i: usize, top: u8) -> u8
    requires { (i < slots_of table.now) × Sieves ours.now b sieve }
    ensures { result ≡ max top (mark_in ours.now b (slot table.now i)) }
{
    let m = mark_at(table, i);
    if m <= top {
        return top;
    }
    if sifted(table, sieve, i) {
        return top;
    }
    if bucket_at(table, ours, i) == b {
        return m;
    }
    top
}

// The slot of the contact at a place, or the number of slots.
pub fn held_at(table: &[u8], p: &[u8]) -> usize
    ensures { result ≡ held_at table.now p.now }
{
    let n = contacts::slots(table);
    let first = octets::word(p, 0);
    for i in 0..n {
        if is_at(table, p, first, i) {
            return i;
        }
    }
    n
}

// The lowest free slot, or the number of slots.
pub fn free_at(table: &[u8]) -> usize
    ensures { result ≡ free_at table.now }
{
    let n = contacts::slots(table);
    for i in 0..n {
        if mark_at(table, i) == 0 {
            return i;
        }
    }
    n
}

// The slot of the head of bucket b, or the number of slots.
pub fn head_at(table: &[u8], ours: &[u8], b: usize) -> usize
    ensures { result ≡ head_at table.now ours.now b }
{
    let n = contacts::slots(table);
    for i in 0..n {
        if is_head(table, ours, b, i) {
            return i;
        }
    }
    n
}

// The mark of the tail of bucket b, 0 where it is empty.
pub fn tail_of(table: &[u8], ours: &[u8], b: usize) -> u8
    ensures { result ≡ tail_of table.now ours.now b }
{
    let n = contacts::slots(table);
    let sieve = sieve_of(ours, b);
    let mut top: u8 = 0;
    for i in 0..n {
        top = higher(table, ours, b, sieve, i, top);
    }
    top
}

// Slot i moves one forward, if it is of bucket b and behind the mark m.
fn lower(table: &mut [u8], ours: &[u8], b: usize, sieve: Sieve, m: usize, i: usize)
    requires { (i < slots_of table.old) × Sieves ours.now b sieve }
    ensures { table.new ≡ put_slot table.old i (lowered ours.now b m (slot table.old i)) }
{
    let k = mark_at(table, i);
    if k as usize <= m {
        return;
    }
    if sifted(table, sieve, i) {
        return;
    }
    if bucket_at(table, ours, i) != b {
        return;
    }
    table[i * SLOT] = k - 1;
}

// Those of bucket b behind the mark m move one forward.
fn close_up(table: &mut [u8], ours: &[u8], b: usize, m: usize)
    ensures { table.new ≡ close_up table.old ours.now b m }
{
    let n = contacts::slots(table);
    let sieve = sieve_of(ours, b);
    for i in 0..n {
        lower(table, ours, b, sieve, m, i);
    }
}

// Those of slot i's bucket that are behind it move one forward.
pub fn leave_order(table: &mut [u8], ours: &[u8], i: usize)
    ensures { table.new ≡ leave table.old ours.now i }
{
    let b = bucket_at(table, ours, i);
    let m = contacts::mark_of(table, i);
    close_up(table, ours, b, m);
}
