#![tactic(auto)]
// Slots with keys, on flat bytes that the host lends: whether a key stands twice, the slot of a key and the lowest free one. The size of a slot is
// given; byte 0 of a slot is the length of its key (0: the slot is free), and the key stands from byte 8 on. Every public function takes any bytes.
ghost use Rattle.std.specs.Prelude.{◌≡◌, ◌+◌, ◌*◌, ◌<◌, ◌≤◌, length};
ghost use Rattle.keyed_slots.specs.Slots.{slots_of, slot, key_of, holds, keys_apart, slot_with, free_slot};
ghost use Rattle.keyed_slots.specs.Inner.{Rising, Between, stands_at, Inserted, Ordered, Settled};

// Where a key begins; specs/Slots.antt has the same.
pub const KEY_AT: usize = 8;

// More than any order of slots has.
const UNFIT: usize = limits::MOST_RECORDS + 1;

// How many slots a store has: whole ones, at most 256.
pub fn slots(store: &[u8], size: usize) -> usize
    ensures { result ≡ slots_of size store.now }
{
    if size == 0 {
        return 0;
    }
    let m = store.len() / size;
    if m < limits::MOST_RECORDS {
        return m;
    }
    limits::MOST_RECORDS
}

fn slot_at(store: &[u8], size: usize, i: usize) -> &[u8]
    requires { i < slots_of size store.now }
    ensures { (result.now ≡ slot size store.now i) × (1 ≤ length result.now) }
{
    let a = i * size;
    let e = a + size;
    &store[a..e]
}

// The key of a slot, or as much of it as the slot has.
fn key_of(s: &[u8]) -> &[u8]
    requires { 1 ≤ length s.now }
    ensures { result.now ≡ key_of s.now }
{
    let n = s[0] as usize;
    let len = s.len();
    if len < KEY_AT {
        return &s[len..];
    }
    if len - KEY_AT < n {
        return &s[KEY_AT..];
    }
    let e = KEY_AT + n;
    &s[KEY_AT..e]
}

// Whether slot i is used and has this key.
fn slot_holds(store: &[u8], size: usize, key: &[u8], i: usize) -> bool
    requires { i < slots_of size store.now }
    ensures { result ≡ holds size store.now key.now i }
{
    let s = slot_at(store, size, i);
    if s[0] < 1 {
        return false;
    }
    octets::same_bytes(key_of(s), key)
}

// The test keeps the used slots in the order of their keys: `order` has `held` slot numbers, and the key of each is lower than the next one's.
// So a key is compared with eight others at most, not with all.

// The place of a key in the order: all before it are lower, and no other is.
// By hand, since `partition_point` wants a closure that may be called for any byte, and a slot has to be there for its number.
fn place_for(store: &[u8], size: usize, order: &[u8], held: usize, key: &[u8]) -> usize
    requires { Rising size store.now order.now held }
    ensures { Between size store.now order.now held key.now result }
{
    let mut lo: usize = 0;
    let mut hi = held;
    while lo < hi {
        let mid = lo + (hi - lo) / 2;
        let j = order[mid] as usize;
        if octets::lower_bytes(key_of(slot_at(store, size, j)), key) {
            lo = mid + 1;
            continue;
        }
        hi = mid;
    }
    lo
}

// Whether the slot at a place of the order has this key.
fn stands_at(store: &[u8], size: usize, order: &[u8], held: usize, p: usize, key: &[u8]) -> bool
    requires { Rising size store.now order.now held }
    ensures { result ≡ stands_at size store.now order.now held p key.now }
{
    if held <= p {
        return false;
    }
    let j = order[p] as usize;
    slot_holds(store, size, key, j)
}

// Puts a slot number into the order at a place, and moves those after it on.
// One by one, since `rotate_right` calls memmove: what a host links needs memcpy and memset and nothing else.
fn insert(order: &mut [u8], held: usize, p: usize, i: u8)
    requires { (p ≤ held) × (held < length order.old) }
    ensures { Inserted order.old order.new held p i }
{
    for m in (p..held).rev() {
        order[m + 1] = order[m];
    }
    order[p] = i;
}

// Puts slot i into the order if it is used. The answer is how many slots the order then has, or more than there can be if its key stands there already.
fn settle(store: &[u8], size: usize, order: &mut [u8], held: usize, i: usize) -> usize
    requires { (i < slots_of size store.now) × Ordered size store.now order.old held i }
    ensures { Settled size store.now order.new i result }
{
    let s = slot_at(store, size, i);
    if s[0] < 1 {
        return held;
    }
    let key = key_of(s);
    let p = place_for(store, size, order, held, key);
    if stands_at(store, size, order, held, p, key) {
        return UNFIT;
    }
    insert(order, held, p, i as u8);
    held + 1
}

// Whether no key stands twice.
pub fn keys_apart(store: &[u8], size: usize) -> bool
    ensures { result ≡ keys_apart size store.now }
{
    let n = slots(store, size);
    let mut order = [0u8; 256];
    let mut held: usize = 0;
    for i in 0..n {
        held = settle(store, size, &mut order, held, i);
        if limits::MOST_RECORDS < held {
            return false;
        }
    }
    true
}

// The slot of a key, or the number of slots where none holds it.
pub fn slot_with(store: &[u8], size: usize, key: &[u8]) -> usize
    ensures { result ≡ slot_with size store.now key.now }
{
    let n = slots(store, size);
    for i in 0..n {
        if slot_holds(store, size, key, i) {
            return i;
        }
    }
    n
}

// The lowest free slot, or the number of slots where none is free.
pub fn free_slot(store: &[u8], size: usize) -> usize
    ensures { result ≡ free_slot size store.now }
{
    let n = slots(store, size);
    for i in 0..n {
        let s = slot_at(store, size, i);
        if s[0] < 1 {
            return i;
        }
    }
    n
}
