#![tactic(auto)]
// The slots of the record store, on flat bytes that the host lends: its form, the slot of a key and the lowest free one. A slot has 3,208 bytes: byte 0
// is the length of the key (0: the slot is free), 2 and 3 that of the value (low byte first), 8..136 the key, 136..3,208 the value, zeros everywhere else.
ghost use Rattle.std.specs.Prelude.{◌≡◌, ◌+◌, ◌*◌, ◌<◌, length};
ghost use Rattle.octets.specs.Search.{all};
ghost use Rattle.record_slots.specs.Limits.{slot_size};
ghost use Rattle.record_slots.specs.Slots.{slots_of, slot, key_of, size_of, is_key, is_record, in_form, slot_with, free_slot};
ghost use Rattle.record_slots.specs.Inner.{sound};

pub use keyed_slots::KEY_AT;

// The limits and the layout; specs/Limits.antt has the same.
pub const KEY_MIN: usize = 7;

pub const VALUE_AT: usize = KEY_AT + limits::MOST_KEY;

pub const SLOT: usize = VALUE_AT + limits::MOST_VALUE;

// How many slots a store has: whole ones, at most 256.
pub fn slots(store: &[u8]) -> usize
    ensures { result ≡ slots_of store.now }
{
    keyed_slots::slots(store, SLOT)
}

// A record key: /wind/ and 1 to 122 more bytes.
pub fn is_key(key: &[u8]) -> bool
    ensures { result ≡ is_key key.now }
{
    if key.len() < KEY_MIN {
        return false;
    }
    if limits::MOST_KEY < key.len() {
        return false;
    }
    octets::starts_with(key, b"/wind/")
}

fn slot_at(store: &[u8], i: usize) -> &[u8]
    requires { i < slots_of store.now }
    ensures { (result.now ≡ slot store.now i) × (length result.now ≡ slot_size) }
{
    let a = i * SLOT;
    let e = a + SLOT;
    &store[a..e]
}

fn key_of(s: &[u8]) -> &[u8]
    requires { length s.now ≡ slot_size }
    ensures { result.now ≡ key_of s.now }
{
    let n = s[0] as usize;
    let e = KEY_AT + n;
    &s[KEY_AT..e]
}

fn size_of(s: &[u8]) -> usize
    requires { length s.now ≡ slot_size }
    ensures { result ≡ size_of s.now }
{
    let a = s[2] as usize;
    let b = s[3] as usize;
    a + b * 256
}

// Whether what a used slot holds keeps the limits of a record.
fn is_record(s: &[u8]) -> bool
    requires { length s.now ≡ slot_size }
    ensures { result ≡ is_record s.now }
{
    if !is_key(key_of(s)) {
        return false;
    }
    let n = size_of(s);
    if n < recipe::TRAILER {
        return false;
    }
    n <= limits::MOST_VALUE
}

// Whether slot i is free, or what it holds keeps the limits.
fn sound_at(store: &[u8], i: usize) -> bool
    requires { i < slots_of store.now }
    ensures { result ≡ sound store.now i }
{
    let s = slot_at(store, i);
    if s[0] < 1 {
        return true;
    }
    is_record(s)
}

// Whether every slot is.
fn all_sound(store: &[u8]) -> bool
    ensures { result ≡ all (slots_of store.now) (sound store.now) }
{
    let n = slots(store);
    for i in 0..n {
        if !sound_at(store, i) {
            return false;
        }
    }
    true
}

// Whether the store is in form: the slots one by one, then their keys.
pub fn in_form(store: &[u8]) -> bool
    ensures { result ≡ in_form store.now }
{
    if !all_sound(store) {
        return false;
    }
    keyed_slots::keys_apart(store, SLOT)
}

// The slot of a key, or the number of slots where none holds it.
pub fn slot_with(store: &[u8], key: &[u8]) -> usize
    ensures { result ≡ slot_with store.now key.now }
{
    keyed_slots::slot_with(store, SLOT, key)
}

// The lowest free slot, or the number of slots where none is free.
pub fn free_slot(store: &[u8]) -> usize
    ensures { result ≡ free_slot store.now }
{
    keyed_slots::free_slot(store, SLOT)
}
