#![tactic(auto)]
// The record store, on flat bytes that the host lends: finding a record, and putting one. Its slots and its form are passed on.
ghost use Rattle.std.specs.Prelude.{◌≡◌, ◌+◌, ◌*◌, ◌<◌, ◌≤◌, min, length, replicate};
ghost use Rattle.std.proofs.lemmas.List.Edits.{sets};
ghost use Rattle.limits.specs.Limits.{most_key, most_value};
ghost use Rattle.record_slots.specs.Limits.{slot_size};
ghost use Rattle.record_slots.specs.Slots.{slots_of, slot, size_of, value_of, padded, header, slot_bytes};
ghost use Rattle.records.specs.Store.{found, find_of, held_plan, plan_of, offer_answer, offer_after, put_answer, put_after};
ghost use Rattle.records.specs.Inner.{Fitting};

use record_slots::{KEY_AT, SLOT, VALUE_AT};
pub use record_slots::{in_form, is_key};
use refusal::Refusal;

fn slot_at(store: &[u8], i: usize) -> &[u8]
    requires { i < slots_of store.now }
    ensures { (result.now ≡ slot store.now i) × (length result.now ≡ slot_size) }
{
    let a = i * SLOT;
    let e = a + SLOT;
    &store[a..e]
}

fn size_of(s: &[u8]) -> usize
    requires { length s.now ≡ slot_size }
    ensures { result ≡ size_of s.now }
{
    let a = s[2] as usize;
    let b = s[3] as usize;
    a + b * 256
}

// How many bytes of the value a slot has: what its header says, or all there is room for.
fn held_size(s: &[u8]) -> usize
    requires { length s.now ≡ slot_size }
    ensures { result ≡ min (size_of s.now) most_value }
{
    let n = size_of(s);
    if n < limits::MOST_VALUE {
        return n;
    }
    limits::MOST_VALUE
}

fn value_of(s: &[u8]) -> &[u8]
    requires { length s.now ≡ slot_size }
    ensures { result.now ≡ value_of s.now }
{
    let e = VALUE_AT + held_size(s);
    &s[VALUE_AT..e]
}

// Where in the store a held value starts and ends.
#[derive(Clone, Copy)]
pub struct Held {
    pub start: usize,
    pub end: usize,
}

// Looks a key up, in a store of any bytes: for callers that have tested the form.
pub fn look(store: &[u8], key: &[u8]) -> Result<Option<Held>, Refusal>
    ensures { result ≡ found store.now key.now }
{
    let at = record_slots::slot_with(store, key);
    if at < record_slots::slots(store) {
        let start = at * SLOT + VALUE_AT;
        let end = start + held_size(slot_at(store, at));
        return Ok(Some(Held { start, end }));
    }
    Ok(None)
}

// The record of a key, or 0.
pub fn find(store: &[u8], key: &[u8]) -> Result<Option<Held>, Refusal>
    ensures { result ≡ find_of store.now key.now }
{
    if in_form(store) {
        return look(store, key);
    }
    Err(Refusal::OutOfForm)
}

// What is to be done with a value, where slot `at` holds another or the same of its key: the slot that it is written into, or nothing.
fn held_plan(held: &[u8], value: &[u8], at: usize) -> Result<Option<usize>, Refusal>
    ensures { result ≡ held_plan held.now value.now at }
{
    if octets::same_bytes(held, value) {
        return Ok(None);
    }
    if recipe::outranks(held, value) {
        return Err(Refusal::Outranked);
    }
    Ok(Some(at))
}

// What a put is to do, with a store of any bytes: the slot that the record is written into, or nothing where it is held already.
pub fn plan_put(store: &[u8], key: &[u8], value: &[u8]) -> Result<Option<usize>, Refusal>
    ensures { result ≡ plan_of store.now key.now value.now }
{
    if !is_key(key) {
        return Err(Refusal::BreaksRules);
    }
    if !recipe::check(value) {
        return Err(Refusal::BrokenRecipe);
    }
    let i = record_slots::slot_with(store, key);
    if i < record_slots::slots(store) {
        return held_plan(value_of(slot_at(store, i)), value, i);
    }
    let j = record_slots::free_slot(store);
    if j < record_slots::slots(store) {
        return Ok(Some(j));
    }
    Err(Refusal::NoRecordSlot)
}

// Stores n zeros from a place on.
fn clear(buf: &mut [u8], at: usize, n: usize)
    requires { at + n ≤ length buf.old }
    ensures { buf.new ≡ sets buf.old at (replicate n 0) }
{
    for i in 0..n {
        buf[at + i] = 0;
    }
}

// Stores the bytes of src from a place on, and zeros after them: n bytes in all.
fn put_padded(buf: &mut [u8], at: usize, src: &[u8], n: usize)
    requires { (length src.now ≤ n) × (at + n ≤ length buf.old) }
    ensures { buf.new ≡ sets buf.old at (padded n src.now) }
{
    let m = src.len();
    octets::copy(buf, at, src);
    clear(buf, at + m, n - m);
}

fn header_of(k: usize, v: usize) -> [u8; 8]
    requires { (k ≤ most_key) × (v ≤ most_value) }
    ensures { result ≡ header k v }
{
    [k as u8, 0, (v % 256) as u8, (v / 256) as u8, 0, 0, 0, 0]
}

// Writes a record as a whole slot.
fn write_slot(store: &mut [u8], at: usize, key: &[u8], value: &[u8])
    requires { Fitting store.old at key.now value.now }
    ensures { store.new ≡ sets store.old at (slot_bytes key.now value.now) }
{
    let head = header_of(key.len(), value.len());
    octets::copy(store, at, &head);
    put_padded(store, at + KEY_AT, key, limits::MOST_KEY);
    put_padded(store, at + VALUE_AT, value, limits::MOST_VALUE);
}

// Offers a record to a store of any bytes: for callers that have tested the form.
pub fn offer(store: &mut [u8], key: &[u8], value: &[u8]) -> Result<(), Refusal>
    ensures { (result ≡ offer_answer store.old key.now value.now) × (store.new ≡ offer_after store.old key.now value.now) }
{
    if let Some(i) = plan_put(store, key, value)? {
        write_slot(store, i * SLOT, key, value);
    }
    Ok(())
}

// Offers a record to the store: 0, or 8 to 11, or it is taken.
pub fn put(store: &mut [u8], key: &[u8], value: &[u8]) -> Result<(), Refusal>
    ensures { (result ≡ put_answer store.old key.now value.now) × (store.new ≡ put_after store.old key.now value.now) }
{
    if !in_form(store) {
        return Err(Refusal::OutOfForm);
    }
    offer(store, key, value)
}
