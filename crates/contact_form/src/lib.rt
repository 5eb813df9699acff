#![tactic(auto)]
// The form test of the contact table, for a table of any bytes.
ghost use Rattle.std.specs.Prelude.{◌≡◌, true, false, ℕ, ◌+◌, ◌*◌, ◌-◌, ◌<◌, ◌≤◌, length, get_or};
ghost use Rattle.octets.specs.Octets.{same};
ghost use Rattle.octets.specs.Search.{all};
ghost use Rattle.limits.specs.Limits.{most_addresses};
ghost use Rattle.contact_table.specs.Table.{slot_size, slots_of, slot, place};
ghost use Rattle.contact_form.specs.Form.{address_fits, fields_fit, in_form};
ghost use Rattle.contact_form.specs.Inner.{index_size, key_or, Indexed, words_of, other_place, other_before, entry_fits};

use contact_table::{ID_AT, PLACE_AT, SLOT};

// Buckets, and a place in the index for each contact of each.
const BUCKETS: usize = 256;

const INDEX: usize = BUCKETS * limits::BUCKET;

// A slot that stands in the table whole, and its place.
fn slot_at(table: &[u8], i: usize) -> &[u8]
    requires { i * slot_size + slot_size ≤ length table.now }
    ensures { (result.now ≡ slot table.now i) × (length result.now ≡ slot_size) }
{
    let a = i * SLOT;
    let e = a + SLOT;
    &table[a..e]
}

fn place_at(table: &[u8], i: usize) -> &[u8]
    requires { i * slot_size + slot_size ≤ length table.now }
    ensures { (result.now ≡ place (slot table.now i)) × (length result.now ≡ 32) }
{
    let a = i * SLOT + PLACE_AT;
    let e = a + limits::PLACE;
    &table[a..e]
}

fn address_fits(s: &[u8], k: usize) -> bool
    requires { (length s.now ≡ slot_size) × (k < most_addresses) }
    ensures { result ≡ address_fits s.now k }
{
    let n = s[4 + k] as usize;
    if n < 1 {
        return false;
    }
    n <= limits::MOST_ADDRESS
}

fn addresses_fit(s: &[u8], count: usize) -> bool
    requires { (length s.now ≡ slot_size) × (count ≤ most_addresses) }
    ensures { result ≡ all count (address_fits s.now) }
{
    for k in 0..count {
        if !address_fits(s, k) {
            return false;
        }
    }
    true
}

fn fields_fit(s: &[u8]) -> bool
    requires { length s.now ≡ slot_size }
    ensures { result ≡ fields_fit s.now }
{
    let mark = s[0] as usize;
    if limits::BUCKET < mark {
        return false;
    }
    if 1 < s[1] {
        return false;
    }
    let id = s[2] as usize;
    if id < 1 {
        return false;
    }
    if limits::MOST_ID < id {
        return false;
    }
    let count = s[3] as usize;
    if limits::MOST_ADDRESSES < count {
        return false;
    }
    addresses_fit(s, count)
}

// Where a used slot goes in the index; INDEX where it is out of form by itself, or of our place.
fn key_of(s: &[u8], ours: &[u8]) -> usize
    requires { (length s.now ≡ slot_size) × (1 ≤ get_or s.now 0 0) }
    ensures { result ≡ key_or s.now ours.now }
{
    if !fields_fit(s) {
        return INDEX;
    }
    let b = place::bucket(&s[PLACE_AT..ID_AT], ours);
    if BUCKETS <= b {
        return INDEX;
    }
    let mark = s[0] as usize;
    b * limits::BUCKET + (mark - 1)
}

// Puts each used slot's number, plus 1, where it goes; false where that shows that the table is out of form.
fn collect(table: &[u8], ours: &[u8], n: usize, at: &mut [u16]) -> bool
    requires { (n ≡ slots_of table.now) × (length at.old ≡ index_size) × ((k : ℕ) → get_or at.old k 0 ≡ 0) }
    ensures held { result ≡ true → Indexed table.now ours.now n at.new }
    ensures broken { result ≡ false → in_form table.now ours.now ≡ false }
{
    for i in 0..n {
        let s = slot_at(table, i);
        if s[0] != 0 {
            let k = key_of(s, ours);
            if INDEX <= k {
                return false;
            }
            if at[k] != 0 {
                return false;
            }
            at[k] = (i + 1) as u16;
        }
    }
    true
}

// The four words of a place.
#[derive(Clone, Copy)]
struct Words {
    a: u64,
    b: u64,
    c: u64,
    d: u64,
}

fn words_of(p: &[u8]) -> Words
    ensures { result ≡ words_of p.now }
{
    let a = octets::word(p, 0);
    let b = octets::word(p, 8);
    let c = octets::word(p, 16);
    let d = octets::word(p, 24);
    Words { a, b, c, d }
}

// Whether another place is mine, whose words are w: they are read once for all that mine is compared with.
fn same_place(mine: &[u8], w: Words, other: &[u8]) -> bool
    requires { (length mine.now ≡ 32) × (length other.now ≡ 32) × (w ≡ words_of mine.now) }
    ensures { result ≡ same mine.now other.now }
{
    if w.a != octets::word(other, 0) {
        return false;
    }
    if w.b != octets::word(other, 8) {
        return false;
    }
    if w.c != octets::word(other, 16) {
        return false;
    }
    if w.d != octets::word(other, 24) {
        return false;
    }
    true
}

// Whether the slot of an entry has another place than mine; an empty entry has none.
fn other_place(table: &[u8], mine: &[u8], w: Words, e: u16) -> bool
    requires { (length mine.now ≡ 32) × (w ≡ words_of mine.now) × (e ≤ slots_of table.now) }
    ensures { result ≡ other_place table.now mine.now e }
{
    if e < 1 {
        return true;
    }
    let i = e as usize - 1;
    !same_place(mine, w, place_at(table, i))
}

// Whether none of the m entries before k has the place mine.
fn alone(table: &[u8], mine: &[u8], at: &[u16], k: usize, m: usize) -> bool
    requires { (length mine.now ≡ 32) × (k < length at.now) × (m ≤ k) × ((j : ℕ) → get_or at.now j 0 ≤ slots_of table.now) }
    ensures { result ≡ all m (other_before table.now mine.now at.now k) }
{
    let w = words_of(mine);
    for d in 0..m {
        if !other_place(table, mine, w, at[k - (d + 1)]) {
            return false;
        }
    }
    true
}

fn entry_fits(table: &[u8], at: &[u16], k: usize) -> bool
    requires { (length at.now ≡ index_size) × (k < index_size) × ((j : ℕ) → get_or at.now j 0 ≤ slots_of table.now) }
    ensures { result ≡ entry_fits table.now at.now k }
{
    let e = at[k];
    if e < 1 {
        return true;
    }
    let m = k % limits::BUCKET;
    if m == 0 {
        return true;
    }
    if at[k - 1] == 0 {
        return false;
    }
    let i = e as usize - 1;
    alone(table, place_at(table, i), at, k, m)
}

fn entries_fit(table: &[u8], at: &[u16]) -> bool
    requires { (length at.now ≡ index_size) × ((j : ℕ) → get_or at.now j 0 ≤ slots_of table.now) }
    ensures { result ≡ all index_size (entry_fits table.now at.now) }
{
    for k in 0..INDEX {
        if !entry_fits(table, at, k) {
            return false;
        }
    }
    true
}

// Whether a table is in form, where ours is our place. Each slot is looked at once, and then each bucket by itself.
pub fn in_form(table: &[u8], ours: &[u8]) -> bool
    ensures { result ≡ in_form table.now ours.now }
{
    let n = contact_table::slots(table);
    let mut at = [0u16; INDEX];
    if !collect(table, ours, n, &mut at) {
        return false;
    }
    entries_fit(table, &at)
}
