#![tactic(auto)]
// The slots of the contact table, on flat bytes: how many there are, and the parts of a contact. Every public function takes any bytes.
ghost use Rattle.std.specs.Prelude.{◌≡◌, ◌+◌, ◌*◌, ◌<◌, ◌≤◌, min, length, get_or, take, drop};
ghost use Rattle.contact_table.specs.Table.{slot_size, slots_of, slot, mark, doubtful, place};
ghost use Rattle.contact_table.specs.Contact.{entry_id, entry_address, entry_count};

// Where the parts of a slot stand: the mark of doubt, the length of the id, the number of addresses and their lengths, place, id and addresses. specs/Table.antt
// has the same.
pub const DOUBT_AT: usize = 1;

pub const ID_SIZE_AT: usize = 2;

pub const COUNT_AT: usize = 3;

pub const SIZES_AT: usize = 4;

pub const PLACE_AT: usize = SIZES_AT + limits::MOST_ADDRESSES;

pub const ID_AT: usize = PLACE_AT + limits::PLACE;

pub const ADDRESSES_AT: usize = ID_AT + limits::MOST_ID;

// The bytes of a slot.
pub const SLOT: usize = ADDRESSES_AT + limits::ADDRESSES_SIZE;

// How many whole slots a table has, at most 5,120.
pub fn slots(table: &[u8]) -> usize
    ensures { result ≡ slots_of table.now }
{
    let n = table.len() / SLOT;
    if n < limits::MOST_CONTACTS {
        return n;
    }
    limits::MOST_CONTACTS
}

// A slot that stands in the table whole.
fn slot_at(table: &[u8], i: usize) -> &[u8]
    requires { i * slot_size + slot_size ≤ length table.now }
    ensures { (result.now ≡ slot table.now i) × (length result.now ≡ slot_size) }
{
    let a = i * SLOT;
    let e = a + SLOT;
    &table[a..e]
}

// Slot i of a table: short, or empty, where the table ends before its end.
pub fn slot_of(table: &[u8], i: usize) -> &[u8]
    ensures { result.now ≡ slot table.now i }
{
    let n = table.len();
    let whole = n / SLOT;
    if i < whole {
        return slot_at(table, i);
    }
    if whole < i {
        return &table[n..];
    }
    let a = i * SLOT;
    &table[a..]
}

// A part of s from a on, of at most n bytes: as many as s has.
fn up_to(s: &[u8], a: usize, n: usize) -> &[u8]
    requires { a + n ≤ 1000 }
    ensures { result.now ≡ take n (drop a s.now) }
{
    let len = s.len();
    if len < a {
        return &s[len..];
    }
    if len - a < n {
        return &s[a..];
    }
    let e = a + n;
    &s[a..e]
}

// The byte at a place of s, or 0 past its end.
fn byte(s: &[u8], i: usize) -> usize
    ensures { (result ≡ get_or s.now i 0) × (result < 256) }
{
    if i < s.len() {
        return s[i] as usize;
    }
    0
}

// The smaller of a number and a limit.
fn at_most(limit: usize, n: usize) -> usize
    ensures { result ≡ min n limit }
{
    if n < limit {
        return n;
    }
    limit
}

// Slot i's byte 0: its rank in its bucket plus 1, or 0 where it is free.
pub fn mark_of(table: &[u8], i: usize) -> usize
    ensures { result ≡ mark (slot table.now i) }
{
    byte(slot_of(table, i), 0)
}

// Whether the contact in slot i is marked as doubtful.
pub fn doubtful(table: &[u8], i: usize) -> bool
    ensures { result ≡ doubtful (slot table.now i) }
{
    byte(slot_of(table, i), DOUBT_AT) != 0
}

pub fn place_of(table: &[u8], i: usize) -> &[u8]
    ensures { result.now ≡ place (slot table.now i) }
{
    up_to(slot_of(table, i), PLACE_AT, limits::PLACE)
}

// The id of slot i, its number of addresses, and its address k, each cut at its limit.
pub fn id_of(table: &[u8], i: usize) -> &[u8]
    ensures { result.now ≡ entry_id (slot table.now i) }
{
    let s = slot_of(table, i);
    up_to(s, ID_AT, at_most(limits::MOST_ID, byte(s, ID_SIZE_AT)))
}

pub fn address_count(table: &[u8], i: usize) -> usize
    ensures { result ≡ entry_count (slot table.now i) }
{
    at_most(limits::MOST_ADDRESSES, byte(slot_of(table, i), COUNT_AT))
}

pub fn address_of(table: &[u8], i: usize, k: usize) -> &[u8]
    ensures { result.now ≡ entry_address (slot table.now i) k }
{
    let s = slot_of(table, i);
    if limits::MOST_ADDRESSES <= k {
        let len = s.len();
        return &s[len..];
    }
    up_to(
        s,
        ADDRESSES_AT + k * limits::MOST_ADDRESS,
        at_most(limits::MOST_ADDRESS, byte(s, SIZES_AT + k)),
    )
}
