#![tactic(auto)]
// The contact table on flat bytes, read: the twenty nearest; its form and the parts of a contact are passed on. Every public function takes any bytes.
ghost use Rattle.std.specs.Prelude.{◌≡◌, true, false, List, ◌∷◌, ◌++◌, ◌+◌, ◌*◌, ◌≤◌, ltb, length, take, drop};
ghost use Rattle.limits.specs.Limits.{most_near};
ghost use Rattle.contacts.specs.Table.{slot_size, slot, place};
ghost use Rattle.contacts.specs.Near.{far, shown, insert, filled, nearest_of};
ghost use Rattle.contacts.specs.Inner.{kept, Held};

pub use contact_form::in_form;
use contact_table::PLACE_AT;
pub use contact_table::{
    SLOT, address_count, address_of, doubtful, id_of, mark_of, place_of, slot_of, slots,
};

// The place of the farthest in an answer.
const LAST: usize = limits::MOST_NEAR - 1;

fn place_at(table: &[u8], i: usize) -> &[u8]
    requires { i * slot_size + slot_size ≤ length table.now }
    ensures { (result.now ≡ place (slot table.now i)) × (length result.now ≡ 32) }
{
    let a = i * SLOT + PLACE_AT;
    let e = a + limits::PLACE;
    &table[a..e]
}

// Whether a slot that stands in the table whole holds a contact that isn't doubtful.
fn shown_at(table: &[u8], i: usize) -> bool
    requires { i * slot_size + slot_size ≤ length table.now }
    ensures { result ≡ shown (slot table.now i) }
{
    let a = i * SLOT;
    if table[a] == 0 {
        return false;
    }
    table[a + 1] == 0
}

// The slots nearest to a place, nearest first: the first n of at.
#[derive(Drop)]
pub struct Closest {
    pub at: [usize; limits::MOST_NEAR],
    pub n: usize,
}

// Whether the first byte already shows that slot a is farther from the target than slot b.
fn farther(table: &[u8], target: &[u8], a: usize, b: usize) -> bool
    requires { (length target.now ≡ 32) × (a * slot_size + slot_size ≤ length table.now) × (b * slot_size + slot_size ≤ length table.now) }
    ensures { result ≡ true → ltb (far table.now target.now a) (far table.now target.now b) ≡ false }
{
    let p = place_at(table, a);
    let q = place_at(table, b);
    let first = target[0];
    let far = p[0] ^ first;
    let near = q[0] ^ first;
    if near < far {
        return true;
    }
    false
}

// Whether slot a is nearer to the target than slot b. The first byte decides for most.
fn closer(table: &[u8], target: &[u8], a: usize, b: usize) -> bool
    requires { (length target.now ≡ 32) × (a * slot_size + slot_size ≤ length table.now) × (b * slot_size + slot_size ≤ length table.now) }
    ensures { result ≡ ltb (far table.now target.now a) (far table.now target.now b) }
{
    let p = place_at(table, a);
    let q = place_at(table, b);
    let t = target[0];
    let x = p[0] ^ t;
    let y = q[0] ^ t;
    if x < y {
        return true;
    }
    if y < x {
        return false;
    }
    place::nearer(target, p, q)
}

// How many of the n nearest so far are no farther than slot k. By halves, so that no order of the slots makes it slow.
fn rank(table: &[u8], target: &[u8], at: &[usize; limits::MOST_NEAR], n: usize, k: usize) -> usize
    requires { Held table.now target.now at.now n k }
    ensures { (result ≤ n) × (insert (far table.now target.now) k (take n at.now) ≡ take result (take n at.now) ++ k ∷ drop result (take n at.now)) }
{
    let mut low: usize = 0;
    let mut high = n;
    while low < high {
        let mid = (low + high) / 2;
        let s = at[mid];
        if closer(table, target, k, s) {
            high = mid;
            continue;
        }
        low = mid + 1;
    }
    low
}

// Slot k at place p of at; what stood there and after it moves up by one, and the last falls out.
fn put(at: &mut [usize; limits::MOST_NEAR], p: usize, k: usize)
    requires { (p ≤ most_near) × (length at.old ≡ most_near) }
    ensures { at.new ≡ take most_near (take p at.old ++ k ∷ drop p at.old) }
{
    let mut x = k;
    for i in p..limits::MOST_NEAR {
        let y = at[i];
        at[i] = x;
        x = y;
    }
}

// Slot k, which is shown, into the nearest of the slots below it.
fn add(table: &[u8], target: &[u8], at: &mut [usize; limits::MOST_NEAR], n: usize, k: usize)
    requires { Held table.now target.now at.old n k }
    ensures { at.new ≡ filled (kept table.now target.now (k + 1)) }
{
    let p = rank(table, target, at, n, k);
    put(at, p, k);
}

// The same, where most slots are seen to be too far by one look at the farthest that is kept, with no call. Returns how many are kept.
fn keep(
    table: &[u8],
    target: &[u8],
    at: &mut [usize; limits::MOST_NEAR],
    n: usize,
    k: usize,
) -> usize
    requires { Held table.now target.now at.old n k }
    ensures { (result ≡ length (kept table.now target.now (k + 1))) × (at.new ≡ filled (kept table.now target.now (k + 1))) }
{
    if n < limits::MOST_NEAR {
        add(table, target, at, n, k);
        return n + 1;
    }
    let last = at[LAST];
    if farther(table, target, k, last) {
        return limits::MOST_NEAR;
    }
    if closer(table, target, k, last) {
        add(table, target, at, n, k);
    }
    limits::MOST_NEAR
}

// The whole pass, over a target that is a place.
fn pass(table: &[u8], target: &[u8]) -> Closest
    requires { length target.now ≡ 32 }
    ensures { result ≡ nearest_of table.now target.now }
{
    let end = slots(table);
    let mut at = [0usize; limits::MOST_NEAR];
    let mut n: usize = 0;
    for k in 0..end {
        if shown_at(table, k) {
            n = keep(table, target, &mut at, n, k);
        }
    }
    Closest { at, n }
}

// The twenty slots of a table that are nearest to a target, nearest first, doubtful contacts passed over; all where fewer are left, and none where the
// target isn't a place.
pub fn nearest(table: &[u8], target: &[u8]) -> Closest
    ensures { result ≡ nearest_of table.now target.now }
{
    if target.len() != limits::PLACE {
        let at = [0usize; limits::MOST_NEAR];
        return Closest { at, n: 0 };
    }
    pass(table, target)
}
