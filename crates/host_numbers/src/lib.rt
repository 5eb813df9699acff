#![tactic(auto)]
// Numbers in and out, for the functions that C and Rust programs link (crates/host): a refusal's number, yes and no, the numbers that go to `out`, and a
// message's view in eight of them.
ghost use Rattle.std.specs.Prelude.{◌≡◌, [], ◌∷◌, cond, ◌+◌, ◌≤◌, ◌<◌, get_or};
ghost use Rattle.std.proofs.lemmas.List.Edits.{sets};
ghost use Rattle.refusal.specs.Refusal.{number_of};
ghost use Rattle.flat.specs.Flat.{says_yes};
ghost use Rattle.host_numbers.specs.Numbers.{told_code, view_numbers, view_in};

use message::{Fields, Held};
use refusal::Refusal;
use wire::Span;

// The number of a refusal.
pub fn code_of(r: Refusal) -> u32
    ensures { result ≡ number_of r }
{
    refusal::number(r) as u32
}

// Any number but 0 says yes.
pub fn says_yes(n: u32) -> bool
    ensures { result ≡ says_yes n }
{
    n != 0
}

fn flag(b: bool) -> usize
    ensures { result ≡ cond b 1 0 }
{
    if b {
        return 1;
    }
    0
}

// How many of the wanted numbers fit from a place on.
fn room(len: usize, at: usize, wanted: usize) -> usize
    ensures { (result ≤ wanted) × (result < wanted → len ≤ at + result) × (0 < result → at + result ≤ len) }
{
    if len <= at {
        return 0;
    }
    if len - at < wanted {
        return len - at;
    }
    wanted
}

// Writes numbers from a place on, as far as out goes.
pub fn put_numbers(out: &mut [u64], at: usize, numbers: &[usize])
    ensures { out.new ≡ sets out.old at numbers.now }
{
    let n = room(out.len(), at, numbers.len());
    for i in 0..n {
        out[at + i] = numbers[i] as u64;
    }
}

// Writes one number at the start.
pub fn put_number(out: &mut [u64], number: usize)
    ensures { out.new ≡ sets out.old 0 (number ∷ []) }
{
    let numbers = [number];
    put_numbers(out, 0, &numbers);
}

// 64 for fine, or a refusal.
pub fn told_code(t: Result<(), Refusal>) -> u32
    ensures { result ≡ told_code t }
{
    match t {
        Ok(()) => 64,
        Err(r) => code_of(r),
    }
}

// Writes a view from a place on.
pub fn put_view(out: &mut [u64], at: usize, m: Fields)
    ensures { out.new ≡ sets out.old at (view_numbers m) }
{
    let numbers = [
        m.kind as usize,
        m.key.at,
        m.key.end,
        flag(m.held.there),
        m.held.key.at,
        m.held.key.end,
        m.held.value.at,
        m.held.value.end,
    ];
    put_numbers(out, at, &numbers);
}

// A number of a view, 0 past its end.
fn number(view: &[u64], at: usize) -> u64
    ensures { result ≡ get_or view.now at 0 }
{
    if view.len() <= at {
        return 0;
    }
    view[at]
}

fn position(view: &[u64], at: usize) -> usize
    ensures { result ≡ get_or view.now at 0 }
{
    number(view, at) as usize
}

// The view that numbers are.
pub fn view_in(view: &[u64]) -> Fields
    ensures { result ≡ view_in view.now }
{
    let kind = number(view, 0);
    let key = Span {
        at: position(view, 1),
        end: position(view, 2),
    };
    let there = number(view, 3) != 0;
    let record_key = Span {
        at: position(view, 4),
        end: position(view, 5),
    };
    let value = Span {
        at: position(view, 6),
        end: position(view, 7),
    };
    let held = Held {
        there,
        key: record_key,
        value,
    };
    Fields { kind, key, held }
}
