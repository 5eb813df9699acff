#![tactic(auto)]
// What a call on contacts, records, recipes or messages answers, as a number and the numbers that go to `out`, for the functions that C and Rust programs link (crates/host).
ghost use Rattle.std.specs.Prelude.{◌≡◌};
ghost use Rattle.host_numbers.specs.Numbers.{told_code};
ghost use Rattle.contact_calls.specs.Calls.{seen_number, settle_number, remove_number, doubt_number};
ghost use Rattle.host_answers.specs.Answers.{seen_numbers, nearest_numbers, put_number, find_number, find_numbers, read_number, read_numbers};
ghost use Rattle.std.proofs.lemmas.List.Edits.{sets};
ghost use Rattle.host_answers.specs.Answers.{fault_numbers, spans_number, spans_numbers, setpoints_number, recipe_number, recipe_numbers};
ghost use Rattle.host_answers.specs.Answers.{entry_from, later_of, address_from, part_number, peer_numbers, address_numbers, write_number, write_numbers};

use contact_calls::{Settled, Sighting};
use host_calls::Nearby;
use message::Fields;
use recipe::Breach;
use recipe_fields::Spans;
use records::Held;
use refusal::Refusal;
use wire::Span;

// ---- contacts

// 64 moved, 65 joined, 13 with the head of the bucket, or another refusal; the slot goes to out.
pub fn seen_answer(out: &mut [u64], o: Result<Sighting, Refusal>) -> u32
    ensures { (result ≡ seen_number o) × (out.new ≡ seen_numbers out.old o) }
{
    match o {
        Ok(Sighting::Moved(i)) => {
            host_numbers::put_number(out, i);
            64
        }
        Ok(Sighting::Joined(i)) => {
            host_numbers::put_number(out, i);
            65
        }
        Ok(Sighting::Probe(h)) => {
            host_numbers::put_number(out, h);
            host_numbers::code_of(Refusal::BucketFull)
        }
        Err(r) => host_numbers::code_of(r),
    }
}

// 64 the head is kept, 65 the two are swapped, or a refusal.
pub fn settle_answer(o: Result<Settled, Refusal>) -> u32
    ensures { result ≡ settle_number o }
{
    match o {
        Ok(Settled::Kept) => 64,
        Ok(Settled::Swapped) => 65,
        Err(r) => host_numbers::code_of(r),
    }
}

// 64 gone, or a refusal.
pub fn remove_answer(o: Result<(), Refusal>) -> u32
    ensures { result ≡ remove_number o }
{
    match o {
        Ok(()) => 64,
        Err(r) => host_numbers::code_of(r),
    }
}

// 64 marked, or a refusal.
pub fn doubt_answer(o: Result<(), Refusal>) -> u32
    ensures { result ≡ doubt_number o }
{
    match o {
        Ok(()) => 64,
        Err(r) => host_numbers::code_of(r),
    }
}

// 64, or a refusal; how many there are and their slots go to out.
pub fn nearest_answer(out: &mut [u64], n: Nearby) -> u32
    ensures { (result ≡ told_code n.told) × (out.new ≡ nearest_numbers out.old n) }
{
    let told = n.told;
    let closest = n.closest;
    let at = closest.at;
    match told {
        Ok(()) => {
            host_numbers::put_number(out, closest.n);
            host_numbers::put_numbers(out, 1, &at);
            64
        }
        Err(r) => host_numbers::code_of(r),
    }
}

// ---- records

// 64 taken, or a refusal.
pub fn put_answer(a: Result<(), Refusal>) -> u32
    ensures { result ≡ put_number a }
{
    match a {
        Ok(()) => 64,
        Err(r) => host_numbers::code_of(r),
    }
}

// 64 held, and where it starts and ends goes to out; 65 not held; or a refusal.
pub fn find_answer(out: &mut [u64], f: Result<Option<Held>, Refusal>) -> u32
    ensures { (result ≡ find_number f) × (out.new ≡ find_numbers out.old f) }
{
    match f {
        Ok(Some(held)) => {
            let ends = [held.start, held.end];
            host_numbers::put_numbers(out, 0, &ends);
            64
        }
        Ok(None) => 65,
        Err(r) => host_numbers::code_of(r),
    }
}

// ---- recipes

// 9, and which rule is broken, in which part and at which setpoint goes to out.
fn broken_recipe(out: &mut [u64], w: Breach) -> u32
    ensures { (result ≡ 9) × (out.new ≡ sets out.old 0 (fault_numbers w)) }
{
    let numbers = [
        recipe::rule_number(w.rule),
        recipe::part_number(w.part),
        w.setpoint,
    ];
    host_numbers::put_numbers(out, 0, &numbers);
    host_numbers::code_of(Refusal::BrokenRecipe)
}

// 64, and where the fields stand goes to out; or 9.
pub fn recipe_read_answer(out: &mut [u64], s: Result<Spans, Breach>) -> u32
    ensures { (result ≡ spans_number s) × (out.new ≡ spans_numbers out.old s) }
{
    match s {
        Ok(s) => {
            let numbers = [
                s.format,
                s.core,
                s.wrap,
                s.trailer,
                s.cores,
                s.wraps,
                s.sequence as usize,
            ];
            host_numbers::put_numbers(out, 0, &numbers);
            64
        }
        Err(why) => broken_recipe(out, why),
    }
}

// 64 where it is a recipe, or 9.
pub fn setpoints_answer(is: bool) -> u32
    ensures { result ≡ setpoints_number is }
{
    if is {
        return 64;
    }
    host_numbers::code_of(Refusal::BrokenRecipe)
}

// 64, and the length goes to out; or 9.
pub fn recipe_write_answer(out: &mut [u64], w: Result<usize, Breach>) -> u32
    ensures { (result ≡ recipe_number w) × (out.new ≡ recipe_numbers out.old w) }
{
    match w {
        Ok(n) => {
            host_numbers::put_number(out, n);
            64
        }
        Err(why) => broken_recipe(out, why),
    }
}

// ---- messages

// 64, and the view goes to out; or a refusal.
pub fn read_answer(out: &mut [u64], r: Result<Fields, Refusal>) -> u32
    ensures { (result ≡ read_number r) × (out.new ≡ read_numbers out.old r) }
{
    match r {
        Ok(m) => {
            host_numbers::put_view(out, 0, m);
            64
        }
        Err(why) => host_numbers::code_of(why),
    }
}

// The next entry of a list of peers: closerPeers for list 0, providerPeers for any other number.
pub fn next_entry(body: &[u8], list: u32, from: usize) -> Option<Span>
    ensures { result ≡ entry_from body.now list from }
{
    if host_numbers::says_yes(list) {
        return message::provider_peer(body, from);
    }
    message::closer_peer(body, from)
}

// 64, and to out go where the entry and its id are, its connection, how many addresses it has and where the first eight are; 65 where there is none.
pub fn peer_answer(body: &[u8], out: &mut [u64], f: Option<Span>) -> u32
    ensures { (result ≡ part_number f) × (out.new ≡ peer_numbers out.old body.now f) }
{
    match f {
        Some(p) => {
            let w = peer_walk::walk(body, p);
            let first = [
                p.at,
                p.end,
                w.id.at,
                w.id.end,
                w.connection as usize,
                w.count,
            ];
            let places = w.places;
            host_numbers::put_numbers(out, 0, &first);
            host_numbers::put_numbers(out, first.len(), &places);
            64
        }
        None => 65,
    }
}

// The later of two positions.
fn later(a: usize, b: usize) -> usize
    ensures { result ≡ later_of a b }
{
    if a < b {
        return b;
    }
    a
}

// The next address of the entry at start up to end.
pub fn next_address(body: &[u8], start: usize, end: usize, from: usize) -> Option<Span>
    ensures { result ≡ address_from body.now start end from }
{
    let at = later(start, from);
    message::peer_address(body, Span { at: start, end }, at)
}

// 64, and where it starts and ends goes to out; 65 where there is none.
pub fn address_answer(out: &mut [u64], f: Option<Span>) -> u32
    ensures { (result ≡ part_number f) × (out.new ≡ address_numbers out.old f) }
{
    match f {
        Some(p) => {
            let ends = [p.at, p.end];
            host_numbers::put_numbers(out, 0, &ends);
            64
        }
        None => 65,
    }
}

// 64, and the length goes to out; or a refusal.
pub fn write_answer(out: &mut [u64], w: Result<usize, Refusal>) -> u32
    ensures { (result ≡ write_number w) × (out.new ≡ write_numbers out.old w) }
{
    match w {
        Ok(n) => {
            host_numbers::put_number(out, n);
            64
        }
        Err(r) => host_numbers::code_of(r),
    }
}
