#![tactic(auto)]
// What start, end and receive gave, kept in the memory that the host lends, for the functions that C and Rust programs link (crates/host).
ghost use Rattle.std.specs.Prelude.{◌≡◌};
ghost use Rattle.std.proofs.lemmas.List.Edits.{sets};
ghost use Rattle.refusal.specs.Refusal.{number_of};
ghost use Rattle.host_numbers.specs.Numbers.{told_code};
ghost use Rattle.host_state.specs.State.{box_after, changes_nothing, refused_framing, ending_code, ended_memory, answer_number, answer_length, answer_view, answer_framing};
ghost use Rattle.host_state.specs.State.{sighting_number, sighting_slot, sight_number, sight_slot, received_numbers, received_memory, nothing_taken};

use node::{Answer, Ended, Received, Started};
use refusal::Refusal;
use sightings::Sighting;
use stream::Framing;

// Keeps the box that a start gave.
pub fn keep_box(me: &mut [u8], s: Started) -> u32
    ensures { (result ≡ told_code s.told) × (me.new ≡ box_after me.old s) }
{
    let told = s.told;
    let p = s.me;
    match told {
        Ok(()) => {
            flat::put_peer(me, p);
            64
        }
        Err(r) => host_numbers::code_of(r),
    }
}

// Whether a refusal leaves a connection as it is.
fn changes_nothing(r: Refusal) -> bool
    ensures { result ≡ changes_nothing r }
{
    let n = refusal::number(r);
    if n <= 2 {
        return true;
    }
    n == 12
}

// A refusal on a connection: the framing that came back is written where the refusal changes it.
fn refuse_on(conn: &mut [u8], f: Framing, r: Refusal) -> u32
    ensures { (result ≡ number_of r) × (conn.new ≡ refused_framing conn.old f r) }
{
    if changes_nothing(r) {
        return host_numbers::code_of(r);
    }
    flat::put_framing(conn, f);
    host_numbers::code_of(r)
}

// Keeps what an end gave.
pub fn keep_end(conn: &mut [u8], e: Ended) -> u32
    ensures { (result ≡ ending_code e.answer) × (conn.new ≡ ended_memory conn.old e) }
{
    let c = e.conn;
    let f = c.framing;
    let a = e.answer;
    match a {
        Ok(()) => {
            flat::put_framing(conn, f);
            64
        }
        Err(r) => refuse_on(conn, f, r),
    }
}

fn sighting_number(s: Result<Sighting, Refusal>) -> usize
    ensures { result ≡ sighting_number s }
{
    match s {
        Ok(Sighting::Moved(_)) => 1,
        Ok(Sighting::Joined(_)) => 2,
        Ok(Sighting::Probe(_)) => 3,
        Err(_) => 4,
    }
}

fn sighting_slot(s: Result<Sighting, Refusal>) -> usize
    ensures { result ≡ sighting_slot s }
{
    match s {
        Ok(Sighting::Moved(i)) => i,
        Ok(Sighting::Joined(i)) => i,
        Ok(Sighting::Probe(h)) => h,
        Err(_) => 0,
    }
}

fn sight_number(s: Option<Result<Sighting, Refusal>>) -> usize
    ensures { result ≡ sight_number s }
{
    match s {
        None => 0,
        Some(seen) => sighting_number(seen),
    }
}

fn sight_slot(s: Option<Result<Sighting, Refusal>>) -> usize
    ensures { result ≡ sight_slot s }
{
    match s {
        None => 0,
        Some(seen) => sighting_slot(seen),
    }
}

fn answer_length(a: Result<Answer, Refusal>) -> usize
    ensures { result ≡ answer_length a }
{
    match a {
        Ok(Answer::Reply(n)) => n,
        Ok(Answer::Heard(n, _)) => n,
        Err(_) => 0,
        Ok(Answer::More) => 0,
    }
}

// Writes the view of a message that was heard, after the first four numbers.
fn put_heard(out: &mut [u64], a: Result<Answer, Refusal>)
    ensures { out.new ≡ sets out.old 4 (answer_view a) }
{
    match a {
        Ok(Answer::Reply(_)) => {}
        Ok(Answer::Heard(_, m)) => host_numbers::put_view(out, 4, m),
        Err(_) => {}
        Ok(Answer::More) => {}
    }
}

// Writes what a receive gave.
fn put_received(out: &mut [u64], got: Received)
    ensures { out.new ≡ received_numbers out.old got }
{
    let a = got.answer;
    let s = got.sight;
    let head = [got.taken, answer_length(a), sight_number(s), sight_slot(s)];
    host_numbers::put_numbers(out, 0, &head);
    put_heard(out, a);
}

// The number of an answer. The framing that came back is written, unless the answer is a refusal that changes nothing.
fn keep_framing(conn: &mut [u8], f: Framing, a: Result<Answer, Refusal>) -> u32
    ensures { (result ≡ answer_number a) × (conn.new ≡ answer_framing conn.old f a) }
{
    match a {
        Ok(Answer::Reply(_)) => {
            flat::put_framing(conn, f);
            65
        }
        Ok(Answer::Heard(_, _)) => {
            flat::put_framing(conn, f);
            66
        }
        Err(r) => refuse_on(conn, f, r),
        Ok(Answer::More) => {
            flat::put_framing(conn, f);
            64
        }
    }
}

// Keeps what a receive gave.
pub fn keep_received(conn: &mut [u8], out: &mut [u64], got: Received) -> u32
    ensures { (result ≡ answer_number got.answer) × (conn.new ≡ received_memory conn.old got) × (out.new ≡ received_numbers out.old got) }
{
    put_received(out, got);
    let c = got.conn;
    let f = c.framing;
    let a = got.answer;
    keep_framing(conn, f, a)
}

// A box or a connection in too few bytes: 0, and no byte is taken.
pub fn nothing_taken(out: &mut [u64]) -> u32
    ensures { (result ≡ 0) × (out.new ≡ nothing_taken out.old) }
{
    let numbers = [0usize, 0usize, 0usize, 0usize];
    host_numbers::put_numbers(out, 0, &numbers);
    0
}
