#![tactic(auto)]
// Lookups by value run inside, for programs that measure them: a step gives a value of 25 KB with an enum beside it, which doesn't cross to C.
// Nothing is claimed of what is answered but that each run is safe and ends; `lookup_value` has the contracts.
use lookup::{Answer, Candidate};
use lookup_value::Lookup;
use message::Fields;

// The size of each message that is handed in: 20 peers, each with an id of 34 bytes and an address of 12.
const SIZE: usize = 1042;

// The front of a slice, up to a place.
fn front(s: &[u8], end: usize) -> &[u8] {
    if s.len() <= end {
        return s;
    }
    &s[..end]
}

// The message that starts at a place, or the first.
fn message_at(bodies: &[u8], at: usize) -> &[u8] {
    if bodies.len() < at {
        return front(bodies, SIZE);
    }
    front(&bodies[at..], SIZE)
}

// Where the next message starts; after the last comes the first.
fn following(n: usize, at: usize) -> usize {
    if n < SIZE {
        return 0;
    }
    if n - SIZE < at {
        return 0;
    }
    if n - SIZE < at + SIZE {
        return 0;
    }
    at + SIZE
}

// The lookup after a candidate has sent a message.
fn heard_from(
    l: Lookup,
    c: Candidate,
    own: &[u8],
    ours: [u8; 32],
    body: &[u8],
    view: Fields,
) -> Lookup {
    let id = c.id;
    let n = c.len as usize;
    let s = l.reply(own, ours, front(&id, n), body, view);
    s.lookup
}

// The lookup after the candidate of rank i has.
fn heard(l: Lookup, i: usize, own: &[u8], ours: [u8; 32], body: &[u8], view: Fields) -> Lookup {
    let bytes = l.bytes;
    heard_from(
        l,
        flat_lookup::candidate_at(&bytes, i),
        own,
        ours,
        body,
        view,
    )
}

// The lookup after one step: next, and a reply of the peer that it names.
fn stepped(l: Lookup, own: &[u8], ours: [u8; 32], body: &[u8], view: Fields) -> Lookup {
    let s = l.next();
    let asked = s.lookup;
    let a = s.answer;
    match a {
        Ok(Answer::Ask(i)) => heard(asked, i, own, ours, body, view),
        Err(_) => asked,
        Ok(Answer::Complete(_)) => asked,
        Ok(Answer::CutShort(_)) => asked,
        Ok(Answer::Wait) => asked,
        Ok(Answer::Going) => asked,
    }
}

// The lookup after as many steps as there are messages.
fn filled(l: Lookup, own: &[u8], ours: [u8; 32], bodies: &[u8], view: Fields) -> Lookup {
    let mut k = l;
    for body in bodies.chunks(SIZE) {
        k = stepped(k, own, ours, body, view);
    }
    k
}

// The candidates after one step from l, added up over so many turns, each with another message.
fn turned(
    l: Lookup,
    own: &[u8],
    ours: [u8; 32],
    bodies: &[u8],
    view: Fields,
    turns: usize,
) -> usize {
    let n = bodies.len();
    let mut sum: usize = 0;
    let mut at: usize = 0;
    for i in 0..turns {
        let k = stepped(l, own, ours, message_at(bodies, at), view);
        let bytes = k.bytes;
        sum = std::num::wrapping_add_usize(sum, flat_lookup::count_in(&bytes));
        at = following(n, at);
    }
    sum
}

// Starts a lookup of `key` from a table of contacts, with up to 3 in flight; takes one step with each message of `before`; then takes `turns` times
// one step from there, with the messages of `bodies` by turns. Returns the sum of the numbers of candidates after those. A C program declares it so:
//
//     size_t starterbell_lookup_turns(const uint8_t *table, size_t table_length, const uint8_t *own, size_t own_length, const uint8_t *key,
//         size_t key_length, const uint8_t *before, size_t before_length, const uint8_t *bodies, size_t bodies_length, size_t turns);
#[unsafe(no_mangle)]
pub extern "C" fn starterbell_lookup_turns(
    table: &[u8],
    own: &[u8],
    key: &[u8],
    before: &[u8],
    bodies: &[u8],
    turns: usize,
) -> usize {
    let ours = sha256::hash(own);
    let s = Lookup::start(table, own, ours, key, 3);
    let l = s.lookup;
    let r = message::read(message_at(bodies, 0));
    let Ok(view) = r else {
        return 0;
    };
    let k = filled(l, own, ours, before, view);
    turned(k, own, ours, bodies, view, turns)
}
