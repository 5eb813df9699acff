#![tactic(auto)]
// Runs lookups against simulated networks of 40 to 1,000 peers and writes what came of each. An honest peer names the 20 nearest of those that it
// knows: of each of its buckets 20 peers. Some networks have peers that are silent, that answer with another type, or that name 20 peers which
// nobody has. The last example is that of RULES, Examples: 256 candidates, and a 257th marks.
ghost use Rattle.std.specs.Prelude.{◌<◌, ◌≤◌};

use lookup::{Answer, Candidate};
use lookup_marks::Ranks;
use lookup_value::Lookup;
use refusal::Refusal;
use std::io;
use std::io::{Print, Stdout};

// How a peer behaves, and a network that has such peers.
const HONEST: u8 = 0;

const SILENT: u8 = 1;

const LYING: u8 = 2;

const CHATTY: u8 = 3;

// The third byte of the id of a peer that is there, of one that a chatty peer made up, and of a newcomer in the last example.
const REAL: u8 = 1;

const INVENTED: u8 = 2;

const NEW: u8 = 3;

// The most peers of a network, the number that none of them has, and the length of a reply with 20 entries of 7 bytes.
const MOST: usize = 1000;

const NOBODY: usize = 1000;

const REPLY: usize = 142;

fn say(out: Stdout, text: &[u8]) -> io::Result<()> {
    out.write_all(text)
}

fn say_number(out: Stdout, n: usize) -> io::Result<()> {
    out.print(n)
}

// Our own id, and its place.
fn our_id() -> [u8; 3] {
    [255, 255, 255]
}

fn our_place() -> [u8; 32] {
    let me = our_id();
    sha256::hash(&me)
}

// The id of the peer of a number: two bytes of it, and what sort of peer it is.
fn id_of(k: usize, sort: u8) -> [u8; 3] {
    let high = (k / 256) % 256;
    let low = k % 256;
    [high as u8, low as u8, sort]
}

fn number_of(high: u8, low: u8) -> usize
    ensures { result < 65536 }
{
    (high as usize) * 256 + (low as usize)
}

// A table of contacts that holds the peer 7 alone.
fn small_table() -> [u8; 616] {
    let id = id_of(7, REAL);
    let place = sha256::hash(&id);
    let mut table = [0u8; 616];
    table[0] = 1;
    table[2] = 3;
    octets::copy(&mut table, 8, &place);
    octets::copy(&mut table, 40, &id);
    table
}

// ---- the places of all peers, side by side

// Where the place of a peer starts.
fn start_of(k: usize) -> usize {
    if k > MOST {
        return 0;
    }
    32 * k
}

fn front(s: &[u8], end: usize) -> &[u8] {
    if s.len() <= end {
        return s;
    }
    &s[..end]
}

fn place_at(places: &[u8], k: usize) -> &[u8] {
    let at = start_of(k);
    if places.len() < at {
        return front(places, 0);
    }
    front(&places[at..], 32)
}

fn fill_places(places: &mut [u8]) {
    for k in 0..MOST {
        let id = id_of(k, REAL);
        let p = sha256::hash(&id);
        octets::copy(places, start_of(k), &p);
    }
}

// ---- whom a peer knows

// Whether the peer a comes before the peer b, which may be nobody.
fn comes_before(places: &[u8], target: [u8; 32], a: usize, b: usize) -> bool {
    if b >= NOBODY {
        return true;
    }
    place::nearer(&target, place_at(places, a), place_at(places, b))
}

// The peer k at its place among the nearest.
fn put_peer(near: &mut [usize], places: &[u8], target: [u8; 32], k: usize) {
    let mut moving = k;
    for x in near.iter_mut() {
        if comes_before(places, target, moving, *x) {
            std::mem::swap(x, &mut moving);
        }
    }
}

// The bucket of the peer k for another; 256 where they are one, or where the other is nobody.
fn bucket_for(places: &[u8], other: usize, k: usize) -> usize
    ensures { result ≤ 256 }
{
    let b = place::bucket(place_at(places, k), place_at(places, other));
    if b > 256 {
        return 256;
    }
    b
}

// Whether a peer knows one of a bucket of which it knows so many already. Nobody knows all.
fn has_room(other: usize, bucket: usize, many: u8) -> bool {
    if other >= NOBODY {
        return true;
    }
    if bucket >= 256 {
        return false;
    }
    many < 20
}

fn one_more(many: u8) -> u8 {
    if many < 20 {
        return many + 1;
    }
    many
}

// The 20 nearest to the target of those that a peer knows among the first n; of all n, where it is nobody.
fn nearest_known(places: &[u8], n: usize, target: [u8; 32], other: usize) -> [usize; 20] {
    let mut known = [0u8; 257];
    let mut near = [NOBODY; 20];
    for k in 0..n {
        let b = bucket_for(places, other, k);
        if has_room(other, b, known[b]) {
            known[b] = one_more(known[b]);
            put_peer(&mut near, places, target, k);
        }
    }
    near
}

// ---- what stands in a lookup

fn target_of(l: Lookup) -> [u8; 32] {
    let bytes = l.bytes;
    flat_lookup::target_in(&bytes)
}

fn count_of(l: Lookup) -> usize {
    let bytes = l.bytes;
    flat_lookup::count_in(&bytes)
}

fn turned_away(l: Lookup) -> bool {
    let bytes = l.bytes;
    flat_lookup::turned_in(&bytes)
}

// ---- what peers answer

// How the peer of a number and sort behaves in a network.
fn behaviour(network: u8, k: usize, sort: u8) -> u8 {
    if sort != REAL {
        return SILENT;
    }
    if network == SILENT {
        if k % 4 == 1 {
            return SILENT;
        }
    }
    if network == LYING {
        if k % 5 == 3 {
            return LYING;
        }
    }
    if network == CHATTY {
        if k % 3 == 0 {
            return CHATTY;
        }
    }
    HONEST
}

// An entry of closerPeers, written at a place of the buffer.
fn put_entry(buf: &mut [u8], at: usize, id: [u8; 3]) {
    let entry = [0x42u8, 5, 0x0a, 3, id[0], id[1], id[2]];
    octets::copy(buf, at, &entry);
}

// Whom the peer k names in entry j: the peer x, itself where that is nobody, or one that isn't there.
fn named(k: usize, j: usize, x: usize, chatty: bool) -> [u8; 3]
    requires { (k < 65536) × (j < 21) }
{
    if chatty {
        return id_of(k * 21 + j, INVENTED);
    }
    if x >= NOBODY {
        return id_of(k, REAL);
    }
    id_of(x, REAL)
}

// The FIND_NODE reply of peer k.
fn reply_of(places: &[u8], n: usize, target: [u8; 32], k: usize, chatty: bool) -> [u8; 142]
    requires { k < 65536 }
{
    let near = nearest_known(places, n, target, k);
    let mut body = [0u8; REPLY];
    body[0] = 8;
    body[1] = 4;
    for j in 0..20 {
        let x = near[j];
        put_entry(&mut body, 2 + 7 * j, named(k, j, x, chatty));
    }
    body
}

// The lookup after a message of the peer with this id.
fn hand_in(l: Lookup, id: [u8; 3], body: &[u8]) -> Lookup {
    let me = our_id();
    let r = message::read(body);
    let Ok(view) = r else {
        return l;
    };
    let s = l.reply(&me, our_place(), &id, body, view);
    s.lookup
}

// The lookup after a candidate has behaved as it does.
fn behaved(l: Lookup, c: Candidate, network: u8, places: &[u8], n: usize) -> Lookup {
    let me = our_id();
    let full = c.id;
    let high = full[0];
    let low = full[1];
    let sort = full[2];
    let id = [high, low, sort];
    let k = number_of(high, low);
    let b = behaviour(network, k, sort);
    if b == SILENT {
        let s = l.failure(&me, our_place(), &id);
        return s.lookup;
    }
    if b == LYING {
        let body = [8u8, 5];
        return hand_in(l, id, &body);
    }
    let body = reply_of(places, n, target_of(l), k, b == CHATTY);
    hand_in(l, id, &body)
}

// ---- a lookup from start to end

// The farthest candidate in flight, or the nearest of all.
fn last_in_flight(l: Lookup) -> Candidate {
    let bytes = l.bytes;
    for i in (1..256).rev() {
        let c = flat_lookup::candidate_at(&bytes, i);
        if c.mark == lookup_marks::IN_FLIGHT {
            return c;
        }
    }
    flat_lookup::candidate_at(&bytes, 0)
}

// Over: 1 complete, 2 cut short; else 0.
fn over_of(a: Result<Answer, Refusal>) -> u8 {
    match a {
        Ok(Answer::Complete(_)) => 1,
        Ok(Answer::CutShort(_)) => 2,
        Err(_) => 0,
        Ok(Answer::Wait) => 0,
        Ok(Answer::Ask(_)) => 0,
        Ok(Answer::Going) => 0,
    }
}

fn sent_of(a: Result<Answer, Refusal>) -> usize {
    match a {
        Ok(Answer::Complete(n)) => n,
        Ok(Answer::CutShort(n)) => n,
        Err(_) => 0,
        Ok(Answer::Wait) => 0,
        Ok(Answer::Ask(_)) => 0,
        Ok(Answer::Going) => 0,
    }
}

fn waits(a: Result<Answer, Refusal>) -> bool {
    match a {
        Ok(Answer::Complete(_)) => false,
        Ok(Answer::CutShort(_)) => false,
        Err(_) => false,
        Ok(Answer::Wait) => true,
        Ok(Answer::Ask(_)) => false,
        Ok(Answer::Going) => false,
    }
}

// How far a lookup is, as over_of has it.
fn state_of(l: Lookup) -> u8 {
    let s = l.next();
    let a = s.answer;
    over_of(a)
}

// One turn: whom next names is asked; where there is to wait, the farthest that was asked behaves.
fn turn(l: Lookup, network: u8, places: &[u8], n: usize) -> Lookup {
    let s = l.next();
    let k = s.lookup;
    let a = s.answer;
    if !waits(a) {
        return k;
    }
    behaved(k, last_in_flight(k), network, places, n)
}

// Turns until the lookup is over, or 2,000.
fn run_on(first: Lookup, network: u8, places: &[u8], n: usize) -> Lookup {
    let mut l = first;
    for _ in 0..2000 {
        if state_of(l) != 0 {
            return l;
        }
        l = turn(l, network, places, n);
    }
    l
}

// ---- what came of it

// Whether the peer k is among the candidates that were found.
fn was_found(l: Lookup, found: Ranks, k: usize) -> bool {
    let bytes = l.bytes;
    found.at.iter().take(found.n).any(|r| {
        let id = flat_lookup::candidate_at(&bytes, *r).id;
        id[2] == REAL && number_of(id[0], id[1]) == k
    })
}

// How many of the true twenty nearest peers were found.
fn true_ones(l: Lookup, found: Ranks, near: [usize; 20]) -> usize {
    near.iter().filter(|k| was_found(l, found, **k)).count()
}

fn say_state(out: Stdout, state: u8) -> io::Result<()> {
    if state == 1 {
        return say(out, b"complete");
    }
    if state == 2 {
        return say(out, b"cut short");
    }
    say(out, b"not over")
}

// Writes how a lookup ended.
fn report(out: Stdout, l: Lookup, near: [usize; 20]) -> io::Result<()> {
    let s = l.next();
    let a = s.answer;
    let found = s.found;
    say_state(out, over_of(a))?;
    say(out, b", found ")?;
    say_number(out, found.n)?;
    say(out, b", of the true twenty ")?;
    say_number(out, true_ones(l, found, near))?;
    say(out, b", requests ")?;
    say_number(out, sent_of(a))?;
    say(out, b", candidates ")?;
    say_number(out, count_of(l))?;
    say(out, b"\n")
}

// A lookup of a key of one byte on a network of n peers.
fn look_up(out: Stdout, places: &[u8], n: usize, key: u8, network: u8) -> io::Result<()> {
    let me = our_id();
    let table = small_table();
    let k = [key];
    let s = Lookup::start(&table, &me, our_place(), &k, 3);
    let l = run_on(s.lookup, network, places, n);
    say_number(out, n)?;
    say(out, b" peers: ")?;
    report(out, l, nearest_known(places, n, target_of(l), NOBODY))
}

// ---- RULES, Examples: "256 candidates: a 257th marks."

// A FIND_NODE reply that names 20 peers, of numbers from n on.
fn newcomers(n: usize) -> [u8; 142]
    requires { n ≤ 300 }
{
    let mut body = [0u8; REPLY];
    body[0] = 8;
    body[1] = 4;
    for j in 0..20 {
        put_entry(&mut body, 2 + 7 * j, id_of(n + j, NEW));
    }
    body
}

// The candidate answers with 20 peers.
fn answers(l: Lookup, c: Candidate, n: usize) -> Lookup
    requires { n ≤ 300 }
{
    let full = c.id;
    let id = [full[0], full[1], full[2]];
    let body = newcomers(n);
    hand_in(l, id, &body)
}

// The next peer is asked, and names 20 of numbers from n on.
fn fill_up(l: Lookup, n: usize) -> Lookup
    requires { n ≤ 300 }
{
    let s = l.next();
    let asked = s.lookup;
    answers(asked, last_in_flight(asked), n)
}

fn say_filled(out: Stdout, l: Lookup) -> io::Result<()> {
    say(out, b"candidates ")?;
    say_number(out, count_of(l))?;
    if turned_away(l) {
        return say(out, b", someone turned away\n");
    }
    say(out, b", nobody turned away\n")
}

// Twelve times 20 newcomers, and 15 more.
fn filled(first: Lookup) -> Lookup {
    let mut l = first;
    for k in 0..12 {
        l = fill_up(l, 20 * k);
    }
    fill_up(l, 235)
}

fn fill(out: Stdout) -> io::Result<()> {
    let me = our_id();
    let table = small_table();
    let k = [9u8];
    let s = Lookup::start(&table, &me, our_place(), &k, 3);
    let l = filled(s.lookup);
    say_filled(out, l)?;
    say_filled(out, fill_up(l, 236))
}

fn main(rt: HostRuntime) -> io::Result<()> {
    let out = rt.stdout();
    let mut places = [0u8; 32000];
    fill_places(&mut places);
    look_up(out, &places, 40, 0, HONEST)?;
    look_up(out, &places, 200, 1, HONEST)?;
    look_up(out, &places, 1000, 2, HONEST)?;
    look_up(out, &places, 1000, 3, HONEST)?;
    look_up(out, &places, 40, 4, SILENT)?;
    look_up(out, &places, 1000, 5, SILENT)?;
    look_up(out, &places, 40, 6, LYING)?;
    look_up(out, &places, 1000, 7, LYING)?;
    look_up(out, &places, 40, 8, CHATTY)?;
    look_up(out, &places, 1000, 9, CHATTY)?;
    fill(out)
}
