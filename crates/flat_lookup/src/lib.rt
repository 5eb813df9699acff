#![tactic(auto)]
// A lookup as plain bytes, which the steps change in place (lookup_in_place). specs/FlatLookup.antt has the layout.
ghost use Rattle.std.specs.Prelude.{◌≡◌, ◌<◌, get_or, drop};
ghost use Rattle.limits.specs.Limits.{place_size};
ghost use Rattle.flat_lookup.specs.FlatLookup.{bytes_at, candidate_in, lookup_in, candidate_at};

use lookup::Candidate;

// How many bytes a lookup has, and a candidate.
pub const SIZE: usize = CANDIDATES_AT + lookup::ROOM * CANDIDATE;

pub const CANDIDATE: usize = PLACE_AT + limits::PLACE;

// Where the numbers of a lookup stand, its key, its target and its first candidate.
pub const COUNT_AT: usize = 0;

pub const SIZE_AT: usize = 2;

pub const LIMIT_AT: usize = 3;

pub const TURNED_AT: usize = 4;

pub const KEY_AT: usize = 8;

pub const TARGET_AT: usize = KEY_AT + limits::MOST_KEY;

pub const CANDIDATES_AT: usize = TARGET_AT + limits::PLACE;

// Where the parts of a candidate stand, from its start on.
pub const MARK_AT: usize = 0;

pub const LEN_AT: usize = 1;

pub const ID_AT: usize = 2;

pub const PLACE_AT: usize = ID_AT + limits::MOST_ID;

// A byte of a slice, 0 past its end.
fn byte(s: &[u8], at: usize) -> u8
    ensures { (result ≡ get_or s.now at 0) × (result < 256) }
{
    if s.len() <= at {
        return 0;
    }
    s[at]
}

// A byte of a slice as a number, 0 past its end.
pub fn number(s: &[u8], at: usize) -> usize
    ensures { (result ≡ get_or s.now at 0) × (result < 256) }
{
    byte(s, at) as usize
}

// What a slice holds from a place on.
fn rest(s: &[u8], at: usize) -> &[u8]
    ensures { result.now ≡ drop at s.now }
{
    let len = s.len();
    if len < at {
        return &s[len..];
    }
    &s[at..]
}

// A place that stands in a slice.
fn place_in(s: &[u8], at: usize) -> [u8; 32]
    ensures { result ≡ bytes_at place_size s.now at }
{
    let mut place = [0u8; 32];
    octets::copy(&mut place, 0, rest(s, at));
    place
}

// The candidate at the start of a slice.
fn candidate_in(s: &[u8]) -> Candidate
    ensures { result ≡ candidate_in s.now }
{
    let mut id = [0u8; limits::MOST_ID];
    octets::copy(&mut id, 0, rest(s, ID_AT));
    let place = place_in(s, PLACE_AT);
    let mark = byte(s, MARK_AT);
    let len = byte(s, LEN_AT);
    Candidate {
        id,
        place,
        mark,
        len,
    }
}

// How many candidates there are.
pub fn count_in(bytes: &[u8]) -> usize
    ensures { result ≡ (lookup_in bytes.now).count }
{
    number(bytes, COUNT_AT) + number(bytes, COUNT_AT + 1) * 256
}

// The place that is looked for.
pub fn target_in(bytes: &[u8]) -> [u8; 32]
    ensures { result ≡ (lookup_in bytes.now).target }
{
    place_in(bytes, TARGET_AT)
}

// Whether someone was turned away.
pub fn turned_in(bytes: &[u8]) -> bool
    ensures { result ≡ (lookup_in bytes.now).turned }
{
    number(bytes, TURNED_AT) > 0
}

// The candidate of a rank, nobody from 256 on.
pub fn candidate_at(bytes: &[u8], rank: usize) -> Candidate
    ensures { result ≡ candidate_at bytes.now rank }
{
    if rank >= lookup::ROOM {
        return lookup_candidates::no_candidate();
    }
    candidate_in(rest(bytes, CANDIDATES_AT + rank * CANDIDATE))
}
