#![tactic(auto)]
// A peer of a message, read in one pass: where its id is, its connection, how many addresses it has, and where the first of them are.
ghost use Rattle.std.specs.Prelude.{◌≡◌, take};
ghost use Rattle.peer_walk.specs.PeerWalk.{walked_of};
ghost use Rattle.peer_walk.specs.Inner.{found_of, walked_from};

use wire::{Field, Span};

// How many addresses are told at once, and in how many numbers: where each starts and where it ends.
pub const FIRST: usize = 8;

pub const PLACES: usize = 16;

// The numbers of the fields.
const ID: u64 = 1;

const ADDRESS: u64 = 2;

const CONNECTION: u64 = 3;

// Where the id is, the connection, how many addresses there are, and where the first eight start and end, one after another, with zeros after them.
#[derive(Drop)]
pub struct Walked {
    pub id: Span,
    pub connection: u64,
    pub count: usize,
    pub places: [usize; PLACES],
}

// For message, which keeps its own to itself: the front of a slice, up to a place.
fn front(s: &[u8], end: usize) -> &[u8]
    ensures { result.now ≡ take end s.now }
{
    if s.len() <= end {
        return s;
    }
    &s[..end]
}

// What was read of a peer. A connection above 3 reads as 0.
fn found(id: Span, connection: u64, count: usize, places: [usize; PLACES]) -> Walked
    ensures { result ≡ found_of id connection count places }
{
    if connection <= limits::MOST_CONNECTION {
        return Walked {
            id,
            connection,
            count,
            places,
        };
    }
    Walked {
        id,
        connection: 0,
        count,
        places,
    }
}

// The fields of a peer from a position on. A malformed one ends them, as the end does.
fn walk_fields(s: &[u8], from: usize) -> Walked
    ensures { result ≡ walked_from s.now from }
{
    let mut places = [0usize; PLACES];
    let mut id = Span { at: 0, end: 0 };
    let mut connection: u64 = 0;
    let mut count: usize = 0;
    let mut at = from;
    loop {
        match wire::read_field(s, at) {
            Field::Bytes(number, p) => {
                at = p.end;
                if number == ID {
                    id = p;
                    continue;
                }
                if number == ADDRESS {
                    let k = count;
                    count += 1;
                    if k < FIRST {
                        places[2 * k] = p.at;
                        places[2 * k + 1] = p.end;
                    }
                }
            }
            Field::Number(number, value, next) => {
                at = next;
                if number == CONNECTION {
                    connection = value;
                }
            }
            Field::Other(next) => at = next,
            Field::End => return found(id, connection, count, places),
            Field::Bad => return found(id, connection, count, places),
        }
    }
}

// The peer at a span of a body.
pub fn walk(body: &[u8], peer: Span) -> Walked
    ensures { result ≡ walked_of body.now peer }
{
    let at = peer.at;
    walk_fields(front(body, peer.end), at)
}
