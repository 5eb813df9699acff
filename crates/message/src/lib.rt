#![tactic(auto)]
// Messages, read from a body as positions in it.
ghost use Rattle.std.specs.Prelude.{◌≡◌, take};
ghost use Rattle.wire.specs.Wire.{first_of, fields_at, spans};
ghost use Rattle.message.specs.Kinds.{key_fits};
ghost use Rattle.message.specs.View.{reading_of, id_at, connection_at, heard_at, ids_of};
ghost use Rattle.message.specs.Inner.{with_record, with_peer, with_bytes, with_field, gathered};

use refusal::Refusal;
use wire::{Field, Next, Span};

// The types of messages.
pub const PUT_VALUE: u64 = 0;

pub const GET_VALUE: u64 = 1;

pub const FIND_NODE: u64 = 4;

pub const PING: u64 = 5;

// The numbers of the fields.
const KIND: u64 = 1;

const KEY: u64 = 2;

const RECORD: u64 = 3;

const CLOSER: u64 = 8;

const PROVIDER: u64 = 9;

const RECORD_KEY: u64 = 1;

const RECORD_VALUE: u64 = 2;

const PEER_ID: u64 = 1;

const PEER_ADDRESS: u64 = 2;

const PEER_CONNECTION: u64 = 3;

// A record of a message: whether there is one, and where its key and value are in the body.
#[derive(Clone, Copy, PartialEq, Eq)]
pub struct Held {
    pub there: bool,
    pub key: Span,
    pub value: Span,
}

// A message: its type, and where its key and its record are in the body. Its peers are walked.
#[derive(Clone, Copy, PartialEq, Eq)]
pub struct Fields {
    pub kind: u64,
    pub key: Span,
    pub held: Held,
}

// Where the ids of the first entries of closerPeers are: of the entry k below n, from at[k] up to end[k].
#[derive(Drop)]
pub struct Ids {
    pub at: [usize; limits::MOST_HEARD],
    pub end: [usize; limits::MOST_HEARD],
    pub n: usize,
}

// The front of a slice, up to a place.
fn front(s: &[u8], end: usize) -> &[u8]
    ensures { result.now ≡ take end s.now }
{
    if s.len() <= end {
        return s;
    }
    &s[..end]
}

// The occurrence of the record at a span: its key and its value, where it has one, take the place of those before.
fn with_record(s: &[u8], m: Fields, p: Span) -> Option<Fields>
    ensures { result ≡ with_record s.now m p }
{
    let at = p.at;
    let part = front(s, p.end);
    if wire::well_formed(part, at) {
        let k = m.key;
        let h = m.held;
        let key = wire::last_bytes(part, at, RECORD_KEY, h.key);
        let value = wire::last_bytes(part, at, RECORD_VALUE, h.value);
        return Some(Fields {
            kind: m.kind,
            key: k,
            held: Held {
                there: true,
                key,
                value,
            },
        });
    }
    None
}

// A peer has to be well formed, and is left to the walks.
fn with_peer(s: &[u8], m: Fields, p: Span) -> Option<Fields>
    ensures { result ≡ with_peer s.now m p }
{
    let at = p.at;
    if wire::well_formed(front(s, p.end), at) {
        return Some(m);
    }
    None
}

fn with_bytes(s: &[u8], m: Fields, number: u64, p: Span) -> Option<Fields>
    ensures { result ≡ with_bytes s.now m number p }
{
    if number == KEY {
        let h = m.held;
        return Some(Fields {
            kind: m.kind,
            key: p,
            held: h,
        });
    }
    if number == RECORD {
        return with_record(s, m, p);
    }
    if number == CLOSER {
        return with_peer(s, m, p);
    }
    if number == PROVIDER {
        return with_peer(s, m, p);
    }
    Some(m)
}

fn with_field(s: &[u8], m: Fields, f: Field) -> Option<Fields>
    ensures { result ≡ with_field s.now m f }
{
    match f {
        Field::Bytes(number, p) => with_bytes(s, m, number, p),
        Field::Number(number, value, _) => {
            if number == KIND {
                let k = m.key;
                let h = m.held;
                return Some(Fields {
                    kind: value,
                    key: k,
                    held: h,
                });
            }
            Some(m)
        }
        Field::Other(_) => Some(m),
        Field::End => Some(m),
        Field::Bad => None,
    }
}

// All fields of a body, in one pass.
fn gather(s: &[u8]) -> Option<Fields>
    ensures { result ≡ gathered s.now }
{
    let mut m = Fields {
        kind: 0,
        key: Span { at: 0, end: 0 },
        held: Held {
            there: false,
            key: Span { at: 0, end: 0 },
            value: Span { at: 0, end: 0 },
        },
    };
    let mut at: usize = 0;
    loop {
        let f = wire::read_field(s, at);
        match wire::after(f) {
            Next::Done => return Some(m),
            Next::Broken => return None,
            Next::On(next) => {
                m = with_field(s, m, f)?;
                at = next;
            }
        }
    }
}

// The message that a body is.
pub fn read(body: &[u8]) -> Result<Fields, Refusal>
    ensures { result ≡ reading_of body.now }
{
    if limits::MOST_BODY < body.len() {
        return Err(Refusal::TooLong);
    }
    let Some(m) = gather(body) else {
        return Err(Refusal::Malformed);
    };
    if limits::MOST_KIND < m.kind {
        return Err(Refusal::UnknownType);
    }
    Ok(m)
}

// The first entry of closerPeers from a position on: from 0, and then from each end, these are all of them.
pub fn closer_peer(body: &[u8], from: usize) -> Option<Span>
    ensures { result ≡ first_of (spans 8 (fields_at body.now from)) }
{
    wire::next_bytes(body, from, CLOSER)
}

// The same for providerPeers.
pub fn provider_peer(body: &[u8], from: usize) -> Option<Span>
    ensures { result ≡ first_of (spans 9 (fields_at body.now from)) }
{
    wire::next_bytes(body, from, PROVIDER)
}

// Where the id of the peer at a span is.
pub fn peer_id(body: &[u8], peer: Span) -> Span
    ensures { result ≡ id_at body.now peer }
{
    let at = peer.at;
    wire::last_bytes(front(body, peer.end), at, PEER_ID, Span { at: 0, end: 0 })
}

// The first address of a peer from a position on: from its start, and then from each end, these are all of them.
pub fn peer_address(body: &[u8], peer: Span, from: usize) -> Option<Span>
    ensures { result ≡ first_of (spans 2 (fields_at (take peer.end body.now) from)) }
{
    wire::next_bytes(front(body, peer.end), from, PEER_ADDRESS)
}

// The connection of a peer; a number above 3 reads as 0.
pub fn peer_connection(body: &[u8], peer: Span) -> u64
    ensures { result ≡ connection_at body.now peer }
{
    let at = peer.at;
    let v = wire::last_number(front(body, peer.end), at, PEER_CONNECTION);
    if v <= limits::MOST_CONNECTION {
        return v;
    }
    0
}

// Where the ids of the first 21 entries of closerPeers are.
pub fn closer_ids(body: &[u8]) -> Ids
    ensures { result ≡ ids_of (heard_at body.now) }
{
    let mut starts = [0usize; limits::MOST_HEARD];
    let mut ends = [0usize; limits::MOST_HEARD];
    let mut from: usize = 0;
    for n in 0..limits::MOST_HEARD {
        match closer_peer(body, from) {
            Some(p) => {
                let id = peer_id(body, p);
                starts[n] = id.at;
                ends[n] = id.end;
                from = p.end;
            }
            None => {
                return Ids {
                    at: starts,
                    end: ends,
                    n,
                };
            }
        }
    }
    Ids {
        at: starts,
        end: ends,
        n: limits::MOST_HEARD,
    }
}

// Whether a key has 1 to 128 bytes.
pub fn key_fits(key: &[u8]) -> bool
    ensures { result ≡ key_fits key.now }
{
    if key.len() == 0 {
        return false;
    }
    key.len() <= limits::MOST_KEY
}
