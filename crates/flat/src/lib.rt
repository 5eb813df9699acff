#![tactic(auto)]
// The box and a connection as plain bytes that a host lends, and back. Every function takes any bytes; what lies past the end of a byte string reads as zeros,
// and what would be written past the end of a buffer is left out.
ghost use Rattle.std.specs.Prelude.{◌≡◌, ◌<◌, ◌%◌, ◌/◌, get_or, drop};
ghost use Rattle.std.proofs.lemmas.List.Edits.{sets};
ghost use Rattle.flat.specs.Flat.{peer_in, prefix_of, framing_of, pair_at, framing_in, says_yes, conn_in, peer_bytes, eight_bytes, prefix_bytes, framing_bytes, bit, conn_bytes, with_framing};

use connections::Conn;
use contact_table::{ADDRESSES_AT, COUNT_AT, ID_AT, ID_SIZE_AT, PLACE_AT, SIZES_AT, SLOT};
use peer::Peer;
use stream::{Framing, Held};

// The bytes of a box, and those of a connection.
pub const PEER: usize = SLOT;

pub const CONN: usize = REST + 14;

// Where the parts of a connection stand, after its peer.
const SERVER: usize = PEER;

const ASKING: usize = SERVER + 1;

const FRAMING: usize = ASKING + 1;

const REST: usize = FRAMING + 8;

// ---- reading

// The byte at a place of s, or 0 past its end.
fn byte(s: &[u8], at: usize) -> u8
    ensures { result ≡ get_or s.now at 0 }
{
    if at < s.len() {
        return s[at];
    }
    0
}

// Two bytes as a number, the lowest first.
fn pair(s: &[u8], at: usize) -> usize
    requires { at < 1024 }
    ensures { result ≡ pair_at s.now at }
{
    let low = byte(s, at) as usize;
    let high = byte(s, at + 1) as usize;
    low + high * 256
}

// Fills a field with what stands from a place on; where that is too short, the field's own bytes stay.
fn fill(field: &mut [u8], s: &[u8], at: usize)
    ensures { field.new ≡ sets field.old 0 (drop at s.now) }
{
    if s.len() < at {
        return;
    }
    octets::copy(field, 0, &s[at..]);
}

// The box in its bytes.
pub fn peer_in(bytes: &[u8]) -> Peer
    ensures { result ≡ peer_in bytes.now }
{
    let mut addrs = [0u8; limits::ADDRESSES_SIZE];
    let mut id = [0u8; limits::MOST_ID];
    let mut place = [0u8; 32];
    let mut lens = [0u8; 4];
    fill(&mut addrs, bytes, ADDRESSES_AT);
    fill(&mut id, bytes, ID_AT);
    fill(&mut place, bytes, PLACE_AT);
    fill(&mut lens, bytes, SIZES_AT);
    let size = byte(bytes, ID_SIZE_AT);
    let count = byte(bytes, COUNT_AT);
    Peer {
        addrs,
        id,
        place,
        lens,
        size,
        count,
    }
}

// A framing out of form, for bytes that say none.
fn unread_framing() -> Framing
    ensures { result ≡ Framing.Body 0 0 }
{
    Framing::Body { want: 0, have: 0 }
}

// The framing within a prefix of which so many bytes are held.
fn prefix_of(held: u8, a: u8, b: u8) -> Framing
    ensures { result ≡ prefix_of held a b }
{
    if held == 0 {
        let nothing = Held::Nothing;
        return Framing::Prefix(nothing);
    }
    if held == 1 {
        let one = Held::One(a);
        return Framing::Prefix(one);
    }
    if held == 2 {
        let two = Held::Two(a, b);
        return Framing::Prefix(two);
    }
    unread_framing()
}

// The framing of its kind, out of what is read for all of them.
fn framing_of(kind: u8, held: u8, a: u8, b: u8, want: usize, have: usize) -> Framing
    ensures { result ≡ framing_of kind held a b want have }
{
    if kind == 0 {
        return Framing::Shut;
    }
    if kind == 1 {
        return prefix_of(held, a, b);
    }
    if kind == 2 {
        return Framing::Body { want, have };
    }
    unread_framing()
}

// The framing in a connection's bytes.
fn framing_in(bytes: &[u8]) -> Framing
    ensures { result ≡ framing_in (drop 618 bytes.now) }
{
    let kind = byte(bytes, FRAMING);
    let held = byte(bytes, FRAMING + 1);
    let a = byte(bytes, FRAMING + 2);
    let b = byte(bytes, FRAMING + 3);
    let want = pair(bytes, FRAMING + 4);
    let have = pair(bytes, FRAMING + 6);
    framing_of(kind, held, a, b, want, have)
}

// Any byte but 0 says yes.
fn says_yes(b: u8) -> bool
    ensures { result ≡ says_yes b }
{
    b != 0
}

// The connection in its bytes.
pub fn conn_in(bytes: &[u8]) -> Conn
    ensures { result ≡ conn_in bytes.now }
{
    let peer = peer_in(bytes);
    let framing = framing_in(bytes);
    let server = says_yes(byte(bytes, SERVER));
    let asking = says_yes(byte(bytes, ASKING));
    Conn {
        peer,
        framing,
        server,
        asking,
    }
}

// ---- writing

// Writes the box at a buffer's start.
pub fn put_peer(out: &mut [u8], p: Peer)
    ensures { out.new ≡ sets out.old 0 (peer_bytes p) }
{
    let head = [1u8, 0u8, p.size, p.count];
    let lens = p.lens;
    let place = p.place;
    let id = p.id;
    let addrs = p.addrs;
    octets::copy(out, 0, &head);
    octets::copy(out, SIZES_AT, &lens);
    octets::copy(out, PLACE_AT, &place);
    octets::copy(out, ID_AT, &id);
    octets::copy(out, ADDRESSES_AT, &addrs);
}

// The two lowest bytes of a number.
fn low(n: usize) -> u8
    ensures { result ≡ n % 256 }
{
    (n % 256) as u8
}

fn high(n: usize) -> u8
    ensures { result ≡ n / 256 % 256 }
{
    (n / 256 % 256) as u8
}

// A framing's bytes, each kind with zeros for what only another has.
fn eight(kind: u8, held: u8, a: u8, b: u8, want: usize, have: usize) -> [u8; 8]
    ensures { result ≡ eight_bytes kind held a b want have }
{
    let want_low = low(want);
    let want_high = high(want);
    let have_low = low(have);
    let have_high = high(have);
    [kind, held, a, b, want_low, want_high, have_low, have_high]
}

fn prefix_bytes(held: Held) -> [u8; 8]
    ensures { result ≡ prefix_bytes held }
{
    match held {
        Held::Nothing => eight(1, 0, 0, 0, 0, 0),
        Held::One(a) => eight(1, 1, a, 0, 0, 0),
        Held::Two(a, b) => eight(1, 2, a, b, 0, 0),
    }
}

fn framing_bytes(f: Framing) -> [u8; 8]
    ensures { result ≡ framing_bytes f }
{
    match f {
        Framing::Shut => eight(0, 0, 0, 0, 0, 0),
        Framing::Prefix(held) => prefix_bytes(held),
        Framing::Body { want, have } => eight(2, 0, 0, 0, want, have),
    }
}

// Writes a framing where it stands in a connection's bytes; the others stay.
pub fn put_framing(out: &mut [u8], f: Framing)
    ensures { out.new ≡ with_framing out.old f }
{
    let bytes = framing_bytes(f);
    octets::copy(out, FRAMING, &bytes);
}

fn bit_of(b: bool) -> u8
    ensures { result ≡ bit b }
{
    if b {
        return 1;
    }
    0
}

// Writes a connection at a buffer's start.
pub fn put_conn(out: &mut [u8], c: Conn)
    ensures { out.new ≡ sets out.old 0 (conn_bytes c) }
{
    let peer = c.peer;
    let framing = c.framing;
    put_peer(out, peer);
    let sides = [bit_of(c.server), bit_of(c.asking)];
    octets::copy(out, SERVER, &sides);
    put_framing(out, framing);
    let zeros = [0u8; 14];
    octets::copy(out, REST, &zeros);
}
