#![tactic(auto)]
// The box and its connections: start, open and end. Nothing is kept inside: the box's own identity and connections are values that go in and come back.
// Every public function takes any numbers, and refuses by number.
ghost use Rattle.std.specs.Prelude.{◌≡◌, true, false};
ghost use Rattle.connections.specs.Box.{own_fits, nobody, start_of, with_framing, open_of, conn_form, end_conn};
ghost use Rattle.connections.specs.Inner.{starts_shut};

use peer::Peer;
use refusal::Refusal;
use stream::Framing;

// A connection: its peer, where its framing stands, whether the peer is a server, and whether we are the side that asks.
#[derive(Clone, Copy)]
pub struct Conn {
    pub peer: Peer,
    pub framing: Framing,
    pub server: bool,
    pub asking: bool,
}

#[derive(Drop)]
pub struct Started {
    pub me: Peer,
    pub told: Result<(), Refusal>,
}

#[derive(Drop)]
pub struct Opened {
    pub conn: Conn,
    pub told: Result<(), Refusal>,
}

#[derive(Drop)]
pub struct Ended {
    pub conn: Conn,
    pub answer: Result<(), Refusal>,
}

// Whether the box handed in, or a connection's peer, has an id that a start gives, or an open.
pub fn own_fits(me: Peer) -> bool
    ensures { result ≡ own_fits me }
{
    let n = me.size as usize;
    if n == 0 {
        return false;
    }
    n <= limits::MOST_ID
}

// Nobody: no id and no addresses.
fn no_peer() -> Peer
    ensures { result ≡ nobody }
{
    let nothing = [0u8; 0];
    let place = [0u8; 32];
    peer::peer_of(&nothing, place, &nothing)
}

// The box with an id of 1 to 64 bytes, its place, and its first four usable addresses.
pub fn start(id: &[u8], addresses: &[u8]) -> Started
    ensures { result ≡ start_of id.now addresses.now }
{
    if peer::id_fits(id) {
        let me = peer::peer_of(id, place::place_of(id), addresses);
        return Started { me, told: Ok(()) };
    }
    let me = no_peer();
    let told = Err(Refusal::BadPeer);
    Started { me, told }
}

// A connection that starts shut, since its peer can't be one.
fn refuse_open(server: bool, asking: bool) -> Opened
    ensures { result ≡ starts_shut server asking }
{
    let peer = no_peer();
    let framing = stream::shut();
    let conn = Conn {
        peer,
        framing,
        server,
        asking,
    };
    Opened {
        conn,
        told: Err(Refusal::BadPeer),
    }
}

// Opens a connection to a peer: its id, whether it is a server, whether we ask on it, and the peer's addresses.
pub fn open(me: Peer, id: &[u8], server: bool, asking: bool, addresses: &[u8]) -> Opened
    ensures { result ≡ open_of me id.now server asking addresses.now }
{
    if !own_fits(me) {
        return refuse_open(server, asking);
    }
    if !peer::id_fits(id) {
        return refuse_open(server, asking);
    }
    let at = place::place_of(id);
    let ours = me.place;
    if octets::same_bytes(&at, &ours) {
        return refuse_open(server, asking);
    }
    let peer = peer::peer_of(id, at, addresses);
    let framing = stream::open();
    let conn = Conn {
        peer,
        framing,
        server,
        asking,
    };
    Opened { conn, told: Ok(()) }
}

// Whether a connection is in form. A shut one is. Of its peer that goes by id and place: its addresses are judged where they are used.
pub fn conn_form(me: Peer, conn: Conn) -> bool
    ensures { result ≡ conn_form me conn }
{
    let f = conn.framing;
    if stream::is_shut(f) {
        return true;
    }
    let p = conn.peer;
    if !own_fits(p) {
        return false;
    }
    let there = p.place;
    let ours = me.place;
    if octets::same_bytes(&there, &ours) {
        return false;
    }
    stream::in_form(f)
}

// The connection with another framing.
pub fn with_framing(conn: Conn, framing: Framing) -> Conn
    ensures { result ≡ with_framing conn framing }
{
    let p = conn.peer;
    Conn {
        peer: p,
        framing,
        server: conn.server,
        asking: conn.asking,
    }
}

// The peer's bytes are over.
pub fn end(me: Peer, conn: Conn) -> Ended
    ensures { result ≡ end_conn me conn }
{
    if !conn_form(me, conn) {
        return Ended {
            conn,
            answer: Err(Refusal::OutOfForm),
        };
    }
    let f = conn.framing;
    let e = stream::end(f);
    let g = e.framing;
    let answer = e.answer;
    Ended {
        conn: with_framing(conn, g),
        answer,
    }
}
