#![tactic(auto)]
// Receiving on a connection: the gate, the framing, a message dealt with. Nothing is kept inside: contacts and records lie in memory that the host lends.
// Start, open and end are passed on. Every function takes any numbers and any buffers, and refuses by number.
ghost use Rattle.std.specs.Prelude.{◌≡◌, length};
ghost use Rattle.message.specs.View.{reading_of};
ghost use Rattle.connections.specs.Box.{with_framing};
ghost use Rattle.replies.specs.Lent.{lent};
ghost use Rattle.node.specs.Node.{linked, sight_of, contacts_after, served, heard_as, dealing_of, gate_of, received, taken_of, receive_of, Gives, Deals};
ghost use Rattle.node.specs.Inner.{unseen};

pub use connections::{Conn, Ended, Opened, Started, end, open, own_fits, start};
use message::Fields;
use peer::Peer;
use refusal::Refusal;
use sightings::Sighting;
use stream::Framing;

#[derive(Clone, Copy)]
pub enum Answer {
    // A request was answered: so many bytes stand at the reply buffer's start.
    Reply(usize),
    // A message for a lookup: so many bytes stand at the receive buffer's start, with the places of its fields.
    Heard(usize, Fields),
    More,
}

#[derive(Clone, Copy)]
pub struct Received {
    pub conn: Conn,
    pub taken: usize,
    pub answer: Result<Answer, Refusal>,
    // what came of the sender's sighting, beside a reply
    pub sight: Option<Result<Sighting, Refusal>>,
}

// 0 to 2, and 12 for a box that no start gives.
fn gate_of(
    me: Peer,
    conn: Conn,
    buffer: &[u8],
    contacts: &[u8],
    records: &[u8],
    reply: &[u8],
) -> Result<(), Refusal>
    ensures { result ≡ gate_of me (linked conn buffer.now) (lent contacts.now records.now reply.now) }
{
    let ours = me.place;
    if !contacts::in_form(contacts, &ours) {
        return Err(Refusal::OutOfForm);
    }
    if !records::in_form(records) {
        return Err(Refusal::OutOfForm);
    }
    if !connections::conn_form(me, conn) {
        return Err(Refusal::OutOfForm);
    }
    if buffer.len() < limits::MOST_BODY {
        return Err(Refusal::SmallBuffer);
    }
    if reply.len() < limits::LEAST_REPLY {
        return Err(Refusal::SmallBuffer);
    }
    let f = conn.framing;
    if stream::is_shut(f) {
        return Err(Refusal::Shut);
    }
    if !connections::own_fits(me) {
        return Err(Refusal::BadPeer);
    }
    Ok(())
}

// A sender that is a server is seen, with its usable addresses.
fn see_sender(me: Peer, conn: Conn, contacts: &mut [u8]) -> Option<Result<Sighting, Refusal>>
    ensures { (result ≡ sight_of me conn contacts.old) × (contacts.new ≡ contacts_after me conn contacts.old) }
{
    if !conn.server {
        return None;
    }
    let ours = me.place;
    let p = conn.peer;
    let s = sightings::seen(contacts, &ours, p);
    Some(s)
}

fn hand_back(
    conn: Conn,
    taken: usize,
    answer: Result<Answer, Refusal>,
    sight: Option<Result<Sighting, Refusal>>,
) -> Received
    ensures { result ≡ received conn taken answer sight }
{
    Received {
        conn,
        taken,
        answer,
        sight,
    }
}

// A refusal that shuts the connection.
fn refuse(conn: Conn, taken: usize, r: Refusal) -> Received
    ensures { result ≡ received (with_framing conn Framing.Shut) taken (Err r) None }
{
    let shut = stream::shut();
    let c = connections::with_framing(conn, shut);
    hand_back(c, taken, Err(r), None)
}

// A message on the asking side goes to the host.
fn hear(conn: Conn, taken: usize, body: &[u8]) -> Received
    ensures { result ≡ unseen conn taken (heard_as (length body.now) (reading_of body.now)) }
{
    match message::read(body) {
        Ok(f) => hand_back(conn, taken, Ok(Answer::Heard(body.len(), f)), None),
        Err(r) => refuse(conn, taken, r),
    }
}

// A request: the reply first, then the sighting.
fn serve(
    me: Peer,
    conn: Conn,
    taken: usize,
    body: &[u8],
    contacts: &mut [u8],
    records: &mut [u8],
    reply: &mut [u8],
) -> Received
    ensures { Deals (served me conn body.now (lent contacts.old records.old reply.old)) conn taken result contacts.new records.new reply.new }
{
    let who = conn.peer;
    match answer::answer(me, who, body, contacts, records, reply) {
        Err(r) => refuse(conn, taken, r),
        Ok(n) => {
            let s = see_sender(me, conn, contacts);
            hand_back(conn, taken, Ok(Answer::Reply(n)), s)
        }
    }
}

// What a whole message does on a connection, after so many bytes of a piece: for who has one without its framing, such as a record that is played back.
pub fn whole(
    me: Peer,
    conn: Conn,
    taken: usize,
    body: &[u8],
    contacts: &mut [u8],
    records: &mut [u8],
    reply: &mut [u8],
) -> Received
    ensures { Deals (dealing_of me conn body.now (lent contacts.old records.old reply.old)) conn taken result contacts.new records.new reply.new }
{
    if conn.asking {
        return hear(conn, taken, body);
    }
    serve(me, conn, taken, body, contacts, records, reply)
}

// The bytes up to the first event.
fn take_bytes(
    me: Peer,
    conn: Conn,
    buffer: &mut [u8],
    piece: &[u8],
    contacts: &mut [u8],
    records: &mut [u8],
    reply: &mut [u8],
) -> Received
    ensures { Gives (taken_of me (linked conn buffer.old) piece.now (lent contacts.old records.old reply.old)) result buffer.new contacts.new records.new reply.new }
{
    let f = conn.framing;
    let got = stream::receive(f, buffer, piece);
    let g = got.framing;
    let c = connections::with_framing(conn, g);
    let event = got.answer;
    match event {
        Ok(Some(n)) => whole(me, c, got.taken, &buffer[..n], contacts, records, reply),
        Err(r) => refuse(c, got.taken, r),
        Ok(None) => hand_back(c, got.taken, Ok(Answer::More), None),
    }
}

// Takes bytes of a piece up to the first event, and answers it.
pub fn receive(
    me: Peer,
    conn: Conn,
    buffer: &mut [u8],
    piece: &[u8],
    contacts: &mut [u8],
    records: &mut [u8],
    reply: &mut [u8],
) -> Received
    ensures { Gives (receive_of me (linked conn buffer.old) piece.now (lent contacts.old records.old reply.old)) result buffer.new contacts.new records.new reply.new }
{
    match gate_of(me, conn, buffer, contacts, records, reply) {
        Err(r) => hand_back(conn, 0, Err(r), None),
        Ok(()) => take_bytes(me, conn, buffer, piece, contacts, records, reply),
    }
}
