#![tactic(auto)]
// The workshop's program: standard input is one client's connection, read in pieces of a size that an argument gives; the replies go to
// standard output, and nothing else does but the usage, where it is asked for. What ends the run early is said on standard error.
ghost use Rattle.std.specs.Prelude.{◌≡◌, false, ◌+◌, ◌≤◌, min, length, []};
ghost use Rattle.replies.specs.Lent.{lent};
ghost use Rattle.node.specs.Node.{linked, receive_of};
ghost use Rattle.console.specs.Console.{goes_on, Sent, Follows, stand, Turns, UsedUp};

use node::{Answer, Conn};
use peer::Peer;
use refusal::Refusal;
use std::env::{Env, FillError};
use std::io;
use std::io::{ErrorKind, Print, Read};

// The largest piece, and the one that is read where no argument says another.
pub const PIECE: usize = 4096;

// The memory that the box is lent: room for 20 contacts, which stays empty, since a client is no contact, and for 64 records.
pub const CONTACTS: usize = 20 * contacts::SLOT;

pub const RECORDS: usize = 64 * record_slots::SLOT;

// How a part of the run ended.
#[derive(Clone, Copy)]
pub enum After {
    // The run goes on: the rest of the piece is handed over, or the next piece is read.
    On,
    // The input is over.
    End,
    // The run is over, and why was said: nothing more is read, written or said.
    Stop,
}

// What a call, a piece or a read leaves: the connection, how many bytes were taken, and whether to go on.
#[derive(Drop)]
pub struct Turn {
    pub conn: Conn,
    pub taken: usize,
    pub after: After,
}

// What a read gave.
#[derive(Drop)]
pub enum Got {
    // So many bytes: none where a signal interrupted it, and then it is made again.
    Bytes(usize),
    End,
    Failed,
}

fn goes_on(after: After) -> bool
    ensures { result ≡ goes_on after }
{
    match after {
        After::On => true,
        After::End => false,
        After::Stop => false,
    }
}

// A place in a slice of len bytes, some bytes further on.
fn onward(from: usize, taken: usize, len: usize) -> usize
    ensures value { result ≡ min (from + taken) len }
    ensures upper_bound { result ≤ len }
{
    if len < from {
        return len;
    }
    if len - from < taken {
        return len;
    }
    from + taken
}

// The front of a slice, or all of it.
fn front(s: &[u8], n: usize) -> &[u8] {
    if s.len() < n {
        return s;
    }
    &s[..n]
}

// Whether a read or a write failed, by the error that it gave. One that a signal interrupted before it moved a byte didn't.
fn failed(e: &io::Error) -> bool {
    e.kind() != ErrorKind::Interrupted
}

// Writes all of the bytes, in as many writes as that takes. An error where one fails or takes nothing: then some may have been written. A proved loop has
// to end, so the turns go up to a number that no run reaches. The library's `write_all` would give up where signals interrupt many writes.
fn put<P: Print>(to: &P, bytes: &[u8]) -> io::Result<()> {
    let mut rest = bytes;
    for _ in 0..u64::MAX {
        if rest.is_empty() {
            return Ok(());
        }
        match to.write_some(rest) {
            Ok(0) => return Err(io::Error::from(ErrorKind::WriteZero)),
            Ok(n) => rest = &rest[n..],
            Err(e) => {
                if failed(&e) {
                    return Err(e);
                }
            }
        }
    }
    Err(io::Error::from(ErrorKind::Interrupted))
}

fn say(rt: HostRuntime, text: &[u8]) {
    let _ = put(&rt.stderr(), text);
}

fn count(rt: HostRuntime, n: usize) {
    let _ = rt.eprint(n);
}

// The system's reason, as the C library words it, with no number after it. Where there is no memory to take the number off, it stays.
fn because(rt: HostRuntime, e: io::Error) {
    match format!(in rt.alloc(); "{e}") {
        Ok(text) => match text.split_once(" (os error ") {
            Some((reason, _)) => say(rt, reason.as_bytes()),
            None => say(rt, text.as_bytes()),
        },
        Err(_) => {
            let _ = rt.eprint(e);
        }
    }
}

// Says what failed, and why.
fn fail(rt: HostRuntime, what: &[u8], e: io::Error) {
    say(rt, what);
    say(rt, b": ");
    because(rt, e);
    say(rt, b"\n");
}

// The usage. An error where not all of it was written.
fn usage<P: Print>(to: &P) -> io::Result<()> {
    put(to, b"usage: starterbell [PIECE]\n")?;
    put(
        to,
        b"Standard input is one client's connection: length-prefixed requests. The replies go to standard output.\n",
    )?;
    put(
        to,
        b"PIECE is how many bytes are read at a time, 1 to 4096 (4096 where none is given). The replies don't depend on it.\n",
    )?;
    put(
        to,
        b"A refusal, an end inside a message, or a read or write that fails ends the run, and standard error says which.\n",
    )?;
    put(
        to,
        b"The exit status doesn't: it is 0 unless a signal ended the program. A script looks whether standard error is empty.\n",
    )?;
    put(
        to,
        b"The box is lent 12,320 bytes for contacts, 205,312 for records, 16,384 to receive and 16,387 to reply.\n",
    )?;
    put(
        to,
        b"-h or --help in place of PIECE writes this to standard output.\n",
    )
}

fn help(rt: HostRuntime) {
    if let Err(e) = usage(&rt.stdout()) {
        fail(
            rt,
            b"starterbell: the usage can't be written to standard output",
            e,
        );
    }
}

// What is wrong with the arguments.
fn misused(rt: HostRuntime, what: &[u8]) {
    say(rt, b"starterbell: ");
    say(rt, what);
    say(rt, b"\n");
    let _ = usage(&rt.stderr());
}

// Why a client's bytes are refused. The others can't be given to this program's box, whose memory is its own.
fn reason(rt: HostRuntime, r: Refusal) {
    match r {
        Refusal::PrefixNotMinimal => say(rt, b": a length prefix isn't minimal"),
        Refusal::TooLong => say(rt, b": a message is over 16,384 bytes"),
        Refusal::Malformed => say(rt, b": a message isn't well formed"),
        Refusal::UnknownType => say(rt, b": a message's type isn't 0 to 5"),
        Refusal::Providers => say(rt, b": providers (types 2 and 3) aren't kept"),
        Refusal::BreaksRules => say(rt, b": a key or record breaks the request rules"),
        Refusal::BrokenRecipe => say(rt, b": a recipe is broken"),
        Refusal::Outranked => say(rt, b": the held record ranks higher"),
        Refusal::NoRecordSlot => say(rt, b": every record slot holds another key"),
        Refusal::EndedInside => say(rt, b": the input ends inside a message"),
        _ => (),
    }
}

// The refusal that ended the run.
fn tell(rt: HostRuntime, r: Refusal) {
    say(rt, b"starterbell: refused with ");
    count(rt, refusal::number(r) as usize);
    reason(rt, r);
    say(rt, b"\n");
}

// Writes a reply. Where that fails the bytes after this request are never read as something else: the run stops.
fn send(rt: HostRuntime, reply: &[u8]) -> After
    ensures { Sent result }
{
    match put(&rt.stdout(), reply) {
        Ok(()) => After::On,
        Err(e) => {
            fail(
                rt,
                b"starterbell: a reply can't be written to standard output",
                e,
            );
            After::Stop
        }
    }
}

// What comes after an answer: its reply is written, its refusal told.
fn deal(rt: HostRuntime, answer: Result<Answer, Refusal>, reply: &[u8]) -> After
    ensures { Follows answer result }
{
    match answer {
        Ok(Answer::Reply(n)) => send(rt, front(reply, n)),
        Ok(Answer::Heard(_, _)) => After::On,
        Err(r) => {
            tell(rt, r);
            After::Stop
        }
        Ok(Answer::More) => After::On,
    }
}

// One call, and what comes after it.
fn call(
    rt: HostRuntime,
    me: Peer,
    conn: Conn,
    buffer: &mut [u8],
    rest: &[u8],
    contacts: &mut [u8],
    records: &mut [u8],
    reply: &mut [u8],
) -> Turn
    ensures { Turns (receive_of me (linked conn buffer.old) rest.now (lent contacts.old records.old reply.old)) result buffer.new contacts.new records.new reply.new }
{
    let r = node::receive(me, conn, buffer, rest, contacts, records, reply);
    let a = r.answer;
    let after = deal(rt, a, reply);
    let c = r.conn;
    Turn {
        conn: c,
        taken: r.taken,
        after,
    }
}

fn stopped(conn: Conn, taken: usize) -> Turn
    ensures { result.after ≡ After.Stop }
{
    Turn {
        conn,
        taken,
        after: After::Stop,
    }
}

// A piece, call after call until it is used up. Each call after which the run goes on takes a byte, so the loop ends.
fn feed(
    rt: HostRuntime,
    me: Peer,
    conn: Conn,
    buffer: &mut [u8],
    piece: &[u8],
    contacts: &mut [u8],
    records: &mut [u8],
    reply: &mut [u8],
) -> Turn
    ensures { UsedUp result.after me (stand (linked conn buffer.old) (lent contacts.old records.old reply.old) piece.now) (stand (linked result.conn buffer.new) (lent contacts.new records.new reply.new) []) }
{
    let mut c = conn;
    let mut from: usize = 0;
    while from < piece.len() {
        let t = call(rt, me, c, buffer, &piece[from..], contacts, records, reply);
        c = t.conn;
        let a = t.after;
        if !goes_on(a) {
            return Turn {
                conn: c,
                taken: from,
                after: After::Stop,
            };
        }
        from = onward(from, t.taken, piece.len());
    }
    Turn {
        conn: c,
        taken: from,
        after: After::On,
    }
}

// Reads once, at most so many bytes, which the piece has to have. A failure is said at once.
fn read_into(rt: HostRuntime, piece: &mut [u8], most: usize) -> Got
    requires { most ≤ length piece.old }
{
    let mut input = rt.stdin();
    match input.read(&mut piece[..most]) {
        Ok(0) => Got::End,
        Ok(n) => Got::Bytes(n),
        Err(e) => {
            if failed(&e) {
                fail(rt, b"starterbell: standard input can't be read", e);
                return Got::Failed;
            }
            Got::Bytes(0)
        }
    }
}

// The size of a piece that is nearest to a number.
fn fit(size: usize) -> usize
    ensures { result ≤ 4096 }
{
    if size < 1 {
        return 1;
    }
    if PIECE < size {
        return PIECE;
    }
    size
}

// Reads once and hands the bytes over.
fn read_once(
    rt: HostRuntime,
    me: Peer,
    conn: Conn,
    size: usize,
    buffer: &mut [u8],
    contacts: &mut [u8],
    records: &mut [u8],
    reply: &mut [u8],
) -> Turn {
    let mut piece = [0u8; PIECE];
    let got = read_into(rt, &mut piece, fit(size));
    match got {
        Got::Bytes(n) => feed(
            rt,
            me,
            conn,
            buffer,
            front(&piece, n),
            contacts,
            records,
            reply,
        ),
        Got::End => Turn {
            conn,
            taken: 0,
            after: After::End,
        },
        Got::Failed => stopped(conn, 0),
    }
}

// The whole input, until it ends or the run stops. Nothing says that an input ends, so the turns have such a limit here too.
fn pump(
    rt: HostRuntime,
    me: Peer,
    conn: Conn,
    size: usize,
    buffer: &mut [u8],
    contacts: &mut [u8],
    records: &mut [u8],
    reply: &mut [u8],
) -> Turn
    ensures { goes_on result.after ≡ false }
{
    let mut c = conn;
    for _ in 0..u64::MAX {
        let t = read_once(rt, me, c, size, buffer, contacts, records, reply);
        c = t.conn;
        let a = t.after;
        if !goes_on(a) {
            return t;
        }
    }
    stopped(c, 0)
}

// The input is over. An end inside a message is refused.
fn finish(rt: HostRuntime, me: Peer, conn: Conn) {
    let e = node::end(me, conn);
    let a = e.answer;
    match a {
        Ok(()) => (),
        Err(r) => tell(rt, r),
    }
}

// Serves standard input in pieces of some bytes, 1 to PIECE: for any other number those that are nearest to it.
pub fn serve(rt: HostRuntime, size: usize) {
    let mut contacts = [0u8; CONTACTS];
    let mut records = [0u8; RECORDS];
    let mut buffer = [0u8; limits::MOST_BODY];
    let mut reply = [0u8; limits::LEAST_REPLY];
    let nowhere = [0u8; 0];
    let started = node::start(b"starterbell", &nowhere);
    let me = started.me;
    let opened = node::open(me, b"client", false, false, &nowhere);
    let conn = opened.conn;
    let last = pump(
        rt,
        me,
        conn,
        size,
        &mut buffer,
        &mut contacts,
        &mut records,
        &mut reply,
    );
    let c = last.conn;
    let a = last.after;
    match a {
        After::End => finish(rt, me, c),
        _ => (),
    }
}

// A decimal number up to 9,999; 0 for anything else.
fn number(text: &[u8]) -> usize
    ensures { result ≤ 9999 }
{
    let mut n: usize = 0;
    for i in 0..text.len() {
        let d = text[i];
        if d < 48 {
            return 0;
        }
        if 57 < d {
            return 0;
        }
        if 999 < n {
            return 0;
        }
        n = n * 10 + (d - 48) as usize;
    }
    n
}

// Whether there are so many arguments; some room for one of them has to be lent.
fn has_argument(rt: HostRuntime, many: usize, room: &mut [u8]) -> bool {
    match rt.arg(many, room) {
        Ok(_) => true,
        Err(FillError::TooLong) => true,
        Err(FillError::NotPresent) => false,
    }
}

// The program with its one argument: the size of a piece, or the wish for the usage.
fn with_argument(rt: HostRuntime, text: &[u8]) {
    if octets::same_bytes(text, b"--help") {
        help(rt);
        return;
    }
    if octets::same_bytes(text, b"-h") {
        help(rt);
        return;
    }
    let size = number(text);
    if fit(size) != size {
        misused(rt, b"PIECE isn't a number from 1 to 4096");
        return;
    }
    serve(rt, size);
}

// The program.
pub fn start(rt: HostRuntime) {
    let mut text = [0u8; 4096];
    if has_argument(rt, 2, &mut text) {
        misused(rt, b"there is more than one argument");
        return;
    }
    match rt.arg(1, &mut text) {
        Ok(n) => with_argument(rt, &text[..n]),
        Err(FillError::TooLong) => misused(rt, b"PIECE isn't a number from 1 to 4096"),
        Err(FillError::NotPresent) => serve(rt, PIECE),
    }
}
