#![tactic(auto)]
// A connection's framing: length-prefixed messages out of bytes that come in pieces cut anywhere.
ghost use Rattle.std.specs.Prelude.{◌≡◌, ◌<◌, ◌≤◌, length, drop};
ghost use Rattle.stream.specs.Stream.{fresh, held_form, in_form, is_shut, limited, minimal, prefix_step, prefix_of, stayed, shift, run_of, Gives, receive_of, end_in, end_of, ended};
ghost use Rattle.stream.specs.Inner.{goes_on, held_of, begun_of};

use refusal::Refusal;

// The bytes of a prefix that are there, each with its top bit set.
#[derive(Clone, Copy)]
pub enum Held {
    Nothing,
    One(u8),
    Two(u8, u8),
}

// Where a connection stands: within a prefix, or within a body of which the first `have` bytes are there, or shut.
#[derive(Clone, Copy)]
pub enum Framing {
    Shut,
    Prefix(Held),
    Body { want: usize, have: usize },
}

#[derive(Drop)]
pub struct Received {
    pub framing: Framing,
    pub taken: usize,
    // a message of so many bytes is whole, and they stand at the receive buffer's start; or more bytes are wanted
    pub answer: Result<Option<usize>, Refusal>,
}

#[derive(Drop)]
pub struct Ended {
    pub framing: Framing,
    pub answer: Result<(), Refusal>,
}

// What the bytes of a prefix lead to.
#[derive(Clone, Copy)]
pub enum Lead {
    On(Held),
    Length(usize),
}

#[derive(Drop)]
pub struct Prefixed {
    pub taken: usize,
    pub lead: Result<Lead, Refusal>,
}

// The framing of a connection that opens.
pub fn open() -> Framing
    ensures { result ≡ fresh }
{
    let held = Held::Nothing;
    Framing::Prefix(held)
}

// The framing of a connection that the layer above shuts, as it does where a message is refused.
pub fn shut() -> Framing
    ensures { result ≡ Framing.Shut }
{
    Framing::Shut
}

pub fn is_shut(framing: Framing) -> bool
    ensures { result ≡ is_shut framing }
{
    match framing {
        Framing::Shut => true,
        Framing::Prefix(_) => false,
        Framing::Body { want: _, have: _ } => false,
    }
}

fn held_form(held: Held) -> bool
    ensures { result ≡ held_form held }
{
    match held {
        Held::Nothing => true,
        Held::One(a) => 128 <= a,
        Held::Two(a, b) => {
            if a < 128 {
                return false;
            }
            128 <= b
        }
    }
}

// Whether a framing is in form. A shut one is, whatever came before.
pub fn in_form(framing: Framing) -> bool
    ensures { result ≡ in_form framing }
{
    match framing {
        Framing::Shut => true,
        Framing::Prefix(held) => held_form(held),
        Framing::Body { want, have } => {
            if limits::MOST_BODY < want {
                return false;
            }
            have < want
        }
    }
}

fn wide(b: u8) -> usize
    ensures { (result ≡ b) × (result < 256) }
{
    b as usize
}

// A length that is whole.
fn limit(n: usize) -> Result<Lead, Refusal>
    ensures { result ≡ limited n }
{
    if limits::MOST_BODY < n {
        return Err(Refusal::TooLong);
    }
    Ok(Lead::Length(n))
}

// A length n that is whole with its closing byte z, which isn't the first of the prefix.
fn close(z: u8, n: usize) -> Result<Lead, Refusal>
    ensures { result ≡ minimal z n }
{
    if z == 0 {
        return Err(Refusal::PrefixNotMinimal);
    }
    limit(n)
}

// The next byte of a prefix. The top bit says that another follows; the others are seven bits of the length, the lowest first,
// so that the second byte counts 128-fold and the third 16,384-fold.
fn prefix_step(held: Held, z: u8) -> Result<Lead, Refusal>
    ensures { result ≡ prefix_step held z }
{
    match held {
        Held::Nothing => {
            if z < 128 {
                return limit(wide(z));
            }
            let more = Held::One(z);
            Ok(Lead::On(more))
        }
        Held::One(a) => {
            if z < 128 {
                return close(z, wide(a) % 128 + wide(z) * 128);
            }
            let more = Held::Two(a, z);
            Ok(Lead::On(more))
        }
        Held::Two(a, b) => {
            if z < 128 {
                return close(z, wide(a) % 128 + wide(b) % 128 * 128 + wide(z) * 16384);
            }
            Err(Refusal::TooLong)
        }
    }
}

// Whether the prefix goes on.
fn goes_on(lead: Result<Lead, Refusal>) -> bool
    ensures { result ≡ goes_on lead }
{
    match lead {
        Ok(Lead::On(_)) => true,
        Ok(Lead::Length(_)) => false,
        Err(_) => false,
    }
}

// The bytes of a prefix that goes on.
fn held_of(lead: Result<Lead, Refusal>) -> Held
    ensures { result ≡ held_of lead }
{
    match lead {
        Ok(Lead::On(held)) => held,
        Ok(Lead::Length(_)) => Held::Nothing,
        Err(_) => Held::Nothing,
    }
}

// The bytes of a piece that belong to a prefix.
fn read_prefix(held: Held, piece: &[u8]) -> Prefixed
    ensures { result ≡ prefix_of held piece.now }
{
    let mut h = held;
    for (i, b) in piece.iter().enumerate() {
        let lead = prefix_step(h, *b);
        if !goes_on(lead) {
            return Prefixed {
                taken: i + 1,
                lead: lead,
            };
        }
        h = held_of(lead);
    }
    let lead = Ok(Lead::On(h));
    Prefixed {
        taken: piece.len(),
        lead: lead,
    }
}

// A connection as it was, and a refusal.
fn stay(framing: Framing, r: Refusal) -> Received
    ensures { result ≡ stayed framing r }
{
    let a = Err(r);
    Received {
        framing: framing,
        taken: 0,
        answer: a,
    }
}

// The bytes of a piece, from a place on, that belong to a body: copied in one go.
fn read_body(want: usize, have: usize, buffer: &mut [u8], piece: &[u8], from: usize) -> Received
    requires { (have < want) × (from ≤ length piece.now) }
    ensures { Gives (shift from (run_of (Framing.Body want have) buffer.old (drop from piece.now))) result buffer.new }
{
    let left = want - have;
    let there = piece.len() - from;
    if there < left {
        octets::copy(buffer, have, &piece[from..]);
        let f = Framing::Body {
            want: want,
            have: have + there,
        };
        let a = Ok(None);
        return Received {
            framing: f,
            taken: piece.len(),
            answer: a,
        };
    }
    let end = from + left;
    octets::copy(buffer, have, &piece[from..end]);
    let f = open();
    let a = Ok(Some(want));
    Received {
        framing: f,
        taken: end,
        answer: a,
    }
}

// The length of a message is whole at a place of a piece.
fn start_body(n: usize, buffer: &mut [u8], piece: &[u8], from: usize) -> Received
    requires { from ≤ length piece.now }
    ensures { Gives (begun_of n from buffer.old piece.now) result buffer.new }
{
    if n == 0 {
        let f = open();
        let a = Ok(Some(0));
        return Received {
            framing: f,
            taken: from,
            answer: a,
        };
    }
    read_body(n, 0, buffer, piece, from)
}

// A piece, from within a prefix.
fn read_message(held: Held, buffer: &mut [u8], piece: &[u8]) -> Received
    ensures { Gives (run_of (Framing.Prefix held) buffer.old piece.now) result buffer.new }
{
    let p = read_prefix(held, piece);
    let from = p.taken;
    let lead = p.lead;
    match lead {
        Ok(Lead::On(h)) => {
            let f = Framing::Prefix(h);
            let more = Ok(None);
            Received {
                framing: f,
                taken: from,
                answer: more,
            }
        }
        Ok(Lead::Length(n)) => start_body(n, buffer, piece, from),
        Err(r) => {
            let f = Framing::Shut;
            let a = Err(r);
            Received {
                framing: f,
                taken: from,
                answer: a,
            }
        }
    }
}

// Takes bytes of a piece up to the first event: a message that is whole, or a refusal.
pub fn receive(framing: Framing, buffer: &mut [u8], piece: &[u8]) -> Received
    ensures { Gives (receive_of framing buffer.old piece.now) result buffer.new }
{
    if !in_form(framing) {
        return stay(framing, Refusal::OutOfForm);
    }
    if buffer.len() < limits::MOST_BODY {
        return stay(framing, Refusal::SmallBuffer);
    }
    match framing {
        Framing::Shut => stay(framing, Refusal::Shut),
        Framing::Prefix(held) => read_message(held, buffer, piece),
        Framing::Body { want, have } => read_body(want, have, buffer, piece, 0),
    }
}

// A connection that is over.
fn over(end: Result<(), Refusal>) -> Ended
    ensures { result ≡ ended Framing.Shut end }
{
    let f = Framing::Shut;
    Ended {
        framing: f,
        answer: end,
    }
}

// A connection in form ends within what it holds of a prefix.
fn end_prefix(held: Held) -> Ended
    ensures { result ≡ end_in (Framing.Prefix held) }
{
    match held {
        Held::Nothing => over(Ok(())),
        Held::One(_) => over(Err(Refusal::EndedInside)),
        Held::Two(_, _) => over(Err(Refusal::EndedInside)),
    }
}

// The peer's bytes are over.
pub fn end(framing: Framing) -> Ended
    ensures { result ≡ end_of framing }
{
    if !in_form(framing) {
        let e = Err(Refusal::OutOfForm);
        return Ended {
            framing: framing,
            answer: e,
        };
    }
    match framing {
        Framing::Shut => over(Err(Refusal::Shut)),
        Framing::Prefix(held) => end_prefix(held),
        Framing::Body { want: _, have: _ } => over(Err(Refusal::EndedInside)),
    }
}
