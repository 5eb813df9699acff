#![tactic(auto)]
// The parts of a view, from its body and its positions. Where the positions aren't what the reader gives for the body, every part is refused with 0.
ghost use Rattle.std.specs.Prelude.{◌≡◌, ◌≤◌, length};
ghost use Rattle.wire.specs.Items.{cut};
ghost use Rattle.parts.specs.Parts.{is_view, positions_of, number_if, part_if, entry_if, found_if, kind_of, key_of, record_key_of, record_value_of, closer_of, provider_of, peer_id_of, peer_connection_of, peer_address_of, key_bytes, record_key_bytes, record_value_bytes};

use message::{Fields, Held};
use refusal::Refusal;
use wire::Span;

// ---- whether positions are the reader's

// Whether the positions are what the reader gives for the body.
pub fn is_view(body: &[u8], at: Fields) -> bool
    ensures { result ≡ is_view body.now at }
{
    match message::read(body) {
        Ok(m) => m == at,
        Err(_) => false,
    }
}

// What the reader gives for the body; of a body that it refuses, the positions of an empty message, which are no view of it.
pub fn positions(body: &[u8]) -> Fields
    ensures { result ≡ positions_of body.now }
{
    match message::read(body) {
        Ok(m) => m,
        Err(_) => Fields {
            kind: 0,
            key: Span { at: 0, end: 0 },
            held: Held {
                there: false,
                key: Span { at: 0, end: 0 },
                value: Span { at: 0, end: 0 },
            },
        },
    }
}

// ---- type, key and record

fn number_if(ok: bool, n: u64) -> Result<u64, Refusal>
    ensures { result ≡ number_if ok n }
{
    if ok {
        return Ok(n);
    }
    Err(Refusal::OutOfForm)
}

fn part_if(ok: bool, p: Span) -> Result<Span, Refusal>
    ensures { result ≡ part_if ok p }
{
    if !ok {
        return Err(Refusal::OutOfForm);
    }
    Ok(p)
}

fn entry_if(ok: bool, there: bool, p: Span) -> Result<Option<Span>, Refusal>
    ensures { result ≡ entry_if ok there p }
{
    if ok {
        if there {
            return Ok(Some(p));
        }
        return Ok(None);
    }
    Err(Refusal::OutOfForm)
}

pub fn kind(body: &[u8], at: Fields) -> Result<u64, Refusal>
    ensures { result ≡ kind_of body.now at }
{
    number_if(is_view(body, at), at.kind)
}

pub fn key(body: &[u8], at: Fields) -> Result<Span, Refusal>
    ensures { result ≡ key_of body.now at }
{
    let p = at.key;
    part_if(is_view(body, at), p)
}

pub fn record_key(body: &[u8], at: Fields) -> Result<Option<Span>, Refusal>
    ensures { result ≡ record_key_of body.now at }
{
    let h = at.held;
    let k = h.key;
    entry_if(is_view(body, at), h.there, k)
}

pub fn record_value(body: &[u8], at: Fields) -> Result<Option<Span>, Refusal>
    ensures { result ≡ record_value_of body.now at }
{
    let h = at.held;
    let v = h.value;
    entry_if(is_view(body, at), h.there, v)
}

// ---- the peers, one by one: the first entry from a position on

fn found_if(ok: bool, f: Option<Span>) -> Result<Option<Span>, Refusal>
    ensures { result ≡ found_if ok f }
{
    if ok {
        return Ok(f);
    }
    Err(Refusal::OutOfForm)
}

pub fn closer_peer(body: &[u8], at: Fields, from: usize) -> Result<Option<Span>, Refusal>
    ensures { result ≡ closer_of body.now at from }
{
    found_if(is_view(body, at), message::closer_peer(body, from))
}

pub fn provider_peer(body: &[u8], at: Fields, from: usize) -> Result<Option<Span>, Refusal>
    ensures { result ≡ provider_of body.now at from }
{
    found_if(is_view(body, at), message::provider_peer(body, from))
}

// Of the peer at a span: its id, its connection, and its first address from a position on.
pub fn peer_id(body: &[u8], at: Fields, peer: Span) -> Result<Span, Refusal>
    ensures { result ≡ peer_id_of body.now at peer }
{
    part_if(is_view(body, at), message::peer_id(body, peer))
}

pub fn peer_connection(body: &[u8], at: Fields, peer: Span) -> Result<u64, Refusal>
    ensures { result ≡ peer_connection_of body.now at peer }
{
    number_if(is_view(body, at), message::peer_connection(body, peer))
}

pub fn peer_address(
    body: &[u8],
    at: Fields,
    peer: Span,
    from: usize,
) -> Result<Option<Span>, Refusal>
    ensures { result ≡ peer_address_of body.now at peer from }
{
    found_if(is_view(body, at), message::peer_address(body, peer, from))
}

// ---- the bytes themselves: none where the view is refused or there is no record

fn cut_out<'a>(body: &'a [u8], p: Span) -> &'a [u8]
    requires { (p.at ≤ p.end) × (p.end ≤ length body.now) }
    ensures { result.now ≡ cut body.now p }
{
    let from = p.at;
    let end = p.end;
    &body[from..end]
}

pub fn key_bytes<'a>(body: &'a [u8], at: Fields) -> &'a [u8]
    ensures { result.now ≡ key_bytes body.now at }
{
    let p = at.key;
    if is_view(body, at) {
        return cut_out(body, p);
    }
    &body[..0]
}

pub fn record_key_bytes<'a>(body: &'a [u8], at: Fields) -> &'a [u8]
    ensures { result.now ≡ record_key_bytes body.now at }
{
    let h = at.held;
    let k = h.key;
    if is_view(body, at) {
        return cut_out(body, k);
    }
    &body[..0]
}

pub fn record_value_bytes<'a>(body: &'a [u8], at: Fields) -> &'a [u8]
    ensures { result.now ≡ record_value_bytes body.now at }
{
    let h = at.held;
    let v = h.value;
    if is_view(body, at) {
        return cut_out(body, v);
    }
    &body[..0]
}
