#![tactic(auto)]
// A read message as a view: it points into the receive buffer. Each function takes it apart, and `parts` has what is right. Where the positions of a
// view aren't what the reader gives for its body, every function refuses with 0, or gives no bytes.
ghost use Rattle.std.specs.Prelude.{◌≡◌};
ghost use Rattle.parts.specs.Parts.{positions_of, kind_of, key_of, record_key_of, record_value_of, closer_of, provider_of, peer_id_of, peer_connection_of, peer_address_of, key_bytes, record_key_bytes, record_value_bytes};

use message::Fields;
use refusal::Refusal;
use wire::Span;

// The body, and where the parts of the message are in it.
#[derive(Drop)]
pub struct View<'a> {
    pub body: &'a [u8],
    pub at: Fields,
}

// The view of a body: what the reader gives. A body that the reader refuses has no view: of what comes back every part is refused.
pub fn view_of<'a>(body: &'a [u8]) -> View<'a>
    ensures { (result.body ≡ body.entry) × (result.at ≡ positions_of body.now) }
{
    View {
        body,
        at: parts::positions(body),
    }
}

// The message's type.
pub fn kind<'a>(v: View<'a>) -> Result<u64, Refusal>
    ensures { result ≡ kind_of v.entry.body.now v.entry.at }
{
    parts::kind(v.body, v.at)
}

// Where its key is.
pub fn key<'a>(v: View<'a>) -> Result<Span, Refusal>
    ensures { result ≡ key_of v.entry.body.now v.entry.at }
{
    parts::key(v.body, v.at)
}

// Where its record's key is, and its value.
pub fn record_key<'a>(v: View<'a>) -> Result<Option<Span>, Refusal>
    ensures { result ≡ record_key_of v.entry.body.now v.entry.at }
{
    parts::record_key(v.body, v.at)
}

pub fn record_value<'a>(v: View<'a>) -> Result<Option<Span>, Refusal>
    ensures { result ≡ record_value_of v.entry.body.now v.entry.at }
{
    parts::record_value(v.body, v.at)
}

// The first entry of closerPeers from a position on, and of providerPeers.
pub fn closer_peer<'a>(v: View<'a>, from: usize) -> Result<Option<Span>, Refusal>
    ensures { result ≡ closer_of v.entry.body.now v.entry.at from }
{
    parts::closer_peer(v.body, v.at, from)
}

pub fn provider_peer<'a>(v: View<'a>, from: usize) -> Result<Option<Span>, Refusal>
    ensures { result ≡ provider_of v.entry.body.now v.entry.at from }
{
    parts::provider_peer(v.body, v.at, from)
}

// Of the peer at a span: where its id is, its connection, and its first address from a position on.
pub fn peer_id<'a>(v: View<'a>, peer: Span) -> Result<Span, Refusal>
    ensures { result ≡ peer_id_of v.entry.body.now v.entry.at peer }
{
    parts::peer_id(v.body, v.at, peer)
}

pub fn peer_connection<'a>(v: View<'a>, peer: Span) -> Result<u64, Refusal>
    ensures { result ≡ peer_connection_of v.entry.body.now v.entry.at peer }
{
    parts::peer_connection(v.body, v.at, peer)
}

pub fn peer_address<'a>(v: View<'a>, peer: Span, from: usize) -> Result<Option<Span>, Refusal>
    ensures { result ≡ peer_address_of v.entry.body.now v.entry.at peer from }
{
    parts::peer_address(v.body, v.at, peer, from)
}

// The bytes of its key, of its record's key and of its value: none where the view is refused or there is no record.
pub fn key_bytes<'a>(v: View<'a>) -> &'a [u8]
    ensures { result.now ≡ key_bytes v.entry.body.now v.entry.at }
{
    parts::key_bytes(v.body, v.at)
}

pub fn record_key_bytes<'a>(v: View<'a>) -> &'a [u8]
    ensures { result.now ≡ record_key_bytes v.entry.body.now v.entry.at }
{
    parts::record_key_bytes(v.body, v.at)
}

pub fn record_value_bytes<'a>(v: View<'a>) -> &'a [u8]
    ensures { result.now ≡ record_value_bytes v.entry.body.now v.entry.at }
{
    parts::record_value_bytes(v.body, v.at)
}

// ---- on a plain body, for callers that hold no view

// The type of the message that a body is.
pub fn kind_of<'a>(body: &'a [u8]) -> Result<u64, Refusal>
    ensures { result ≡ kind_of body.now (positions_of body.now) }
{
    kind(view_of(body))
}

// The bytes of its key, and of its record's value.
pub fn key_of<'a>(body: &'a [u8]) -> &'a [u8]
    ensures { result.now ≡ key_bytes body.now (positions_of body.now) }
{
    key_bytes(view_of(body))
}

pub fn record_value_of<'a>(body: &'a [u8]) -> &'a [u8]
    ensures { result.now ≡ record_value_bytes body.now (positions_of body.now) }
{
    record_value_bytes(view_of(body))
}
