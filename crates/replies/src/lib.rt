#![tactic(auto)]
// The replies to requests, written straight from contact and record memory into a reply buffer: FIND_NODE, GET_VALUE, PUT_VALUE and PING. Every public
// function takes any bytes: callers test form and sizes first.
ghost use Rattle.std.specs.Prelude.{◌≡◌, List, [], ◌∷◌, ◌++◌, true, ℕ, ◌+◌, ◌<◌, ◌≤◌, length};
ghost use Rattle.limits.specs.Limits.{most_key, most_value, most_body, most_kind, most_near};
ghost use Rattle.wire.specs.Items.{Put, minimal, num, written1};
ghost use Rattle.pieces.specs.Writable.{record_with};
ghost use Rattle.entries.specs.Entries.{peer_entry};
ghost use Rattle.replies.specs.Replies.{get_value_reply, find_node_reply, put_value_reply, ping_reply};
ghost use Rattle.replies.specs.Lent.{lent};
ghost use Rattle.replies.specs.Verdicts.{Gives, keyed, put_dealt, Framed, Told};
ghost use Rattle.replies.specs.Inner.{entries_to, lies_among, entry_bytes, reply_with};
ghost use Rattle.pieces.specs.Sizes.{most_peer_fields};

use peer::Peer;
use refusal::Refusal;

// How many bytes the first n contacts of a list of slots take as entries.
fn entries_len(table: &[u8], near: &[usize], n: usize) -> usize
    requires { (n ≤ most_near) × (n ≤ length near.now) }
    ensures { (result ≡ length (entry_bytes (entries_to table.now near.now n))) × (result ≤ most_peer_fields) }
{
    let mut sum: usize = 0;
    for k in 0..n {
        sum += entries::contact_len(table, near[k]);
    }
    sum
}

// Writes the first n contacts of a list of slots as entries.
fn put_entries(buf: &mut [u8], from: usize, table: &[u8], near: &[usize], n: usize) -> usize
    requires { (n ≤ most_near) × (n ≤ length near.now) }
    ensures { Put buf.old from (entry_bytes (entries_to table.now near.now n)) buf.new result }
{
    let mut to = from;
    for k in 0..n {
        to = entries::put_contact(buf, to, table, near[k]);
    }
    to
}

// Whether one of the first n contacts of a list of slots lies at a place.
fn lies_among(table: &[u8], near: &[usize], n: usize, x: &[u8]) -> bool
    requires { n ≤ length near.now }
    ensures { result ≡ lies_among table.now near.now n x.now }
{
    for k in 0..n {
        if octets::same_bytes(contacts::place_of(table, near[k]), x) {
            return true;
        }
    }
    false
}

// Begins a reply whose body has so many bytes: its length prefix and its type.
fn begin(reply: &mut [u8], size: usize, kind: u64) -> usize
    ensures { Put reply.old 0 (minimal size ++ written1 (num 1 kind)) reply.new result }
{
    let a = wire_put::put_varint(reply, 0, size as u64);
    wire_put::put_number(reply, a, 1, kind)
}

// How many bytes a body of so many bytes takes with its prefix.
fn framed_len(size: usize) -> usize
    requires { size ≤ most_body }
    ensures { result ≡ length (minimal size) + size }
{
    wire_put::varint_len(size as u64) + size
}

// A reply of closer peers alone.
fn reply_closer(reply: &mut [u8], kind: u64, table: &[u8], near: &[usize], n: usize) -> usize
    requires { (n ≤ most_near) × (n ≤ length near.now) × (kind ≤ most_kind) }
    ensures { Framed (reply_with kind None (entries_to table.now near.now n)) reply.old reply.new result }
{
    let size = 2 + entries_len(table, near, n);
    let a = begin(reply, size, kind);
    put_entries(reply, a, table, near, n);
    framed_len(size)
}

// FIND_NODE's reply with a last entry.
fn reply_last(reply: &mut [u8], table: &[u8], near: &[usize], n: usize, p: Peer) -> usize
    requires { (n ≤ most_near) × (n ≤ length near.now) }
    ensures { Framed (reply_with 4 None (entries_to table.now near.now n ++ (peer_entry p ∷ []))) reply.old reply.new result }
{
    let size = 2 + entries_len(table, near, n) + entries::own_len(p);
    let a = begin(reply, size, message::FIND_NODE);
    let b = put_entries(reply, a, table, near, n);
    entries::put_own(reply, b, p);
    framed_len(size)
}

// GET_VALUE's reply with the record.
fn reply_held(
    reply: &mut [u8],
    key: &[u8],
    value: &[u8],
    table: &[u8],
    near: &[usize],
    n: usize,
) -> usize
    requires { (n ≤ most_near) × (n ≤ length near.now) × (length key.now ≤ most_key) × (length value.now ≤ most_value) }
    ensures { Framed (reply_with 1 (Some (record_with key.now value.now)) (entries_to table.now near.now n)) reply.old reply.new result }
{
    let size = 2 + pieces::record_len(key, value) + entries_len(table, near, n);
    let a = begin(reply, size, message::GET_VALUE);
    let b = pieces::put_record(reply, a, key, value);
    put_entries(reply, b, table, near, n);
    framed_len(size)
}

// PUT_VALUE's reply: the request's key and record.
fn echo(reply: &mut [u8], key: &[u8], value: &[u8]) -> usize
    requires { (1 ≤ length key.now) × (length key.now ≤ most_key) × (length value.now ≤ most_value) }
    ensures { Framed (put_value_reply key.now value.now) reply.old reply.new result }
{
    let key_len = 1 + wire_put::varint_len(key.len() as u64) + key.len();
    let size = 2 + key_len + pieces::record_len(key, value);
    let a = begin(reply, size, message::PUT_VALUE);
    let b = wire_put::put_bytes(reply, a, 2, key);
    pieces::put_record(reply, b, key, value);
    framed_len(size)
}

// PING's reply: the type alone.
pub fn echo_ping(reply: &mut [u8]) -> usize
    ensures { Framed ping_reply reply.old reply.new result }
{
    begin(reply, 2, message::PING);
    framed_len(2)
}

// FIND_NODE's reply: the nearest of the contacts that aren't doubtful, and a last entry where the target is our place or the requester's and isn't there yet.
fn find_node(reply: &mut [u8], me: Peer, who: Peer, key: &[u8], table: &[u8]) -> usize
    ensures { Framed (find_node_reply me who table.now key.now) reply.old reply.new result }
{
    let target = place::place_of(key);
    let near = contacts::nearest(table, &target);
    let at = near.at;
    let n = near.n;
    if lies_among(table, &at, n, &target) {
        return reply_closer(reply, message::FIND_NODE, table, &at, n);
    }
    let mine = me.place;
    if octets::same_bytes(&target, &mine) {
        return reply_last(reply, table, &at, n, me);
    }
    let theirs = who.place;
    if octets::same_bytes(&target, &theirs) {
        return reply_last(reply, table, &at, n, who);
    }
    reply_closer(reply, message::FIND_NODE, table, &at, n)
}

// GET_VALUE's reply: the nearest of the contacts that aren't doubtful, and the record if it is held.
fn get_value(reply: &mut [u8], key: &[u8], table: &[u8], records: &[u8]) -> usize
    requires { length key.now ≤ most_key }
    ensures { Framed (get_value_reply table.now records.now key.now) reply.old reply.new result }
{
    let target = place::place_of(key);
    let near = contacts::nearest(table, &target);
    let at = near.at;
    let n = near.n;
    match records::look(records, key) {
        Ok(Some(held)) => reply_held(reply, key, &records[held.start..held.end], table, &at, n),
        Ok(None) => reply_closer(reply, message::GET_VALUE, table, &at, n),
        Err(_) => reply_closer(reply, message::GET_VALUE, table, &at, n),
    }
}

// Answers FIND_NODE.
pub fn answer_find(
    reply: &mut [u8],
    me: Peer,
    who: Peer,
    key: &[u8],
    table: &[u8],
) -> Result<usize, Refusal>
    ensures { Told (keyed key.now (find_node_reply me who table.now key.now)) reply.old reply.new result }
{
    if message::key_fits(key) {
        return Ok(find_node(reply, me, who, key, table));
    }
    Err(Refusal::BreaksRules)
}

// Answers GET_VALUE.
pub fn answer_get(
    reply: &mut [u8],
    key: &[u8],
    table: &[u8],
    records: &[u8],
) -> Result<usize, Refusal>
    ensures { Told (keyed key.now (get_value_reply table.now records.now key.now)) reply.old reply.new result }
{
    if message::key_fits(key) {
        return Ok(get_value(reply, key, table, records));
    }
    Err(Refusal::BreaksRules)
}

// Answers PUT_VALUE with a record: stores it, unless the store refuses it. Whatever contacts t are lent beside.
pub fn answer_put(
    reply: &mut [u8],
    records: &mut [u8],
    key: &[u8],
    record_key: &[u8],
    value: &[u8],
) -> Result<usize, Refusal>
    ensures { (t : List ℕ) → Gives (put_dealt key.now (Some (record_with record_key.now value.now)) (lent t records.old reply.old)) result records.new reply.new }
{
    if !octets::same_bytes(record_key, key) {
        return Err(Refusal::BreaksRules);
    }
    records::offer(records, key, value)?;
    Ok(echo(reply, key, value))
}
