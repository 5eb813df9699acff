#![tactic(auto)]
// Writes a whole message with its length prefix into a buffer that is lent.
ghost use Rattle.std.specs.Prelude.{◌≡◌, true, false, [], ◌+◌, ◌-◌, ◌*◌, ◌≤◌, ◌<◌, length, get_or, leb, ◌++◌, cond};
ghost use Rattle.limits.specs.Limits.{most_key, most_body};
ghost use Rattle.wire.specs.Items.{minimal, written, single, Put};
ghost use Rattle.message.specs.Message.{encode, frame};
ghost use Rattle.pieces.specs.Writable.{peer_piece, record_with, writable};
ghost use Rattle.peer.specs.Addresses.{two, address_size, addresses_of};
ghost use Rattle.writer.specs.Writer.{peer_size, peer_at, peers_of, message_with, answer_of, out_after};
ghost use Rattle.writer.specs.Inner.{count_of, sized, pieces, held_size, held_piece, message_pieces, size_of};
ghost use Rattle.pieces.specs.Sizes.{long_field, most_record_field};

use refusal::Refusal;

const CLOSER: u8 = 8;

const PROVIDER: u8 = 9;

// A byte of a slice, 0 past its end.
fn byte_at(s: &[u8], at: usize) -> usize
    ensures { (result ≡ get_or s.now at 0) × (result < 256) }
{
    if s.len() <= at {
        return 0;
    }
    s[at] as usize
}

// Two bytes as a number, the lower first.
fn two_at(s: &[u8], at: usize) -> usize
    requires { at < 100000 }
    ensures { (result ≡ two s.now at) × (result < 65536) }
{
    byte_at(s, at) + byte_at(s, at + 1) * 256
}

// How many bytes an address and its length have at the start of a list.
fn address_size(s: &[u8]) -> usize
    ensures { (result ≡ address_size s.now) × (result < 65538) }
{
    2 + two_at(s, 0)
}

// The number of addresses of a list, 5 standing for more than four.
fn address_count(list: &[u8]) -> usize
    ensures { result ≡ count_of (addresses_of list.now) }
{
    let mut at: usize = 0;
    for n in 0..5 {
        let rest = &list[at..];
        let size = address_size(rest);
        if rest.len() < size {
            return n;
        }
        at += size;
    }
    5
}

// The address of place k of a list; an empty one where there are no more.
fn address_at(list: &[u8], k: usize) -> &[u8]
    ensures { result.now ≡ get_or (addresses_of list.now) k [] }
{
    let mut at: usize = 0;
    for i in 0..k {
        let rest = &list[at..];
        let size = address_size(rest);
        if rest.len() < size {
            return &list[0..0];
        }
        at += size;
    }
    first_address(&list[at..])
}

// The first address of a list.
fn first_address(list: &[u8]) -> &[u8]
    ensures { result.now ≡ get_or (addresses_of list.now) 0 [] }
{
    let size = address_size(list);
    if list.len() < size {
        return &list[0..0];
    }
    &list[2..size]
}

// How many bytes the entry at the start of a peer list has.
fn entry_size(s: &[u8]) -> usize
    ensures { (result ≡ peer_size s.now) × (result < 140000) }
{
    let i = two_at(s, 0);
    5 + i + two_at(s, 3 + i)
}

// How many bytes the first entry of a list takes as field f; 0 where it is over its limits.
fn entry_len(field: u8, s: &[u8]) -> usize
    requires { peer_size s.now ≤ length s.now }
    ensures { result ≡ length (peer_piece field (peer_at s.now)) }
{
    let i = two_at(s, 0);
    let id_end = 2 + i;
    let start = 5 + i;
    let end = entry_size(s);
    let list = &s[start..end];
    let n = address_count(list);
    if 4 < n {
        return 0;
    }
    pieces::peer_len(
        field,
        &s[2..id_end],
        n,
        address_at(list, 0),
        address_at(list, 1),
        address_at(list, 2),
        address_at(list, 3),
        s[id_end],
    )
}

// Writes the first entry of a list as field f.
fn put_entry(buf: &mut [u8], at: usize, field: u8, s: &[u8]) -> usize
    requires { peer_size s.now ≤ length s.now }
    ensures { Put buf.old at (peer_piece field (peer_at s.now)) buf.new result }
{
    let i = two_at(s, 0);
    let id_end = 2 + i;
    let start = 5 + i;
    let end = entry_size(s);
    let list = &s[start..end];
    let n = address_count(list);
    if 4 < n {
        return at;
    }
    pieces::put_peer(
        buf,
        at,
        field,
        &s[2..id_end],
        n,
        address_at(list, 0),
        address_at(list, 1),
        address_at(list, 2),
        address_at(list, 3),
        s[id_end],
    )
}

// How many bytes the peers of a list take as field f.
fn list_len(field: u8, s: &[u8]) -> Option<usize>
    ensures { result ≡ sized field 0 (peers_of s.now) }
{
    let mut sum: usize = 0;
    let mut at: usize = 0;
    loop {
        let rest = &s[at..];
        let size = entry_size(rest);
        if rest.len() < size {
            return Some(sum);
        }
        let n = entry_len(field, rest);
        if n == 0 {
            return None;
        }
        if limits::MOST_BODY - sum < n {
            return None;
        }
        sum += n;
        at += size;
    }
}

// Writes the peers of a list as field f.
fn put_list(buf: &mut [u8], from: usize, field: u8, s: &[u8]) -> usize
    ensures { Put buf.old from (pieces field (peers_of s.now)) buf.new result }
{
    let mut to = from;
    let mut at: usize = 0;
    loop {
        let rest = &s[at..];
        let size = entry_size(rest);
        if rest.len() < size {
            return to;
        }
        to = put_entry(buf, to, field, rest);
        at += size;
    }
}

// How many bytes the key's field has.
fn key_len(key: &[u8]) -> usize
    requires { length key.now ≤ most_key }
    ensures { (result ≡ length (written (single 2 key.now))) × (result ≤ 131) }
{
    if key.len() == 0 {
        return 0;
    }
    1 + wire_put::varint_len(key.len() as u64) + key.len()
}

// How many bytes the record has as a field, if there is one.
fn held_len(held: bool, rkey: &[u8], value: &[u8]) -> Option<usize>
    ensures { result ≡ held_size (cond held (Some (record_with rkey.now value.now)) None) }
{
    if held {
        let n = pieces::record_len(rkey, value);
        if n == 0 {
            return None;
        }
        return Some(n);
    }
    Some(0)
}

// The size of a body from those of its parts, if it may be written.
fn total(key: usize, held: usize, closer: usize, providers: usize) -> Option<usize>
    requires { (key ≤ long_field most_key) × (held ≤ most_record_field) × (closer ≤ most_body) × (providers ≤ most_body) }
    ensures { result ≡ cond (leb (2 + key + held + closer + providers) most_body) (Some (2 + key + held + closer + providers)) None }
{
    let n = 2 + key + held + closer + providers;
    if n <= limits::MOST_BODY {
        return Some(n);
    }
    None
}

// How many bytes the body of a message has, if it may be written.
fn body_len(
    kind: u64,
    key: &[u8],
    held: bool,
    rkey: &[u8],
    value: &[u8],
    closer: &[u8],
    providers: &[u8],
) -> Option<usize>
    ensures { result ≡ size_of (message_with kind key.now held rkey.now value.now closer.now providers.now) }
{
    if limits::MOST_KIND < kind {
        return None;
    }
    if limits::MOST_KEY < key.len() {
        return None;
    }
    let h = held_len(held, rkey, value)?;
    let a = list_len(CLOSER, closer)?;
    let b = list_len(PROVIDER, providers)?;
    total(key_len(key), h, a, b)
}

fn put_held(buf: &mut [u8], at: usize, held: bool, rkey: &[u8], value: &[u8]) -> usize
    ensures { Put buf.old at (held_piece held rkey.now value.now) buf.new result }
{
    if held {
        return pieces::put_record(buf, at, rkey, value);
    }
    at
}

// Writes a body of size bytes with its prefix.
fn put_message(
    out: &mut [u8],
    size: usize,
    kind: u64,
    key: &[u8],
    held: bool,
    rkey: &[u8],
    value: &[u8],
    closer: &[u8],
    providers: &[u8],
) -> usize
    ensures { Put out.old 0 (minimal size ++ message_pieces kind key.now held rkey.now value.now closer.now providers.now) out.new result }
{
    let a = wire_put::put_varint(out, 0, size as u64);
    let b = wire_put::put_number(out, a, 1, kind);
    let c = wire_put::put_single(out, b, 2, key);
    let d = put_held(out, c, held, rkey, value);
    let e = put_list(out, d, CLOSER, closer);
    put_list(out, e, PROVIDER, providers)
}

// Writes a message with its length prefix from the start of out on: its type, its key, its record if it has one, and its peers, given as byte strings.
pub fn write(
    out: &mut [u8],
    kind: u64,
    key: &[u8],
    held: bool,
    rkey: &[u8],
    value: &[u8],
    closer: &[u8],
    providers: &[u8],
) -> Result<usize, Refusal>
    ensures { (result ≡ answer_of out.old (message_with kind key.now held rkey.now value.now closer.now providers.now)) × (out.new ≡ out_after out.old (message_with kind key.now held rkey.now value.now closer.now providers.now)) }
{
    if out.len() < limits::LEAST_REPLY {
        return Err(Refusal::SmallBuffer);
    }
    let Some(n) = body_len(kind, key, held, rkey, value, closer, providers) else {
        return Err(Refusal::Unwritable);
    };
    let end = put_message(out, n, kind, key, held, rkey, value, closer, providers);
    Ok(end)
}
