#![tactic(auto)]
// Reads and writes messages that were worked out by RULES, Messages, and writes a line for each: what was read, or by which number it was refused.
use message::{Fields, Held};
use refusal::Refusal;
use std::io;
use std::io::{Print, Stdout};
use wire::Span;

fn say(to: Stdout, text: &[u8]) -> io::Result<()> {
    to.write_all(text)
}

fn count(to: Stdout, n: u64) -> io::Result<()> {
    to.print(n)
}

fn refused(to: Stdout, r: Refusal) -> io::Result<()> {
    say(to, b"refused ")?;
    count(to, refusal::number(r) as u64)?;
    say(to, b"\n")
}

// A part of a slice; nothing where there is no such part.
fn part(s: &[u8], at: usize, end: usize) -> &[u8] {
    if s.len() < end {
        return &s[..0];
    }
    if end < at {
        return &s[..0];
    }
    &s[at..end]
}

fn say_span(to: Stdout, body: &[u8], p: Span) -> io::Result<()> {
    say(to, part(body, p.at, p.end))
}

fn tell_held(to: Stdout, body: &[u8], h: Held) -> io::Result<()> {
    if h.there {
        say(to, b", record ")?;
        let key = h.key;
        say_span(to, body, key)?;
        say(to, b"=")?;
        let value = h.value;
        return say_span(to, body, value);
    }
    Ok(())
}

// The next address of a peer, if there is one; answers where to go on.
fn tell_address(to: Stdout, body: &[u8], at: usize, end: usize, from: usize) -> io::Result<usize> {
    match message::peer_address(body, Span { at, end }, from) {
        Some(p) => {
            say(to, b" [")?;
            say_span(to, body, p)?;
            say(to, b"]")?;
            Ok(p.end)
        }
        None => Ok(from),
    }
}

// A peer: its id, its connection, and its addresses, of which none here has more than three.
fn tell_peer(to: Stdout, body: &[u8], at: usize, end: usize) -> io::Result<()> {
    let id = message::peer_id(body, Span { at, end });
    say_span(to, body, id)?;
    say(to, b"] ")?;
    count(to, message::peer_connection(body, Span { at, end }))?;
    let a = tell_address(to, body, at, end, at)?;
    let b = tell_address(to, body, at, end, a)?;
    tell_address(to, body, at, end, b)?;
    Ok(())
}

fn tell_closer(to: Stdout, body: &[u8], from: usize) -> io::Result<usize> {
    match message::closer_peer(body, from) {
        Some(p) => {
            say(to, b"; closer [")?;
            tell_peer(to, body, p.at, p.end)?;
            Ok(p.end)
        }
        None => Ok(from),
    }
}

fn tell_provider(to: Stdout, body: &[u8], from: usize) -> io::Result<usize> {
    match message::provider_peer(body, from) {
        Some(p) => {
            say(to, b"; provider [")?;
            tell_peer(to, body, p.at, p.end)?;
            Ok(p.end)
        }
        None => Ok(from),
    }
}

// A message, and its peers, of which none here has more than three in a list.
fn tell(to: Stdout, body: &[u8], m: Fields) -> io::Result<()> {
    say(to, b"type ")?;
    count(to, m.kind)?;
    let key = m.key;
    if key.at < key.end {
        say(to, b", key ")?;
        say_span(to, body, key)?;
    }
    let h = m.held;
    tell_held(to, body, h)?;
    let a = tell_closer(to, body, 0)?;
    let b = tell_closer(to, body, a)?;
    tell_closer(to, body, b)?;
    let c = tell_provider(to, body, 0)?;
    let d = tell_provider(to, body, c)?;
    tell_provider(to, body, d)?;
    say(to, b"\n")
}

fn read(to: Stdout, name: &[u8], body: &[u8]) -> io::Result<()> {
    say(to, name)?;
    say(to, b": ")?;
    match message::read(body) {
        Ok(m) => tell(to, body, m),
        Err(r) => refused(to, r),
    }
}

// Whole messages, one of each kind that a box sends.
fn messages(to: Stdout) -> io::Result<()> {
    read(to, b"nothing", &[0; 0])?;
    read(to, b"PING", &[0x08, 5])?;
    read(to, b"FIND_NODE", &[0x08, 4, 0x12, 2, b'A', b'B'])?;
    read(
        to,
        b"a reply",
        &[
            0x08, 4, 0x42, 15, 0x0A, 3, b'o', b'n', b'e', 0x12, 2, b'a', b'1', 0x12, 2, b'a', b'2',
            0x18, 1, 0x42, 10, 0x0A, 3, b't', b'w', b'o', 0x12, 1, b'b', 0x18, 0,
        ],
    )
}

fn values_and_providers(to: Stdout) -> io::Result<()> {
    read(
        to,
        b"PUT_VALUE",
        &[
            0x08, 0, 0x12, 2, b'k', b'1', 0x1A, 9, 0x0A, 2, b'k', b'1', 0x12, 3, b'v', b'a', b'l',
        ],
    )?;
    read(
        to,
        b"providers",
        &[0x08, 3, 0x4A, 5, 0x0A, 3, b'c', b'a', b't', 0x4A, 0],
    )
}

fn varints(to: Stdout) -> io::Result<()> {
    read(
        to,
        b"tag, type and length padded",
        &[
            0x88, 0x80, 0x80, 0x80, 0, 0x84, 0x80, 0, 0x12, 0x82, 0, b'A', b'B',
        ],
    )?;
    read(
        to,
        b"a length of ten bytes",
        &[
            0x12, 0x82, 0x80, 0x80, 0x80, 0x80, 0x80, 0x80, 0x80, 0x80, 0, b'A', b'B',
        ],
    )?;
    read(
        to,
        b"the highest tag",
        &[0xF8, 0xFF, 0xFF, 0xFF, 0x0F, 0, 0x08, 5],
    )?;
    read(
        to,
        b"a type of 64 bits",
        &[
            0x08, 0xFF, 0xFF, 0xFF, 0xFF, 0xFF, 0xFF, 0xFF, 0xFF, 0xFF, 1,
        ],
    )?;
    read(to, b"type 2^32 + 4", &[0x08, 0x84, 0x80, 0x80, 0x80, 0x10])
}

fn skipped(to: Stdout) -> io::Result<()> {
    read(
        to,
        b"unknown fields",
        &[
            0x78, 7, 0x81, 1, 1, 2, 3, 4, 5, 6, 7, 8, 0x22, 1, b'z', 0x35, 1, 2, 3, 4, 0x08, 5,
        ],
    )?;
    read(
        to,
        b"known fields of another wire type",
        &[
            0x0A, 1, b'x', 0x10, 7, 0x1D, 1, 2, 3, 4, 0x40, 1, 0x49, 1, 2, 3, 4, 5, 6, 7, 8, 0x08,
            5,
        ],
    )
}

fn last_of_several(to: Stdout) -> io::Result<()> {
    read(
        to,
        b"the last counts",
        &[0x08, 4, 0x08, 5, 0x12, 1, b'A', 0x12, 1, b'B'],
    )?;
    read(
        to,
        b"a record in two fields",
        &[
            0x1A, 4, 0x0A, 2, b'k', b'1', 0x1A, 5, 0x12, 3, b'v', b'a', b'l',
        ],
    )?;
    read(
        to,
        b"connections 3 and 4",
        &[0x42, 2, 0x18, 3, 0x42, 2, 0x18, 4],
    )?;
    read(
        to,
        b"timeReceived that is no text, and clusterLevelRaw",
        &[0x1A, 3, 0x2A, 1, 0xFF, 0x50, 1],
    )
}

fn bad_wire_types(to: Stdout) -> io::Result<()> {
    read(to, b"wire type 3", &[0x08, 5, 0x7B])?;
    read(to, b"wire type 3, with its 4", &[0x08, 5, 0x7B, 0x7C])?;
    read(to, b"wire type 4", &[0x08, 5, 0x7C])?;
    read(to, b"wire type 6", &[0x08, 5, 0x7E])?;
    read(to, b"wire type 7", &[0x08, 5, 0x7F])
}

fn bad_tags(to: Stdout) -> io::Result<()> {
    read(to, b"field 0 as a number", &[0, 5])?;
    read(to, b"field 0 as bytes", &[2, 0])?;
    read(
        to,
        b"a tag of six bytes",
        &[0x88, 0x80, 0x80, 0x80, 0x80, 0, 5],
    )?;
    read(to, b"tag 2^32 + 8", &[0x88, 0x80, 0x80, 0x80, 0x10, 5])
}

fn bad_varints(to: Stdout) -> io::Result<()> {
    read(
        to,
        b"a varint above 64 bits",
        &[
            0x08, 0xFF, 0xFF, 0xFF, 0xFF, 0xFF, 0xFF, 0xFF, 0xFF, 0xFF, 2,
        ],
    )?;
    read(
        to,
        b"a varint of eleven bytes",
        &[
            0x08, 0x80, 0x80, 0x80, 0x80, 0x80, 0x80, 0x80, 0x80, 0x80, 0x80, 0,
        ],
    )
}

fn past_their_end(to: Stdout) -> io::Result<()> {
    read(to, b"a tag alone", &[0x08])?;
    read(to, b"a varint without an end", &[0x08, 0x80])?;
    read(to, b"a key past the end", &[0x12, 3, b'A', b'B'])?;
    read(
        to,
        b"eight bytes past the end",
        &[0x79, 1, 2, 3, 4, 5, 6, 7],
    )?;
    read(to, b"four bytes past the end", &[0x7D, 1, 2, 3])
}

fn bad_inside(to: Stdout) -> io::Result<()> {
    read(to, b"a malformed record", &[0x1A, 1, 0x7B, 0x08, 5])?;
    read(to, b"a malformed closer peer", &[0x42, 1, 0x7B, 0x08, 5])?;
    read(to, b"a malformed provider", &[0x4A, 1, 0x7B, 0x08, 5])?;
    read(
        to,
        b"an id past its peer's end",
        &[0x42, 3, 0x0A, 2, b'A', b'B', 0x08, 5],
    )?;
    read(to, b"an unknown field's inside", &[0x7A, 1, 0x7B, 0x08, 5])
}

fn lengths_and_types(to: Stdout) -> io::Result<()> {
    read(to, b"type 6", &[0x08, 6])?;
    read(to, b"type 6, malformed", &[0x08, 6, 0x7B])?;
    read(to, b"16,384 zeros", &[0; 16384])?;
    read(to, b"16,385 zeros", &[0; 16385])
}

fn tell_byte(to: Stdout, b: u8) -> io::Result<()> {
    say(to, b" ")?;
    print!(to; "{b:02x}")
}

// Bytes in hexadecimal.
fn tell_bytes(to: Stdout, s: &[u8]) -> io::Result<()> {
    for b in s {
        tell_byte(to, *b)?;
    }
    Ok(())
}

// What was read back, in short. A prefix has a second byte from 128 on.
fn tell_long(to: Stdout, out: &[u8], n: usize) -> io::Result<()> {
    let mut start: usize = 2;
    if n < 129 {
        start = 1;
    }
    match message::read(part(out, start, n)) {
        Ok(m) => {
            say(to, b"; read back: type ")?;
            count(to, m.kind)?;
            say(to, b"\n")
        }
        Err(r) => refused(to, r),
    }
}

// A frame that was written: its length, its bytes where they are few, and its body read back.
fn tell_frame(to: Stdout, out: &[u8], n: usize) -> io::Result<()> {
    count(to, n as u64)?;
    say(to, b" bytes")?;
    if 40 < n {
        return tell_long(to, out, n);
    }
    tell_bytes(to, part(out, 0, n))?;
    read(to, b"; read back", part(out, 1, n))
}

fn write(
    to: Stdout,
    name: &[u8],
    out: &mut [u8],
    kind: u64,
    key: &[u8],
    held: bool,
    rkey: &[u8],
    value: &[u8],
    closer: &[u8],
    providers: &[u8],
) -> io::Result<()> {
    say(to, name)?;
    say(to, b": ")?;
    match writer::write(out, kind, key, held, rkey, value, closer, providers) {
        Ok(n) => tell_frame(to, out, n),
        Err(r) => refused(to, r),
    }
}

// A message with a key and a record, or with the key alone.
fn write_values(
    to: Stdout,
    name: &[u8],
    out: &mut [u8],
    kind: u64,
    key: &[u8],
    held: bool,
    rkey: &[u8],
    value: &[u8],
) -> io::Result<()> {
    write(to, name, out, kind, key, held, rkey, value, b"", b"")
}

// A message with peers alone.
fn write_peers(
    to: Stdout,
    name: &[u8],
    out: &mut [u8],
    kind: u64,
    closer: &[u8],
    providers: &[u8],
) -> io::Result<()> {
    write(to, name, out, kind, b"", false, b"", b"", closer, providers)
}

fn written(to: Stdout, out: &mut [u8]) -> io::Result<()> {
    write_values(to, b"write PING", out, 5, b"", false, b"", b"")?;
    write_values(to, b"write FIND_NODE", out, 4, b"AB", false, b"", b"")?;
    write_values(to, b"write PUT_VALUE", out, 0, b"k1", true, b"k1", b"val")?;
    write_values(to, b"write an empty record", out, 0, b"", true, b"", b"")
}

fn written_peers(to: Stdout, out: &mut [u8]) -> io::Result<()> {
    write_peers(
        to,
        b"write an empty peer and one with an empty address",
        out,
        3,
        &[0, 0, 0, 0, 0],
        &[1, 0, b'p', 2, 2, 0, 0, 0],
    )?;
    write_peers(
        to,
        b"write a reply",
        out,
        4,
        &[
            3, 0, b'o', b'n', b'e', 1, 8, 0, 2, 0, b'a', b'1', 2, 0, b'a', b'2', 3, 0, b't', b'w',
            b'o', 0, 3, 0, 1, 0, b'b',
        ],
        b"",
    )
}

fn over_limits(to: Stdout, out: &mut [u8]) -> io::Result<()> {
    write_values(to, b"write type 6", out, 6, b"", false, b"", b"")?;
    write_values(
        to,
        b"write a key of 128",
        out,
        1,
        &[b'x'; 128],
        false,
        b"",
        b"",
    )?;
    write_values(
        to,
        b"write a key of 129",
        out,
        1,
        &[b'x'; 129],
        false,
        b"",
        b"",
    )
}

fn over_record_limits(to: Stdout, out: &mut [u8]) -> io::Result<()> {
    write_values(
        to,
        b"write a record's key of 129",
        out,
        1,
        b"",
        true,
        &[b'x'; 129],
        b"",
    )?;
    write_values(
        to,
        b"write a value of 2,049",
        out,
        1,
        b"",
        true,
        b"",
        &[b'x'; 2049],
    )?;
    write_values(
        to,
        b"write a value of 3,072",
        out,
        1,
        b"",
        true,
        b"",
        &[b'x'; 3072],
    )?;
    write_values(
        to,
        b"write a value of 3,073",
        out,
        1,
        b"",
        true,
        b"",
        &[b'x'; 3073],
    )
}

fn unwritable(to: Stdout, out: &mut [u8]) -> io::Result<()> {
    write_peers(to, b"write connection 4", out, 1, &[0, 0, 4, 0, 0], b"")?;
    write_peers(
        to,
        b"write five addresses",
        out,
        1,
        &[0, 0, 0, 10, 0, 0, 0, 0, 0, 0, 0, 0, 0, 0, 0],
        b"",
    )?;
    let mut short = [0u8; 16386];
    write_values(
        to,
        b"write into 16,386 bytes",
        &mut short,
        5,
        b"",
        false,
        b"",
        b"",
    )
}

// A peer with an id of n bytes and an address of m.
fn sizes(to: Stdout, name: &[u8], out: &mut [u8], n: u8, m: u8) -> io::Result<()> {
    let mut entry = [b'x'; 600];
    let id = n as usize;
    let list = (m as usize) + 2;
    octets::copy(&mut entry, 0, &[n, 0]);
    octets::copy(
        &mut entry,
        id + 2,
        &[0, (list % 256) as u8, (list / 256) as u8, m, 0],
    );
    write_peers(to, name, out, 1, part(&entry, 0, id + list + 5), b"")
}

fn peer_limits(to: Stdout, out: &mut [u8]) -> io::Result<()> {
    sizes(to, b"write an id of 64", out, 64, 0)?;
    sizes(to, b"write an id of 65", out, 65, 0)?;
    sizes(to, b"write an address of 128", out, 0, 128)?;
    sizes(to, b"write an address of 129", out, 0, 129)
}

// Twenty entries one after another.
fn put_twenty(list: &mut [u8], entry: &[u8]) {
    for k in 0..20 {
        octets::copy(list, k * 589, entry);
    }
}

// A peer with an id of 64 bytes and four addresses of 128.
fn put_full(entry: &mut [u8]) {
    octets::copy(entry, 0, &[64, 0]);
    octets::copy(entry, 66, &[0, 8, 2, 128, 0]);
    octets::copy(entry, 199, &[128, 0]);
    octets::copy(entry, 329, &[128, 0]);
    octets::copy(entry, 459, &[128, 0]);
}

// Twenty full peers, and a full record: the largest GET_VALUE reply.
fn largest(to: Stdout, out: &mut [u8]) -> io::Result<()> {
    let mut entry = [b'x'; 589];
    put_full(&mut entry);
    let mut list = [0u8; 11780];
    put_twenty(&mut list, &entry);
    write(
        to,
        b"write the largest GET_VALUE reply",
        out,
        1,
        b"",
        true,
        &[b'k'; 128],
        &[b'v'; 3072],
        &list,
        b"",
    )
}

fn reading(to: Stdout) -> io::Result<()> {
    messages(to)?;
    values_and_providers(to)?;
    varints(to)?;
    skipped(to)?;
    last_of_several(to)
}

fn refusing(to: Stdout) -> io::Result<()> {
    bad_wire_types(to)?;
    bad_tags(to)?;
    bad_varints(to)?;
    past_their_end(to)?;
    bad_inside(to)?;
    lengths_and_types(to)
}

fn main(rt: HostRuntime) -> io::Result<()> {
    let to = rt.stdout();
    reading(to)?;
    refusing(to)?;
    let mut out = [0u8; 16387];
    written(to, &mut out)?;
    written_peers(to, &mut out)?;
    over_limits(to, &mut out)?;
    over_record_limits(to, &mut out)?;
    unwritable(to, &mut out)?;
    peer_limits(to, &mut out)?;
    largest(to, &mut out)
}
