#![tactic(auto)]
// Reads messages that were worked out by RULES, Messages, through their views, and writes a line for each: type, key and record's value. Then a view with other
// positions, and records in several fields.
use message::Fields;
use refusal::Refusal;
use std::io;
use std::io::{Print, Stdout};
use wire::Span;

fn say(out: Stdout, text: &[u8]) -> io::Result<()> {
    out.write_all(text)
}

fn count(out: Stdout, n: u64) -> io::Result<()> {
    out.print(n)
}

fn refused(out: Stdout, r: Refusal) -> io::Result<()> {
    say(out, b"refused ")?;
    count(out, refusal::number(r) as u64)
}

fn tell_kind(out: Stdout, k: Result<u64, Refusal>) -> io::Result<()> {
    match k {
        Ok(n) => {
            say(out, b"type ")?;
            count(out, n)
        }
        Err(r) => refused(out, r),
    }
}

fn tell(out: Stdout, name: &[u8], body: &[u8]) -> io::Result<()> {
    say(out, name)?;
    say(out, b": ")?;
    tell_kind(out, view::kind_of(body))?;
    say(out, b", key [")?;
    say(out, view::key_of(body))?;
    say(out, b"], value [")?;
    say(out, view::record_value_of(body))?;
    say(out, b"]\n")
}

fn tell_part(out: Stdout, p: Result<Span, Refusal>) -> io::Result<()> {
    match p {
        Ok(s) => {
            say(out, b"at ")?;
            count(out, s.at as u64)?;
            say(out, b" to ")?;
            count(out, s.end as u64)
        }
        Err(r) => refused(out, r),
    }
}

fn tell_entry(out: Stdout, e: Result<Option<Span>, Refusal>) -> io::Result<()> {
    match e {
        Ok(Some(s)) => {
            say(out, b"at ")?;
            count(out, s.at as u64)?;
            say(out, b" to ")?;
            count(out, s.end as u64)
        }
        Ok(None) => say(out, b"nothing"),
        Err(r) => refused(out, r),
    }
}

// The parts of a body at positions that may be another's.
fn tell_at(out: Stdout, name: &[u8], body: &[u8], at: Fields) -> io::Result<()> {
    say(out, name)?;
    say(out, b": key ")?;
    tell_part(out, parts::key(body, at))?;
    say(out, b", record's key ")?;
    tell_entry(out, parts::record_key(body, at))?;
    say(out, b", value ")?;
    tell_entry(out, parts::record_value(body, at))?;
    say(out, b", closer peer ")?;
    tell_entry(out, parts::closer_peer(body, at, 0))?;
    say(out, b", provider ")?;
    tell_entry(out, parts::provider_peer(body, at, 0))?;
    say(out, b"\n")
}

// The parts of a body at the reader's positions.
fn tell_parts(out: Stdout, name: &[u8], body: &[u8]) -> io::Result<()> {
    tell_at(out, name, body, parts::positions(body))
}

// A record in several fields, read as though they stood one after another.
fn split_records(out: Stdout) -> io::Result<()> {
    tell_parts(
        out,
        b"key, then value",
        &[0x1A, 3, 0x0A, 1, b'A', 0x1A, 3, 0x12, 1, b'B'],
    )?;
    tell_parts(
        out,
        b"value, then key",
        &[0x1A, 3, 0x12, 1, b'B', 0x1A, 3, 0x0A, 1, b'A'],
    )?;
    tell_parts(
        out,
        b"key, then nothing",
        &[0x1A, 3, 0x0A, 1, b'A', 0x1A, 0],
    )?;
    tell_parts(out, b"nothing at all", &[0x1A, 0])?;
    tell_parts(
        out,
        b"key, then an empty key",
        &[0x1A, 3, 0x0A, 1, b'A', 0x1A, 2, 0x0A, 0],
    )?;
    tell_parts(
        out,
        b"key, a number 3, then value",
        &[0x1A, 3, 0x0A, 1, b'A', 0x18, 7, 0x1A, 3, 0x12, 1, b'B'],
    )?;
    tell_parts(
        out,
        b"well formed only if joined",
        &[0x1A, 1, 0x0A, 0x1A, 2, 1, b'A'],
    )
}

fn main(rt: HostRuntime) -> io::Result<()> {
    let out = rt.stdout();
    let ask = [0x08, 4, 0x12, 2, b'A', b'B'];
    let put = [
        0x12, 2, b'k', b'1', 0x1A, 9, 0x0A, 2, b'k', b'1', 0x12, 3, b'v', b'a', b'l',
    ];
    let reply = [0x08, 4, 0x42, 3, 0x0A, 1, b'p', 0x4A, 3, 0x0A, 1, b'q'];
    tell(out, b"PING", &[0x08, 5])?;
    tell(out, b"FIND_NODE", &ask)?;
    tell(out, b"PUT_VALUE", &put)?;
    tell(out, b"type 6", &[0x08, 6, 0x12, 2, b'A', b'B'])?;
    tell(out, b"a part past its end", &[0x08, 4, 0x12, 3, b'A', b'B'])?;
    tell_parts(out, b"FIND_NODE", &ask)?;
    tell_parts(out, b"PUT_VALUE", &put)?;
    tell_parts(out, b"a reply", &reply)?;
    tell_at(
        out,
        b"a reply at another's positions",
        &reply,
        parts::positions(&ask),
    )?;
    split_records(out)
}
