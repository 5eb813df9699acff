#![tactic(auto)]
// Protocol Buffers: varints and fields, read from a slice by position.
ghost use Rattle.std.specs.Prelude.{◌≡◌, [], ◌∷◌, ◌^◌, ◌<◌};
ghost use Rattle.octets.specs.Search.{last_of};
ghost use Rattle.wire.specs.Wire.{varint_at, end_at, fixed_at, number_at, bytes_at, content_at, field_at, next_of, fields_at, well, numbers, span_if, spans, first_of};
ghost use Rattle.wire.specs.Inner.{tenth_at};

// A part of a slice: where it starts, and where it ends.
#[derive(Clone, Copy, PartialEq, Eq)]
pub struct Span {
    pub at: usize,
    pub end: usize,
}

// A field: a number with its value and the position after it; bytes; or one of a fixed width, which is only passed over.
#[derive(Clone, Copy)]
pub enum Field {
    End,
    Bad,
    Number(u64, u64, usize),
    Bytes(u64, Span),
    Other(usize),
}

// Where the next field starts. Three outcomes, of which the broken one has nothing to tell: as Result<Option<usize>, ()> they would be no plainer.
#[derive(Drop)]
pub enum Next {
    Done,
    Broken,
    On(usize),
}

fn wide(x: u8) -> u64
    ensures { (result ≡ x) × (result < 256) }
{
    x as u64
}

// The tenth byte of a varint, which has one bit left to give.
fn tenth(s: &[u8], at: usize, acc: u64) -> Option<(u64, usize)>
    requires { acc < 2 ^ 63 }
    ensures { result ≡ tenth_at s.now at acc }
{
    if s.len() <= at {
        return None;
    }
    let b = wide(s[at]);
    if b < 2 {
        return Some((acc + b * 0x8000_0000_0000_0000, at + 1));
    }
    None
}

// The varint at a position, and the position after it.
pub fn read_varint(s: &[u8], at: usize) -> Option<(u64, usize)>
    ensures { result ≡ varint_at s.now at }
{
    let mut acc: u64 = 0;
    let mut place: u64 = 1;
    let mut i = at;
    let mut left: u64 = 9;
    while left > 0 {
        if i >= s.len() {
            return None;
        }
        let b = wide(s[i]);
        if b < 128 {
            return Some((acc + b * place, i + 1));
        }
        acc += (b - 128) * place;
        place *= 128;
        i += 1;
        left -= 1;
    }
    tenth(s, i, acc)
}

// Where a part of size bytes ends.
fn part_end(s: &[u8], at: usize, size: u64) -> Option<usize>
    ensures { result ≡ end_at s.now at size }
{
    if s.len() < at {
        return None;
    }
    let n = size as usize;
    if n <= s.len() - at {
        return Some(at + n);
    }
    None
}

// Wire type 0: a varint.
fn number_field(s: &[u8], at: usize, number: u64) -> Field
    ensures { result ≡ number_at s.now at number }
{
    match read_varint(s, at) {
        Some((value, next)) => Field::Number(number, value, next),
        None => Field::Bad,
    }
}

// Wire types 1 and 5: a fixed number of bytes.
fn fixed_field(s: &[u8], at: usize, size: u64) -> Field
    ensures { result ≡ fixed_at s.now at size }
{
    match part_end(s, at, size) {
        Some(next) => Field::Other(next),
        None => Field::Bad,
    }
}

// Wire type 2: a length, and as many bytes.
fn bytes_field(s: &[u8], at: usize, number: u64) -> Field
    ensures { result ≡ bytes_at s.now at number }
{
    match read_varint(s, at) {
        Some((value, next)) => match part_end(s, next, value) {
            Some(end) => Field::Bytes(number, Span { at: next, end }),
            None => Field::Bad,
        },
        None => Field::Bad,
    }
}

// What follows a tag, by field number and wire type: each has its own length rule, or is refused.
fn content(s: &[u8], at: usize, number: u64, wire: u64) -> Field
    ensures { result ≡ content_at s.now at number wire }
{
    if number == 0 {
        return Field::Bad;
    }
    match wire {
        0 => number_field(s, at, number),
        1 => fixed_field(s, at, 8),
        2 => bytes_field(s, at, number),
        5 => fixed_field(s, at, 4),
        _ => Field::Bad,
    }
}

// The field at a position.
pub fn read_field(s: &[u8], at: usize) -> Field
    ensures { result ≡ field_at s.now at }
{
    if s.len() <= at {
        return Field::End;
    }
    match read_varint(s, at) {
        Some((tag, next)) => {
            if at + 5 < next {
                return Field::Bad;
            }
            if 0x1_0000_0000 <= tag {
                return Field::Bad;
            }
            content(s, next, tag / 8, tag % 8)
        }
        None => Field::Bad,
    }
}

// Where the field after f starts.
pub fn after(f: Field) -> Next
    ensures { result ≡ next_of f }
{
    match f {
        Field::End => Next::Done,
        Field::Bad => Next::Broken,
        Field::Number(_, _, next) => Next::On(next),
        Field::Bytes(_, p) => Next::On(p.end),
        Field::Other(next) => Next::On(next),
    }
}

// Whether every field from a position on is well formed.
pub fn well_formed(s: &[u8], from: usize) -> bool
    ensures { result ≡ well (fields_at s.now from) }
{
    let mut at = from;
    loop {
        match after(read_field(s, at)) {
            Next::Done => return true,
            Next::Broken => return false,
            Next::On(next) => {
                at = next;
            }
        }
    }
}

// The place of f's bytes, if it is a bytes field of that number.
fn span_if(number: u64, f: Field) -> Option<Span>
    ensures { result ≡ span_if number f }
{
    match f {
        Field::Bytes(g, p) => {
            if g == number {
                return Some(p);
            }
            None
        }
        Field::Number(_, _, _) => None,
        Field::Other(_) => None,
        Field::End => None,
        Field::Bad => None,
    }
}

// The first bytes field of a number from a position on: from 0, and then from each end, these are all of them.
pub fn next_bytes(s: &[u8], from: usize, number: u64) -> Option<Span>
    ensures { result ≡ first_of (spans number (fields_at s.now from)) }
{
    let mut at = from;
    loop {
        let f = read_field(s, at);
        match after(f) {
            Next::Done => return None,
            Next::Broken => return None,
            Next::On(next) => match span_if(number, f) {
                Some(p) => return Some(p),
                None => {
                    at = next;
                }
            },
        }
    }
}

// The last bytes field of a number from a position on, or another part where there is none.
pub fn last_bytes(s: &[u8], from: usize, number: u64, other: Span) -> Span
    ensures { result ≡ last_of other (spans number (fields_at s.now from)) }
{
    let mut last = other;
    let mut at = from;
    loop {
        match next_bytes(s, at, number) {
            Some(p) => {
                last = p;
                at = p.end;
            }
            None => return last,
        }
    }
}

fn value_or(number: u64, f: Field, other: u64) -> u64
    ensures { result ≡ last_of other (numbers number (f ∷ [])) }
{
    match f {
        Field::Number(g, v, _) => {
            if g == number {
                return v;
            }
            other
        }
        Field::Bytes(_, _) => other,
        Field::Other(_) => other,
        Field::End => other,
        Field::Bad => other,
    }
}

// The value of the last number field of a number from a position on.
pub fn last_number(s: &[u8], from: usize, number: u64) -> u64
    ensures { result ≡ last_of 0 (numbers number (fields_at s.now from)) }
{
    let mut last: u64 = 0;
    let mut at = from;
    loop {
        let f = read_field(s, at);
        match after(f) {
            Next::Done => return last,
            Next::Broken => return last,
            Next::On(next) => {
                last = value_or(number, f, last);
                at = next;
            }
        }
    }
}
