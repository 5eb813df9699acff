// Lines of text: where one ends, and the value of a line `NAME = VALUE`.
ghost use Rattle.std.specs.Prelude.{IfSome, ◌≡◌, true, ◌+◌, ◌-◌, ◌≤◌, min, length};

// Where the line that `at` stands in ends: at its line feed, or at the text's end.
fn line_end(text: &[u8], at: usize) -> usize
    requires { at ≤ length text.now }
    ensures { (at ≤ result) × (result ≤ length text.now) }
{
    match text[at..].iter().position(|c| *c == b'\n') {
        Some(n) => at + n,
        None => text.len(),
    }
}

// What follows a line that ends at `end`, in a text of `size` bytes: the next line, or nothing.
fn after(end: usize, size: usize) -> usize
    requires { end ≤ size }
    ensures { (end ≤ result) × (result ≤ size) × (min (end + 1) size ≤ result) }
{
    if end < size { end + 1 } else { end }
}

// The start of the line after the one that `at` stands in, or the text's end.
pub fn next_line(text: &[u8], at: usize) -> usize
    requires { at ≤ length text.now }
    ensures { (at ≤ result) × (result ≤ length text.now) × (min (at + 1) (length text.now) ≤ result) }
{
    after(line_end(text, at), text.len())
}

// The end of a line, less a carriage return: the published files have lines as DOS writes them.
fn without_return(text: &[u8], from: usize, to: usize) -> usize
    requires { (from ≤ to) × (to ≤ length text.now) }
    ensures { (from ≤ result) × (result ≤ to) }
{
    if from < to {
        if text[to - 1] == b'\r' {
            return to - 1;
        }
    }
    to
}

// Whether `s` begins with `name`.
fn begins(s: &[u8], name: &[u8]) -> bool
    ensures { result ≡ true → length name.now ≤ length s.now }
{
    let n = name.len();
    if s.len() < n {
        return false;
    }
    &s[..n] == name
}

// Where a value stands in a text: from `from` up to `to`.
#[derive(Clone, Copy)]
pub struct Span {
    pub from: usize,
    pub to: usize,
}

// A line after which the next one starts at `next`. It has no value where its name is another one.
#[derive(Clone, Copy)]
pub struct Line {
    pub value: Option<Span>,
    pub next: usize,
}

// The line at `at`, with its value where it begins with `name`. There is always a next line, or the end, so a reader gets on.
pub fn line_at(text: &[u8], at: usize, name: &[u8]) -> Line
    requires { at ≤ length text.now }
    ensures from_le_to { IfSome result.value (λ v. (v.from ≤ v.to) × (v.to ≤ length text.now)) }
    ensures at_le_next { (at ≤ result.next) × (result.next ≤ length text.now) × (min (at + 1) (length text.now) ≤ result.next) }
{
    let end = line_end(text, at);
    let next = after(end, text.len());
    let to = without_return(text, at, end);
    if begins(&text[at..to], name) {
        let from = at + name.len();
        return Line {
            value: Some(Span { from, to }),
            next,
        };
    }
    Line { value: None, next }
}

// The value of a decimal digit.
fn decimal(c: u8) -> usize
    requires { (48 ≤ c) × (c ≤ 57) }
    ensures { (result ≡ c - 48) × (result ≤ 9) }
{
    (c - b'0') as usize
}

// The number that decimal digits say. Nothing where there are none, where a byte is no digit, and from a thousand million on.
pub fn value_of(src: &[u8]) -> Option<usize> {
    if src.is_empty() {
        return None;
    }
    let mut value: usize = 0;
    for &c in src {
        if !c.is_ascii_digit() {
            return None;
        }
        if value > 99_999_999 {
            return None;
        }
        value = value * 10 + decimal(c);
    }
    Some(value)
}
