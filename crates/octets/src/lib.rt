#![tactic(auto)]
// Byte strings: comparing, ordering, copying, and big-endian words. Every function takes any slices.
ghost use Rattle.std.specs.Prelude.{◌≡◌, ◌+◌, ◌*◌, ◌≤◌, ◌<◌, length, take};
ghost use Rattle.std.proofs.lemmas.List.Edits.{sets};
ghost use Rattle.octets.specs.Octets.{part, same, lower, starts_with, number};

// Up to eight bytes as a number, the highest first: the slow way, for the end of a slice.
fn short_word(s: &[u8]) -> u64
    requires { length s.now ≤ 8 }
    ensures { result ≡ number s.now }
{
    let mut w: u64 = 0;
    for b in s {
        w = w * 256 + u64::from(*b);
    }
    w
}

// The eight bytes at a place of s as a number, the highest first. It compiles to one load and a byte swap.
fn whole_word(s: &[u8], at: usize) -> u64
    requires { at + 8 ≤ length s.now }
    ensures { result ≡ number (part s.now at (at + 8)) }
{
    u64::from_be_bytes([
        s[at],
        s[at + 1],
        s[at + 2],
        s[at + 3],
        s[at + 4],
        s[at + 5],
        s[at + 6],
        s[at + 7],
    ])
}

// The word at a place of s: its eight bytes from there on as a big-endian number, or as many of them as s has.
pub fn word(s: &[u8], at: usize) -> u64
    ensures { result ≡ number (part s.now at (at + 8)) }
{
    let n = s.len();
    if n < at {
        return 0;
    }
    if n - at < 8 {
        return short_word(&s[at..]);
    }
    whole_word(s, at)
}

// Whether two slices hold the same bytes.
pub fn same_bytes(a: &[u8], b: &[u8]) -> bool
    ensures { result ≡ same a.now b.now }
{
    a == b
}

// Whether a comes before b in bytewise order, in which a prefix is lower: the first word that differs decides, and after the words what is left.
// By words, since of 32 bytes that differ in the last alone the library's order takes longer: `a < b` 9 times as long as this, `a.cmp(&b)` 2.4 times.
// Never inlined, since the form test of a store, short of registers then, would take half as long again to pass over free slots.
#[inline(never)]
pub fn lower_bytes(a: &[u8], b: &[u8]) -> bool
    ensures { result ≡ lower a.now b.now }
{
    let n = a.len().min(b.len()) / 8 * 8;
    for (s, t) in a[..n].chunks_exact(8).zip(b[..n].chunks_exact(8)) {
        let x = whole_word(s, 0);
        let y = whole_word(t, 0);
        if x != y {
            return x < y;
        }
    }
    a[n..].cmp(&b[n..]).is_lt()
}

// Whether s begins with the bytes of p.
pub fn starts_with(s: &[u8], p: &[u8]) -> bool
    ensures { result ≡ starts_with s.now p.now }
{
    s.starts_with(p)
}

// Copies src into buf from a place on. What would stand past the end of buf is left out.
// Byte by byte, since `copy_from_slice` calls memmove: what a host links needs memcpy and memset and nothing else.
pub fn copy(buf: &mut [u8], at: usize, src: &[u8])
    ensures { buf.new ≡ sets buf.old at src.now }
{
    if at < buf.len() {
        let n = src.len().min(buf.len() - at);
        for i in 0..n {
            buf[at + i] = src[i];
        }
    }
}
