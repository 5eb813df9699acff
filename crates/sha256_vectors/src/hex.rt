// Hexadecimal text in lower case.
ghost use Rattle.std.specs.Prelude.{◌≡◌, true, ◌*◌, ◌≤◌, ◌<◌, length, take, MatchOption};
ghost use Rattle.sha256_vectors.specs.Hex.{digit_of, spelled};

// The value of a digit, and nothing where c is none.
fn digit(c: u8) -> Option<u8>
    ensures { MatchOption result (16 ≡ digit_of c) (λ v. (v ≡ digit_of c) × (v < 16)) }
{
    match c {
        b'0'..=b'9' => Some(c - b'0'),
        b'a'..=b'f' => Some(c - b'a' + 10),
        _ => None,
    }
}

// Puts the n bytes that the first 2n digits of `src` spell at the start of `out`. False where one of those is no digit.
pub fn decode(src: &[u8], n: usize, out: &mut [u8]) -> bool
    requires { (2 * n ≤ length src.now) × (n ≤ length out.old) }
    ensures { result ≡ true → take n out.new ≡ spelled n src.now }
{
    for i in 0..n {
        let Some(high) = digit(src[2 * i]) else {
            return false;
        };
        let Some(low) = digit(src[2 * i + 1]) else {
            return false;
        };
        out[i] = high * 16 + low;
    }
    true
}
