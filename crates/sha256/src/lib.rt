#![tactic(auto)]
// SHA-256, FIPS 180-4. Each function's contract cites its part of the standard in specs/Sha256.antt.
ghost use Rattle.std.specs.Prelude.{◌≡◌, ℕ, ◌+◌, ◌-◌, ◌*◌, ◌/◌, ◌%◌, ◌<◌, ◌≤◌, List, ◌++◌, length, take, drop, replicate};
ghost use Rattle.std.proofs.lemmas.List.Edits.{sets};
ghost use Rattle.octets.specs.Octets.{part, number, big_endian};
ghost use Rattle.sha256.specs.Inner.{Done, Sixteen, last_blocks};
ghost use Rattle.sha256.specs.Sha256.{◌⊞◌, rotr, big_sigma0, big_sigma1, small_sigma0, small_sigma1, ch, maj, round_constants, turn, schedule, plus, compress, absorbed, initial, pad, digest, sha256};

// The constants of the rounds, 4.2.2.
const K: [u32; 64] = [
    0x428a_2f98,
    0x7137_4491,
    0xb5c0_fbcf,
    0xe9b5_dba5,
    0x3956_c25b,
    0x59f1_11f1,
    0x923f_82a4,
    0xab1c_5ed5,
    0xd807_aa98,
    0x1283_5b01,
    0x2431_85be,
    0x550c_7dc3,
    0x72be_5d74,
    0x80de_b1fe,
    0x9bdc_06a7,
    0xc19b_f174,
    0xe49b_69c1,
    0xefbe_4786,
    0x0fc1_9dc6,
    0x240c_a1cc,
    0x2de9_2c6f,
    0x4a74_84aa,
    0x5cb0_a9dc,
    0x76f9_88da,
    0x983e_5152,
    0xa831_c66d,
    0xb003_27c8,
    0xbf59_7fc7,
    0xc6e0_0bf3,
    0xd5a7_9147,
    0x06ca_6351,
    0x1429_2967,
    0x27b7_0a85,
    0x2e1b_2138,
    0x4d2c_6dfc,
    0x5338_0d13,
    0x650a_7354,
    0x766a_0abb,
    0x81c2_c92e,
    0x9272_2c85,
    0xa2bf_e8a1,
    0xa81a_664b,
    0xc24b_8b70,
    0xc76c_51a3,
    0xd192_e819,
    0xd699_0624,
    0xf40e_3585,
    0x106a_a070,
    0x19a4_c116,
    0x1e37_6c08,
    0x2748_774c,
    0x34b0_bcb5,
    0x391c_0cb3,
    0x4ed8_aa4a,
    0x5b9c_ca4f,
    0x682e_6ff3,
    0x748f_82ee,
    0x78a5_636f,
    0x84c8_7814,
    0x8cc7_0208,
    0x90be_fffa,
    0xa450_6ceb,
    0xbef9_a3f7,
    0xc671_78f2,
];

// The hash value between two blocks, or the eight working variables.
#[derive(Clone, Copy)]
struct State {
    a: u32,
    b: u32,
    c: u32,
    d: u32,
    e: u32,
    f: u32,
    g: u32,
    h: u32,
}

// The sum of two words, modulo 2 to the 32.
fn sum(x: u32, y: u32) -> u32
    ensures { result ≡ x ⊞ y }
{
    std::num::wrapping_add_u32(x, y)
}

fn rotate_right(x: u32, n: u32) -> u32
    requires { (0 < n) × (n < 32) }
    ensures { result ≡ rotr n x }
{
    (x >> n) | (x << (32 - n))
}

fn big_sigma0(x: u32) -> u32
    ensures { result ≡ big_sigma0 x }
{
    rotate_right(x, 2) ^ rotate_right(x, 13) ^ rotate_right(x, 22)
}

fn big_sigma1(x: u32) -> u32
    ensures { result ≡ big_sigma1 x }
{
    rotate_right(x, 6) ^ rotate_right(x, 11) ^ rotate_right(x, 25)
}

fn small_sigma0(x: u32) -> u32
    ensures { result ≡ small_sigma0 x }
{
    rotate_right(x, 7) ^ rotate_right(x, 18) ^ (x >> 3)
}

fn small_sigma1(x: u32) -> u32
    ensures { result ≡ small_sigma1 x }
{
    rotate_right(x, 17) ^ rotate_right(x, 19) ^ (x >> 10)
}

fn choose(x: u32, y: u32, z: u32) -> u32
    ensures { result ≡ ch x y z }
{
    (x & y) ^ (!x & z)
}

fn majority(x: u32, y: u32, z: u32) -> u32
    ensures { result ≡ maj x y z }
{
    (x & y) ^ (x & z) ^ (y & z)
}

// A word of the schedule, from the words 2, 7, 15 and 16 places before it.
fn later_word(p: u32, q: u32, r: u32, s: u32) -> u32
    ensures { result ≡ small_sigma1 p ⊞ q ⊞ small_sigma0 r ⊞ s }
{
    sum(sum(sum(small_sigma1(p), q), small_sigma0(r)), s)
}

// One round: the working variables after a turn with the constant k and the word w.
fn round(s: State, k: u32, w: u32) -> State
    ensures { result ≡ turn k w s }
{
    let t1 = sum(
        sum(sum(sum(s.h, big_sigma1(s.e)), choose(s.e, s.f, s.g)), k),
        w,
    );
    let t2 = sum(big_sigma0(s.a), majority(s.a, s.b, s.c));
    State {
        a: sum(t1, t2),
        b: s.a,
        c: s.b,
        d: s.c,
        e: sum(s.d, t1),
        f: s.e,
        g: s.f,
        h: s.g,
    }
}

// A byte as a word: a cast in a function of its own, so that its callers need not show that it fits.
fn wide(x: u8) -> u32
    ensures { result ≡ x }
{
    x as u32
}

// The word of four bytes, the highest first.
fn word_of(p: u8, q: u8, r: u8, s: u8) -> u32
    ensures { result ≡ p * 16777216 + q * 65536 + r * 256 + s }
{
    wide(p) * 0x100_0000 + wide(q) * 0x1_0000 + wide(r) * 0x100 + wide(s)
}

// The word that starts at `at`.
fn word_at(src: &[u8], at: usize) -> u32
    requires { at + 4 ≤ length src.now }
    ensures { result ≡ number (part src.now at (at + 4)) }
{
    word_of(src[at], src[at + 1], src[at + 2], src[at + 3])
}

// The sixteen words of the block at `at`.
fn load(src: &[u8], at: usize) -> [u32; 16]
    requires { at + 64 ≤ length src.now }
    ensures { result ≡ schedule 16 (part src.now at (at + 64)) }
{
    let mut w = [0u32; 16];
    for i in 0..16 {
        w[i] = word_at(src, at + 4 * i);
    }
    w
}

// Round t + i, and in the place of its word the word sixteen places on in the schedule.
fn advance(v: State, k: &[u32; 64], w: &mut [u32; 16], t: usize, i: usize) -> State
    requires { (i < 16) × Sixteen t k.now }
    ensures { (b : List ℕ) (s : State) → Done b s (t + i) w.old v → Done b s (t + (i + 1)) w.new result }
{
    let r = round(v, k[t + i], w[i]);
    w[i] = later_word(w[(i + 14) % 16], w[(i + 9) % 16], w[(i + 1) % 16], w[i]);
    r
}

// Sixteen rounds in a row. All places in `w` are constants here, so that the words and the working variables can stay in
// registers, and no round has to move them.
fn advance_sixteen(v: State, k: &[u32; 64], w: &mut [u32; 16], t: usize) -> State
    requires { Sixteen t k.now }
    ensures { (b : List ℕ) (s : State) → Done b s t w.old v → Done b s (t + 16) w.new result }
{
    let v = advance(v, k, w, t, 0);
    let v = advance(v, k, w, t, 1);
    let v = advance(v, k, w, t, 2);
    let v = advance(v, k, w, t, 3);
    let v = advance(v, k, w, t, 4);
    let v = advance(v, k, w, t, 5);
    let v = advance(v, k, w, t, 6);
    let v = advance(v, k, w, t, 7);
    let v = advance(v, k, w, t, 8);
    let v = advance(v, k, w, t, 9);
    let v = advance(v, k, w, t, 10);
    let v = advance(v, k, w, t, 11);
    let v = advance(v, k, w, t, 12);
    let v = advance(v, k, w, t, 13);
    let v = advance(v, k, w, t, 14);
    advance(v, k, w, t, 15)
}

// The first 48 rounds, each of which makes a word for a later round.
fn first_rounds(s: State, k: &[u32; 64], w: &mut [u32; 16]) -> State
    requires { k.now ≡ round_constants }
    ensures { (b : List ℕ) → Done b s 0 w.old s → Done b s 48 w.new result }
{
    let mut v = s;
    for i in 0..3 {
        v = advance_sixteen(v, k, w, 16 * i);
    }
    v
}

// Round 48 + i, one of the last sixteen, after which no more words are needed.
fn last_round(v: State, k: &[u32; 64], w: &[u32; 16], i: usize) -> State
    requires { (i < 16) × (k.now ≡ round_constants) }
    ensures { (b : List ℕ) (s : State) → Done b s (48 + i) w.now v → Done b s (48 + (i + 1)) w.now result }
{
    round(v, k[48 + i], w[i])
}

// The last sixteen rounds, in a row like the others.
fn last_rounds(v: State, k: &[u32; 64], w: &[u32; 16]) -> State
    requires { k.now ≡ round_constants }
    ensures { (b : List ℕ) (s : State) → Done b s 48 w.now v → Done b s 64 w.now result }
{
    let v = last_round(v, k, w, 0);
    let v = last_round(v, k, w, 1);
    let v = last_round(v, k, w, 2);
    let v = last_round(v, k, w, 3);
    let v = last_round(v, k, w, 4);
    let v = last_round(v, k, w, 5);
    let v = last_round(v, k, w, 6);
    let v = last_round(v, k, w, 7);
    let v = last_round(v, k, w, 8);
    let v = last_round(v, k, w, 9);
    let v = last_round(v, k, w, 10);
    let v = last_round(v, k, w, 11);
    let v = last_round(v, k, w, 12);
    let v = last_round(v, k, w, 13);
    let v = last_round(v, k, w, 14);
    last_round(v, k, w, 15)
}

// The hash value and the working variables, summed word by word.
fn add(s: State, v: State) -> State
    ensures { result ≡ plus s v }
{
    State {
        a: sum(s.a, v.a),
        b: sum(s.b, v.b),
        c: sum(s.c, v.c),
        d: sum(s.d, v.d),
        e: sum(s.e, v.e),
        f: sum(s.f, v.f),
        g: sum(s.g, v.g),
        h: sum(s.h, v.h),
    }
}

// The block of `src` that starts at `at`, taken into the hash value.
fn compress_at(s: State, k: &[u32; 64], src: &[u8], at: usize) -> State
    requires { (at + 64 ≤ length src.now) × (k.now ≡ round_constants) }
    ensures { result ≡ compress (part src.now at (at + 64)) s }
{
    let mut w = load(src, at);
    let v = first_rounds(s, k, &mut w);
    add(s, last_rounds(v, k, &w))
}

// The first n blocks of `src`, taken into the hash value.
fn absorb(s: State, k: &[u32; 64], src: &[u8], n: usize) -> State
    requires { (64 * n ≤ length src.now) × (k.now ≡ round_constants) }
    ensures { result ≡ absorbed n src.now s }
{
    let mut v = s;
    for i in 0..n {
        v = compress_at(v, k, src, 64 * i);
    }
    v
}

fn initial_state() -> State
    ensures { result ≡ initial }
{
    State {
        a: 0x6a09_e667,
        b: 0xbb67_ae85,
        c: 0x3c6e_f372,
        d: 0xa54f_f53a,
        e: 0x510e_527f,
        f: 0x9b05_688c,
        g: 0x1f83_d9ab,
        h: 0x5be0_cd19,
    }
}

// The lowest byte of a number.
fn low(x: u64) -> u8
    ensures { result ≡ x % 256 }
{
    (x & 0xff) as u8
}

// The bytes of `src` from `from` on, n of them, and zeros after them.
fn rest_of(src: &[u8], from: usize, n: usize) -> [u8; 128]
    requires { (n < 64) × (from + n ≤ length src.now) }
    ensures { result ≡ part src.now from (from + n) ++ replicate (128 - n) 0 }
{
    let mut t = [0u8; 128];
    for i in 0..n {
        t[i] = src[from + i];
    }
    t
}

// The length in bits of a message of `len` bytes, stored at `at`.
fn put_length(out: &mut [u8; 128], at: usize, len: u64)
    requires { at + 8 ≤ 128 }
    ensures { out.new ≡ sets out.old at (big_endian 8 (len * 8)) }
{
    let bits = len << 3;
    out[at] = low(bits >> 56);
    out[at + 1] = low(bits >> 48);
    out[at + 2] = low(bits >> 40);
    out[at + 3] = low(bits >> 32);
    out[at + 4] = low(bits >> 24);
    out[at + 5] = low(bits >> 16);
    out[at + 6] = low(bits >> 8);
    out[at + 7] = low(bits);
}

// How many blocks hold the last bytes of a message, after its whole blocks, and the padding.
fn last_blocks(rest: usize) -> usize
    requires { rest < 64 }
    ensures { result ≡ last_blocks rest }
{
    (rest + 72) / 64
}

// What follows the whole blocks of a message: its last bytes and the padding, one block or two.
fn tail(src: &[u8]) -> [u8; 128]
    ensures { take (64 * last_blocks (length src.now % 64)) result ≡ drop (64 * (length src.now / 64)) (pad src.now) }
{
    let n = src.len() % 64;
    let mut t = rest_of(src, src.len() - n, n);
    t[n] = 0x80;
    let end = 64 * last_blocks(n);
    put_length(&mut t, end - 8, src.len() as u64);
    t
}

// The four bytes of x, the highest first, stored at `at`.
fn put_word(out: &mut [u8; 32], at: usize, x: u32)
    requires { at + 4 ≤ 32 }
    ensures { out.new ≡ sets out.old at (big_endian 4 x) }
{
    let y = x as u64;
    out[at] = low(y >> 24);
    out[at + 1] = low(y >> 16);
    out[at + 2] = low(y >> 8);
    out[at + 3] = low(y);
}

// The eight words of the hash value, as bytes.
fn digest_of(s: State) -> [u8; 32]
    ensures { result ≡ digest s }
{
    let mut r = [0u8; 32];
    put_word(&mut r, 0, s.a);
    put_word(&mut r, 4, s.b);
    put_word(&mut r, 8, s.c);
    put_word(&mut r, 12, s.d);
    put_word(&mut r, 16, s.e);
    put_word(&mut r, 20, s.f);
    put_word(&mut r, 24, s.g);
    put_word(&mut r, 28, s.h);
    r
}

// The SHA-256 hash of `src`.
pub fn hash(src: &[u8]) -> [u8; 32]
    ensures { result ≡ sha256 src.now }
{
    // The table is laid out here once, and lent to every block.
    let k = K;
    let s = absorb(initial_state(), &k, src, src.len() / 64);
    let t = tail(src);
    digest_of(absorb(s, &k, &t, last_blocks(src.len() % 64)))
}
