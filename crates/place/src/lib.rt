#![tactic(auto)]
// Places, which of two is nearer, and the bucket of one. Every function takes any slices.
ghost use Rattle.std.specs.Prelude.{◌≡◌, length, ltb};
ghost use Rattle.place.specs.Place.{place_of, distance, nearer_to, common, bits, bucket_of};

// The place of a peer id or key.
pub fn place_of(name: &[u8]) -> [u8; 32]
    ensures { result ≡ place_of name.now }
{
    sha256::hash(name)
}

// Whether a is nearer to the target than b: the first word in which their distances differ decides.
fn nearer_place(target: &[u8], a: &[u8], b: &[u8]) -> bool
    requires { (length target.now ≡ 32) × (length a.now ≡ 32) × (length b.now ≡ 32) }
    ensures { result ≡ ltb (distance a.now target.now) (distance b.now target.now) }
{
    for i in (0..32).step_by(8) {
        let t = octets::word(target, i);
        let x = octets::word(a, i) ^ t;
        let y = octets::word(b, i) ^ t;
        if x != y {
            return x < y;
        }
    }
    false
}

// Whether a is nearer to the target than b, where all three are places; else no.
pub fn nearer(target: &[u8], a: &[u8], b: &[u8]) -> bool
    ensures { result ≡ nearer_to target.now a.now b.now }
{
    if target.len() != 32 {
        return false;
    }
    if a.len() != 32 {
        return false;
    }
    if b.len() != 32 {
        return false;
    }
    nearer_place(target, a, b)
}

// The leading bits that two places share, by the leading zeros of the words of their distance.
fn shared_bits(p: &[u8], ours: &[u8]) -> usize
    requires { (length p.now ≡ 32) × (length ours.now ≡ 32) }
    ensures { result ≡ common (bits p.now) (bits ours.now) }
{
    for i in (0..32).step_by(8) {
        let x = octets::word(p, i) ^ octets::word(ours, i);
        if x != 0 {
            return i * 8 + (u64::leading_zeros(x) as usize);
        }
    }
    256
}

// The bucket of a place: how many leading bits it shares with ours; 256 where it is ours, or where either is no place.
pub fn bucket(p: &[u8], ours: &[u8]) -> usize
    ensures { result ≡ bucket_of p.now ours.now }
{
    if p.len() != 32 {
        return 256;
    }
    if ours.len() != 32 {
        return 256;
    }
    shared_bits(p, ours)
}
