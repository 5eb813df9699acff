#![tactic(auto)]
// SHA-256 for C and Rust.
ghost use Rattle.std.specs.Prelude.{◌≡◌};
ghost use Rattle.sha256.specs.Sha256.{sha256};

// Stores the hash of `src` in `out`. A C program declares it so:
//
//     void starterbell_sha256(const uint8_t *src, size_t length, uint8_t out[32]);
//
// `src` points to `length` bytes that can be read, and is not null even where there are none; `out` points to 32 bytes that can be
// written, none of them among those of `src`.
#[unsafe(no_mangle)]
pub extern "C" fn starterbell_sha256(src: &[u8], out: &mut [u8; 32])
    ensures { out.new ≡ sha256 src.now }
{
    *out = sha256::hash(src);
}
