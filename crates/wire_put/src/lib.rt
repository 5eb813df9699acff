#![tactic(auto)]
// Protocol Buffers: varints and fields, written into a slice that is lent.
ghost use Rattle.std.specs.Prelude.{◌≡◌, ◌+◌, ◌*◌, ◌<◌, length};
ghost use Rattle.wire.specs.Items.{minimal, num, bytes, tagged, written1, written, single, past, Put};

fn low(v: u64) -> u8
    requires { v < 256 }
    ensures { result ≡ v }
{
    v as u8
}

// How many bytes the minimal varint of a number has: one for each seven bits.
pub fn varint_len(v: u64) -> usize
    ensures { result ≡ length (minimal v) }
{
    v.max(1).ilog2() as usize / 7 + 1
}

// Writes the minimal varint of a number. What would stand past the end of buf is left out; the answer is the place after it.
pub fn put_varint(buf: &mut [u8], at: usize, v: u64) -> usize
    ensures { Put buf.old at (minimal v) buf.new result }
{
    let mut rest = v;
    for i in at..buf.len() {
        if rest < 128 {
            buf[i] = low(rest);
            return i + 1;
        }
        buf[i] = low(rest % 128 + 128);
        rest /= 128;
    }
    at.max(buf.len())
}

// The place after n bytes from a place on in a buffer of size bytes.
fn past_end(size: usize, at: usize, n: usize) -> usize
    ensures { result ≡ past size at n }
{
    if size < at {
        return at;
    }
    if n <= size - at {
        return at + n;
    }
    size
}

// Writes bytes as they are.
pub fn put_raw(buf: &mut [u8], at: usize, src: &[u8]) -> usize
    ensures { Put buf.old at src.now buf.new result }
{
    octets::copy(buf, at, src);
    past_end(buf.len(), at, src.len())
}

// Writes a number field.
pub fn put_number(buf: &mut [u8], at: usize, field: u8, v: u64) -> usize
    ensures { Put buf.old at (written1 (num field v)) buf.new result }
{
    let next = put_varint(buf, at, (field as u64) * 8);
    put_varint(buf, next, v)
}

// Writes what stands before the bytes of a bytes field: its tag and their number.
pub fn put_head(buf: &mut [u8], at: usize, field: u8, size: usize) -> usize
    ensures { Put buf.old at (tagged (field * 8 + 2) size) buf.new result }
{
    let next = put_varint(buf, at, (field as u64) * 8 + 2);
    put_varint(buf, next, size as u64)
}

// Writes a bytes field.
pub fn put_bytes(buf: &mut [u8], at: usize, field: u8, src: &[u8]) -> usize
    ensures { Put buf.old at (written1 (bytes field src.now)) buf.new result }
{
    let next = put_head(buf, at, field, src.len());
    put_raw(buf, next, src)
}

// Writes a single bytes field, which isn't written if it is empty.
pub fn put_single(buf: &mut [u8], at: usize, field: u8, src: &[u8]) -> usize
    ensures { Put buf.old at (written (single field src.now)) buf.new result }
{
    if src.len() == 0 {
        return at;
    }
    put_bytes(buf, at, field, src)
}
