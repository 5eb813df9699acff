#![tactic(auto)]
// The pieces of a message, written into a buffer that is lent: a record, and a peer with the first n of four addresses.
ghost use Rattle.std.specs.Prelude.{◌≡◌, true, false, ◌+◌, ◌*◌, ◌≤◌, ◌<◌, length};
ghost use Rattle.limits.specs.Limits.{most_value, most_body};
ghost use Rattle.wire.specs.Items.{tagged, written, single, Put};
ghost use Rattle.message.specs.Message.{encode_peer, encode_record};
ghost use Rattle.pieces.specs.Writable.{peer_fits, record_fits, record_piece, peer_piece, record_with, peer_with};
ghost use Rattle.pieces.specs.Inner.{nth_bytes, nth_over, address_bytes, Fitting4};

// How many bytes a bytes field of n bytes has.
fn field_len(field: u8, n: usize) -> usize
    requires { n ≤ most_body }
    ensures { result ≡ length (tagged (field * 8 + 2) n) + n }
{
    wire_put::varint_len((field as u64) * 8 + 2) + wire_put::varint_len(n as u64) + n
}

// How many bytes a single bytes field has.
fn single_len(field: u8, src: &[u8]) -> usize
    requires { (field < 16) × (length src.now ≤ most_value) }
    ensures { (result ≡ length (written (single field src.now))) × (result ≤ 3 + length src.now) }
{
    if src.len() == 0 {
        return 0;
    }
    field_len(field, src.len())
}

// Whether a record may be written.
fn record_fits(key: &[u8], value: &[u8]) -> bool
    ensures { result ≡ record_fits (record_with key.now value.now) }
{
    if limits::MOST_KEY < key.len() {
        return false;
    }
    value.len() <= limits::MOST_VALUE
}

fn record_body_len(key: &[u8], value: &[u8]) -> usize
    requires { record_fits (record_with key.now value.now) ≡ true }
    ensures { result ≡ length (encode_record (record_with key.now value.now)) }
{
    single_len(1, key) + single_len(2, value)
}

// How many bytes `put_record` writes.
pub fn record_len(key: &[u8], value: &[u8]) -> usize
    ensures { result ≡ length (record_piece (record_with key.now value.now)) }
{
    if record_fits(key, value) {
        return field_len(3, record_body_len(key, value));
    }
    0
}

// Writes a record as a field of a message; nothing where it is over its limits.
pub fn put_record(buf: &mut [u8], at: usize, key: &[u8], value: &[u8]) -> usize
    ensures { Put buf.old at (record_piece (record_with key.now value.now)) buf.new result }
{
    if record_fits(key, value) {
        let n = record_body_len(key, value);
        let a = wire_put::put_head(buf, at, 3, n);
        let b = wire_put::put_single(buf, a, 1, key);
        return wire_put::put_single(buf, b, 2, value);
    }
    at
}

// Whether the address of place k, if there are more than k, is over its limit.
fn address_over(k: usize, n: usize, src: &[u8]) -> bool
    ensures { result ≡ nth_over k n src.now }
{
    if n <= k {
        return false;
    }
    limits::MOST_ADDRESS < src.len()
}

// Whether a peer with the first n of four addresses may be written.
fn peer_fits(id: &[u8], n: usize, a: &[u8], b: &[u8], c: &[u8], d: &[u8], connection: u8) -> bool
    ensures { result ≡ peer_fits (peer_with id.now n a.now b.now c.now d.now connection) }
{
    if limits::MOST_ID < id.len() {
        return false;
    }
    if address_over(0, n, a) {
        return false;
    }
    if address_over(1, n, b) {
        return false;
    }
    if address_over(2, n, c) {
        return false;
    }
    if address_over(3, n, d) {
        return false;
    }
    connection <= 3
}

fn address_len(k: usize, n: usize, src: &[u8]) -> usize
    requires { nth_over k n src.now ≡ false }
    ensures { (result ≡ length (nth_bytes k n src.now)) × (result ≤ 131) }
{
    if n <= k {
        return 0;
    }
    field_len(2, src.len())
}

fn addresses_len(n: usize, a: &[u8], b: &[u8], c: &[u8], d: &[u8]) -> usize
    requires { Fitting4 n a.now b.now c.now d.now }
    ensures { (result ≡ length (address_bytes n a.now b.now c.now d.now)) × (result ≤ 524) }
{
    address_len(0, n, a) + address_len(1, n, b) + address_len(2, n, c) + address_len(3, n, d)
}

fn peer_body_len(
    id: &[u8],
    n: usize,
    a: &[u8],
    b: &[u8],
    c: &[u8],
    d: &[u8],
    connection: u8,
) -> usize
    requires { peer_fits (peer_with id.now n a.now b.now c.now d.now connection) ≡ true }
    ensures { result ≡ length (encode_peer (peer_with id.now n a.now b.now c.now d.now connection)) }
{
    single_len(1, id) + addresses_len(n, a, b, c, d) + 2
}

// How many bytes `put_peer` writes.
pub fn peer_len(
    field: u8,
    id: &[u8],
    n: usize,
    a: &[u8],
    b: &[u8],
    c: &[u8],
    d: &[u8],
    connection: u8,
) -> usize
    ensures { result ≡ length (peer_piece field (peer_with id.now n a.now b.now c.now d.now connection)) }
{
    if peer_fits(id, n, a, b, c, d, connection) {
        return field_len(field, peer_body_len(id, n, a, b, c, d, connection));
    }
    0
}

// Writes the address of place k, if there are more than k.
fn put_address(buf: &mut [u8], at: usize, k: usize, n: usize, src: &[u8]) -> usize
    ensures { Put buf.old at (nth_bytes k n src.now) buf.new result }
{
    if n <= k {
        return at;
    }
    wire_put::put_bytes(buf, at, 2, src)
}

fn put_addresses(
    buf: &mut [u8],
    at: usize,
    n: usize,
    a: &[u8],
    b: &[u8],
    c: &[u8],
    d: &[u8],
) -> usize
    ensures { Put buf.old at (address_bytes n a.now b.now c.now d.now) buf.new result }
{
    let q = put_address(buf, at, 0, n, a);
    let r = put_address(buf, q, 1, n, b);
    let s = put_address(buf, r, 2, n, c);
    put_address(buf, s, 3, n, d)
}

// Writes a peer with the first n of four addresses as an entry of a message; nothing where it is over its limits.
pub fn put_peer(
    buf: &mut [u8],
    at: usize,
    field: u8,
    id: &[u8],
    n: usize,
    a: &[u8],
    b: &[u8],
    c: &[u8],
    d: &[u8],
    connection: u8,
) -> usize
    ensures { Put buf.old at (peer_piece field (peer_with id.now n a.now b.now c.now d.now connection)) buf.new result }
{
    if peer_fits(id, n, a, b, c, d, connection) {
        let size = peer_body_len(id, n, a, b, c, d, connection);
        let p = wire_put::put_head(buf, at, field, size);
        let q = wire_put::put_single(buf, p, 1, id);
        let r = put_addresses(buf, q, n, a, b, c, d);
        return wire_put::put_number(buf, r, 3, connection as u64);
    }
    at
}
