#![tactic(auto)]
// Messages for C and Rust: read from a body as positions in it, peers and addresses one by one, and written into a lent buffer.
// Only numbers and byte strings cross. A position is counted from the body's start; a part is told by its start and its end.
ghost use Rattle.std.specs.Prelude.{◌≡◌, cond, take};
ghost use Rattle.wire.specs.Wire.{first_of, fields_at, spans};
ghost use Rattle.message.specs.View.{reading_of};
ghost use Rattle.peer_walk.specs.PeerWalk.{told_at};
ghost use Rattle.writer.specs.Writer.{message_with, answer_of, out_after};
ghost use Rattle.message_c.specs.Codes.{span_of, is_found, ends_after, read_code, numbers_after, write_code};

use refusal::Refusal;
use wire::Span;

fn flag(b: bool) -> usize
    ensures { result ≡ cond b 1 0 }
{
    if b {
        return 1;
    }
    0
}

// Stores where a part is that was found.
fn found(f: Option<Span>, out: &mut [usize; 2]) -> bool
    ensures { (result ≡ is_found f) × (out.new ≡ ends_after out.old f) }
{
    match f {
        Some(p) => {
            *out = [p.at, p.end];
            true
        }
        None => false,
    }
}

// Reads a body. 255, and the message's numbers in `out`: its type, where its key starts and ends, 1 if it has a record and else 0, and
// where the record's key and value start and end. Or the refusal's number, and `out` as it was. A C program declares it so:
//
//     uint8_t starterbell_message_read(const uint8_t *body, size_t length, size_t out[8]);
#[unsafe(no_mangle)]
pub extern "C" fn starterbell_message_read(body: &[u8], out: &mut [usize; 8]) -> u8
    ensures { (result ≡ read_code (reading_of body.now)) × (out.new ≡ numbers_after out.old (reading_of body.now)) }
{
    match message::read(body) {
        Ok(m) => {
            *out = [
                m.kind as usize,
                m.key.at,
                m.key.end,
                flag(m.held.there),
                m.held.key.at,
                m.held.key.end,
                m.held.value.at,
                m.held.value.end,
            ];
            255
        }
        Err(r) => refusal::number(r),
    }
}

// The first entry of closerPeers from a position on: from 0, and then from each end, these are all of them. A C program declares it so:
//
//     bool starterbell_message_closer_peer(const uint8_t *body, size_t length, size_t from, size_t out[2]);
#[unsafe(no_mangle)]
pub extern "C" fn starterbell_message_closer_peer(
    body: &[u8],
    from: usize,
    out: &mut [usize; 2],
) -> bool
    ensures { (result ≡ is_found (first_of (spans 8 (fields_at body.now from)))) × (out.new ≡ ends_after out.old (first_of (spans 8 (fields_at body.now from)))) }
{
    found(message::closer_peer(body, from), out)
}

// The same for providerPeers.
#[unsafe(no_mangle)]
pub extern "C" fn starterbell_message_provider_peer(
    body: &[u8],
    from: usize,
    out: &mut [usize; 2],
) -> bool
    ensures { (result ≡ is_found (first_of (spans 9 (fields_at body.now from)))) × (out.new ≡ ends_after out.old (first_of (spans 9 (fields_at body.now from)))) }
{
    found(message::provider_peer(body, from), out)
}

// The peer whose bytes start at `at` and end at `end`: where its id starts and ends, its connection, how many addresses it has, and where the first eight start
// and end, with zeros after them. A C program declares it so:
//
//     void starterbell_message_peer(const uint8_t *body, size_t length, size_t at, size_t end, size_t out[20]);
#[unsafe(no_mangle)]
pub extern "C" fn starterbell_message_peer(
    body: &[u8],
    at: usize,
    end: usize,
    out: &mut [usize; 20],
)
    ensures { out.new ≡ told_at body.now (span_of at end) }
{
    let w = peer_walk::walk(body, Span { at, end });
    let q = w.places;
    *out = [
        w.id.at,
        w.id.end,
        w.connection as usize,
        w.count,
        q[0],
        q[1],
        q[2],
        q[3],
        q[4],
        q[5],
        q[6],
        q[7],
        q[8],
        q[9],
        q[10],
        q[11],
        q[12],
        q[13],
        q[14],
        q[15],
    ];
}

// The first address of that peer from a position on: from its start, and then from each end, these are all of them. From the end of the eighth,
// these are the others. A C program declares it so:
//
//     bool starterbell_message_peer_address(const uint8_t *body, size_t length, size_t at, size_t end, size_t from, size_t out[2]);
#[unsafe(no_mangle)]
pub extern "C" fn starterbell_message_peer_address(
    body: &[u8],
    at: usize,
    end: usize,
    from: usize,
    out: &mut [usize; 2],
) -> bool
    ensures { (result ≡ is_found (first_of (spans 2 (fields_at (take end body.now) from)))) × (out.new ≡ ends_after out.old (first_of (spans 2 (fields_at (take end body.now) from)))) }
{
    found(message::peer_address(body, Span { at, end }, from), out)
}

fn write_code(w: Result<usize, Refusal>) -> usize
    ensures { result ≡ write_code w }
{
    match w {
        Ok(n) => n,
        Err(_) => 0,
    }
}

// Writes a message with its length prefix from the start of `out` on, and returns how many bytes it has; 0 where it is refused. Peers are
// given entry after entry: a two-byte length of the id, the lower byte first, the id, a byte for the connection, a two-byte length of the
// addresses, and those, each a two-byte length and its bytes. A C program declares it so:
//
//     size_t starterbell_message_write(uint8_t *out, size_t room, uint64_t kind, const uint8_t *key, size_t key_length, bool held,
//         const uint8_t *record_key, size_t record_key_length, const uint8_t *value, size_t value_length,
//         const uint8_t *closer, size_t closer_length, const uint8_t *providers, size_t providers_length);
#[unsafe(no_mangle)]
pub extern "C" fn starterbell_message_write(
    out: &mut [u8],
    kind: u64,
    key: &[u8],
    held: bool,
    record_key: &[u8],
    value: &[u8],
    closer: &[u8],
    providers: &[u8],
) -> usize
    ensures { (result ≡ write_code (answer_of out.old (message_with kind key.now held record_key.now value.now closer.now providers.now))) × (out.new ≡ out_after out.old (message_with kind key.now held record_key.now value.now closer.now providers.now)) }
{
    write_code(writer::write(out, kind, key, held, record_key, value, closer, providers))
}
