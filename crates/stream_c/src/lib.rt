#![tactic(auto)]
// A host's loop over a stream, for C and Rust: bench/stream measures it.
ghost use Rattle.std.specs.Prelude.{◌≡◌, ◌<◌, ◌≤◌};
ghost use Rattle.stream_c.specs.Count.{Counts, messages_in};

use refusal::Refusal;

// Where a piece ends that starts at a place and has `cut` bytes, or what is left.
fn piece_end(at: usize, cut: usize, len: usize) -> usize
    requires { at < len }
    ensures { (at < result) × (result ≤ len) }
{
    if cut == 0 {
        return len;
    }
    if len - at < cut {
        return len;
    }
    at + cut
}

fn messages(a: Result<Option<usize>, Refusal>) -> usize
    ensures { result ≡ messages_in a }
{
    match a {
        Ok(Some(_)) => 1,
        Err(_) => 0,
        Ok(None) => 0,
    }
}

// Hands `bytes` to a fresh connection in pieces of `cut` bytes (0: as few as can be), and answers how many messages were whole before the
// bytes ended or one was refused. A C program declares it so:
//
//     size_t starterbell_stream_count(uint8_t *buffer, size_t room, const uint8_t *bytes, size_t length, size_t cut);
//
// `buffer` points to `room` bytes that can be written and `bytes` to `length` others that can be read; neither is null.
#[unsafe(no_mangle)]
pub extern "C" fn starterbell_stream_count(buffer: &mut [u8], bytes: &[u8], cut: usize) -> usize
    ensures { Counts buffer.old bytes.now result buffer.new }
{
    let mut framing = stream::open();
    let mut at: usize = 0;
    let mut count: usize = 0;
    while at < bytes.len() {
        let end = piece_end(at, cut, bytes.len());
        let r = stream::receive(framing, buffer, &bytes[at..end]);
        if r.taken == 0 {
            return count;
        }
        at += r.taken;
        let a = r.answer;
        count += messages(a);
        framing = r.framing;
    }
    count
}
