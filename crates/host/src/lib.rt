#![tactic(auto)]
// What C and Rust programs link: every call of a host, on numbers and slices. A slice crosses as pointer and length; the pointer isn't null, and slices that
// are written don't overlap others. The box (616 bytes), a connection (640) and a lookup (25,256) are bytes that the host lends, as are contacts and records.
// Each call returns a refusal's number, 0 to 21, or an answer from 64 up. Further results go to `out`, as many as fit.
ghost use Rattle.std.specs.Prelude.{◌≡◌};
ghost use Rattle.flat.specs.Flat.{says_yes};
ghost use Rattle.records.specs.Store.{put_answer, put_after, find_of};
ghost use Rattle.message.specs.View.{reading_of};
ghost use Rattle.writer.specs.Writer.{message_with, answer_of, out_after};
ghost use Rattle.host_answers.specs.Answers.{put_number, find_number, find_numbers, read_number, read_numbers, entry_from, address_from, part_number, peer_numbers, address_numbers};
ghost use Rattle.host_answers.specs.Answers.{write_number, write_numbers, spans_number, spans_numbers, setpoints_number, recipe_number, recipe_numbers};
ghost use Rattle.recipe.specs.Recipe.{is_recipe};
ghost use Rattle.recipe_fields.specs.Places.{spans_of, turns_after, trims_after};
ghost use Rattle.recipe_fields.specs.Writing.{given, written_of, after_of};
ghost use Rattle.host.specs.Host.{start_code, start_memory, open_code, open_memory, end_code, end_memory, seen_code, seen_contacts, seen_out, settle_code, settle_contacts};
ghost use Rattle.host.specs.Host.{remove_code, remove_contacts, doubt_code, doubt_contacts, nearest_code, nearest_out, Receives, Begins, Nexts, Replies, Fails};

// ---- the box and its connections

// Starts the box with its id and its addresses, each address with its length before it in two bytes, the lower first. 64, or a refusal. In C:
//
//     uint32_t starterbell_start(uint8_t *me, size_t me_length, const uint8_t *id, size_t id_length, const uint8_t *addresses, size_t addresses_length);
#[unsafe(no_mangle)]
pub extern "C" fn starterbell_start(me: &mut [u8], id: &[u8], addresses: &[u8]) -> u32
    ensures { (result ≡ start_code me.old id.now addresses.now) × (me.new ≡ start_memory me.old id.now addresses.now) }
{
    if me.len() < flat::PEER {
        return 0;
    }
    host_state::keep_box(me, node::start(id, addresses))
}

// Opens a connection to a peer: its id, whether it is a server, whether we ask on it, and its addresses. 64, or a refusal and a shut connection. In C:
//
//     uint32_t starterbell_open(const uint8_t *me, size_t me_length, uint8_t *conn, size_t conn_length, const uint8_t *id, size_t id_length,
//         uint32_t server, uint32_t asking, const uint8_t *addresses, size_t addresses_length);
#[unsafe(no_mangle)]
pub extern "C" fn starterbell_open(
    me: &[u8],
    conn: &mut [u8],
    id: &[u8],
    server: u32,
    asking: u32,
    addresses: &[u8],
) -> u32
    ensures { (result ≡ open_code me.now conn.old id.now server asking addresses.now) × (conn.new ≡ open_memory me.now conn.old id.now server asking addresses.now) }
{
    if me.len() < flat::PEER {
        return 0;
    }
    if conn.len() < flat::CONN {
        return 0;
    }
    let o = node::open(
        flat::peer_in(me),
        id,
        host_numbers::says_yes(server),
        host_numbers::says_yes(asking),
        addresses,
    );
    let c = o.conn;
    let told = o.told;
    flat::put_conn(conn, c);
    host_numbers::told_code(told)
}

// The peer's bytes are over. 64 where they ended between messages, or a refusal. In C:
//
//     uint32_t starterbell_end(const uint8_t *me, size_t me_length, uint8_t *conn, size_t conn_length);
#[unsafe(no_mangle)]
pub extern "C" fn starterbell_end(me: &[u8], conn: &mut [u8]) -> u32
    ensures { (result ≡ end_code me.now conn.old) × (conn.new ≡ end_memory me.now conn.old) }
{
    if me.len() < flat::PEER {
        return 0;
    }
    if conn.len() < flat::CONN {
        return 0;
    }
    let c = flat::conn_in(conn);
    host_state::keep_end(conn, node::end(flat::peer_in(me), c))
}

// ---- contacts

// A peer was seen. 64 where it moved, 65 where it joined, 13 where its bucket is full, or another refusal. Its slot, or that of the bucket's head for 13,
// goes to out. In C:
//
//     uint32_t starterbell_seen(const uint8_t *me, size_t me_length, uint8_t *contacts, size_t contacts_length, const uint8_t *id, size_t id_length,
//         uint32_t client, const uint8_t *addresses, size_t addresses_length, uint64_t *out, size_t out_length);
#[unsafe(no_mangle)]
pub extern "C" fn starterbell_seen(
    me: &[u8],
    contacts: &mut [u8],
    id: &[u8],
    client: u32,
    addresses: &[u8],
    out: &mut [u64],
) -> u32
    ensures { (result ≡ seen_code me.now contacts.old id.now client addresses.now) × (contacts.new ≡ seen_contacts me.now contacts.old id.now client addresses.now) × (out.new ≡ seen_out me.now contacts.old id.now client addresses.now out.old) }
{
    if me.len() < flat::PEER {
        return 0;
    }
    let o = host_calls::seen(
        flat::peer_in(me),
        contacts,
        id,
        host_numbers::says_yes(client),
        addresses,
    );
    host_answers::seen_answer(out, o)
}

// The probe of a head came back: it answered, or it was silent, and the newcomer takes its place. 64 where the head is kept, 65 where they are swapped, or a
// refusal. In C:
//
//     uint32_t starterbell_settle(const uint8_t *me, size_t me_length, uint8_t *contacts, size_t contacts_length, const uint8_t *head, size_t head_length,
//         const uint8_t *id, size_t id_length, uint32_t client, const uint8_t *addresses, size_t addresses_length, uint32_t answered);
#[unsafe(no_mangle)]
pub extern "C" fn starterbell_settle(
    me: &[u8],
    contacts: &mut [u8],
    head: &[u8],
    id: &[u8],
    client: u32,
    addresses: &[u8],
    answered: u32,
) -> u32
    ensures { (result ≡ settle_code me.now contacts.old head.now id.now client addresses.now answered) × (contacts.new ≡ settle_contacts me.now contacts.old head.now id.now client addresses.now answered) }
{
    if me.len() < flat::PEER {
        return 0;
    }
    let p = flat::peer_in(me);
    let is_client = host_numbers::says_yes(client);
    let o = host_calls::settle(
        p,
        contacts,
        head,
        id,
        is_client,
        addresses,
        host_numbers::says_yes(answered),
    );
    host_answers::settle_answer(o)
}

// Takes a contact out. 64, or a refusal. In C:
//
//     uint32_t starterbell_remove(const uint8_t *me, size_t me_length, uint8_t *contacts, size_t contacts_length, const uint8_t *id, size_t id_length);
#[unsafe(no_mangle)]
pub extern "C" fn starterbell_remove(me: &[u8], contacts: &mut [u8], id: &[u8]) -> u32
    ensures { (result ≡ remove_code me.now contacts.old id.now) × (contacts.new ≡ remove_contacts me.now contacts.old id.now) }
{
    if me.len() < flat::PEER {
        return 0;
    }
    let o = host_calls::remove(flat::peer_in(me), contacts, id);
    host_answers::remove_answer(o)
}

// Marks a contact as doubtful: the nearest pass over it until it is seen or answers a probe. 64, or a refusal. In C:
//
//     uint32_t starterbell_doubt(const uint8_t *me, size_t me_length, uint8_t *contacts, size_t contacts_length, const uint8_t *id, size_t id_length);
#[unsafe(no_mangle)]
pub extern "C" fn starterbell_doubt(me: &[u8], contacts: &mut [u8], id: &[u8]) -> u32
    ensures { (result ≡ doubt_code me.now contacts.old id.now) × (contacts.new ≡ doubt_contacts me.now contacts.old id.now) }
{
    if me.len() < flat::PEER {
        return 0;
    }
    let o = host_calls::doubt(flat::peer_in(me), contacts, id);
    host_answers::doubt_answer(o)
}

// Of the contacts that aren't doubtful, those nearest to a key. 64, or a refusal. How many there are and twenty slots go to out, nearest first, with zeros after the last. In C:
//
//     uint32_t starterbell_nearest(const uint8_t *me, size_t me_length, const uint8_t *contacts, size_t contacts_length, const uint8_t *key, size_t key_length,
//         uint64_t *out, size_t out_length);
#[unsafe(no_mangle)]
pub extern "C" fn starterbell_nearest(
    me: &[u8],
    contacts: &[u8],
    key: &[u8],
    out: &mut [u64],
) -> u32
    ensures { (result ≡ nearest_code me.now contacts.now key.now) × (out.new ≡ nearest_out me.now contacts.now key.now out.old) }
{
    if me.len() < flat::PEER {
        return 0;
    }
    let n = host_calls::nearest(flat::peer_in(me), contacts, key);
    host_answers::nearest_answer(out, n)
}

// ---- records

// Puts a record into the store. 64, or a refusal. In C:
//
//     uint32_t starterbell_put(uint8_t *records, size_t records_length, const uint8_t *key, size_t key_length, const uint8_t *value, size_t value_length);
#[unsafe(no_mangle)]
pub extern "C" fn starterbell_put(records: &mut [u8], key: &[u8], value: &[u8]) -> u32
    ensures { (result ≡ put_number (put_answer records.old key.now value.now)) × (records.new ≡ put_after records.old key.now value.now) }
{
    let a = host_calls::put(records, key, value);
    host_answers::put_answer(a)
}

// Where a key's value stands in the store. 64 where it is held: where it starts and ends goes to out. 65 where it isn't, or a refusal. In C:
//
//     uint32_t starterbell_find(const uint8_t *records, size_t records_length, const uint8_t *key, size_t key_length, uint64_t *out, size_t out_length);
#[unsafe(no_mangle)]
pub extern "C" fn starterbell_find(records: &[u8], key: &[u8], out: &mut [u64]) -> u32
    ensures { (result ≡ find_number (find_of records.now key.now)) × (out.new ≡ find_numbers out.old (find_of records.now key.now)) }
{
    let f = host_calls::find(records, key);
    host_answers::find_answer(out, f)
}

// ---- recipes

// Where the fields of a recipe stand in its value. 64, and seven numbers go to out: its format, where its core, its wrap and its trailer start, how many setpoints core
// and wrap have, its sequence. 9 where it is no recipe, and three: the rule that is broken, in which part, 0 the whole, 1 the wrap, 2 the core, and at which setpoint. In C:
//
//     uint32_t starterbell_recipe_read(const uint8_t *value, size_t value_length, uint64_t *out, size_t out_length);
#[unsafe(no_mangle)]
pub extern "C" fn starterbell_recipe_read(value: &[u8], out: &mut [u64]) -> u32
    ensures { (result ≡ spans_number (spans_of value.now)) × (out.new ≡ spans_numbers out.old (spans_of value.now)) }
{
    let s = recipe_fields::read(value);
    host_answers::recipe_read_answer(out, s)
}

// The setpoints of a recipe's wrap, or of its core if `core` says so, as turns and trims, as many as fit. 64, or 9 where it is no recipe. In C:
//
//     uint32_t starterbell_recipe_setpoints(const uint8_t *value, size_t value_length, uint32_t core, uint32_t *turns, size_t turns_length,
//         int32_t *trims, size_t trims_length);
#[unsafe(no_mangle)]
pub extern "C" fn starterbell_recipe_setpoints(
    value: &[u8],
    core: u32,
    turns: &mut [u32],
    trims: &mut [i32],
) -> u32
    ensures { (result ≡ setpoints_number (is_recipe value.now)) × (turns.new ≡ turns_after value.now (says_yes core) turns.old) × (trims.new ≡ trims_after value.now (says_yes core) trims.old) }
{
    let is = recipe_fields::setpoints(value, host_numbers::says_yes(core), turns, trims);
    host_answers::setpoints_answer(is)
}

// Writes a recipe at the start of `value`, as far as that goes: its format, its note, the turns and trims of its wrap and of its core, its sequence. 64, and its whole length
// goes to out; or 9 where no recipe has these fields, with the three numbers that a read gives. In C:
//
//     uint32_t starterbell_recipe_write(uint8_t *value, size_t value_length, size_t format, const uint8_t *note, size_t note_length,
//         const uint32_t *wrap_turns, size_t wrap_turns_length, const int32_t *wrap_trims, size_t wrap_trims_length,
//         const uint32_t *core_turns, size_t core_turns_length, const int32_t *core_trims, size_t core_trims_length,
//         uint64_t sequence, uint64_t *out, size_t out_length);
#[unsafe(no_mangle)]
pub extern "C" fn starterbell_recipe_write(
    value: &mut [u8],
    format: usize,
    note: &[u8],
    wrap_turns: &[u32],
    wrap_trims: &[i32],
    core_turns: &[u32],
    core_trims: &[i32],
    sequence: u64,
    out: &mut [u64],
) -> u32
    ensures { (result ≡ recipe_number (written_of (given format note.now wrap_turns.now wrap_trims.now core_turns.now core_trims.now sequence))) × (value.new ≡ after_of (given format note.now wrap_turns.now wrap_trims.now core_turns.now core_trims.now sequence) value.old) × (out.new ≡ recipe_numbers out.old (written_of (given format note.now wrap_turns.now wrap_trims.now core_turns.now core_trims.now sequence))) }
{
    let w = recipe_fields::write(
        value, format, note, wrap_turns, wrap_trims, core_turns, core_trims, sequence,
    );
    host_answers::recipe_write_answer(out, w)
}

// ---- messages

// The message that a body is. 64, or a refusal. Its view goes to out, as eight numbers: its type, where its key starts and ends, 1 if it has a record and
// else 0, and where the record's key and value start and end. In C:
//
//     uint32_t starterbell_read(const uint8_t *body, size_t body_length, uint64_t *out, size_t out_length);
#[unsafe(no_mangle)]
pub extern "C" fn starterbell_read(body: &[u8], out: &mut [u64]) -> u32
    ensures { (result ≡ read_number (reading_of body.now)) × (out.new ≡ read_numbers out.old (reading_of body.now)) }
{
    let r = host_calls::read(body);
    host_answers::read_answer(out, r)
}

// The next entry from a position on of a message's closerPeers, for list 0, or of its providerPeers, for any other number: from 0, and then from each end,
// these are all of them. 64 where there is one: to out go where it starts and ends, where its id starts and ends, its connection, how many addresses it has,
// and where the first eight of those start and end, one after another, with zeros after the last. 65 where there is none. In C:
//
//     uint32_t starterbell_peer(const uint8_t *body, size_t body_length, uint32_t list, size_t from, uint64_t *out, size_t out_length);
#[unsafe(no_mangle)]
pub extern "C" fn starterbell_peer(body: &[u8], list: u32, from: usize, out: &mut [u64]) -> u32
    ensures { (result ≡ part_number (entry_from body.now list from)) × (out.new ≡ peer_numbers out.old body.now (entry_from body.now list from)) }
{
    let f = host_answers::next_entry(body, list, from);
    host_answers::peer_answer(body, out, f)
}

// The next address, from a position on, of the peer whose entry is at start up to end: from 0 (or its start), and then from each end, these are all of them.
// 64 where there is one: where it starts and ends goes to out. 65 where there is none. In C:
//
//     uint32_t starterbell_peer_address(const uint8_t *body, size_t body_length, size_t start, size_t end, size_t from, uint64_t *out, size_t out_length);
#[unsafe(no_mangle)]
pub extern "C" fn starterbell_peer_address(
    body: &[u8],
    start: usize,
    end: usize,
    from: usize,
    out: &mut [u64],
) -> u32
    ensures { (result ≡ part_number (address_from body.now start end from)) × (out.new ≡ address_numbers out.old (address_from body.now start end from)) }
{
    let f = host_answers::next_address(body, start, end, from);
    host_answers::address_answer(out, f)
}

// Writes a message with its length prefix from the start of `message` on: its type, its key, its record if `held` says that it has one, and its peers, given
// as crates/writer says. 64, or a refusal. Its length with the prefix goes to out. In C:
//
//     uint32_t starterbell_write(uint8_t *message, size_t message_length, uint64_t kind, const uint8_t *key, size_t key_length, uint32_t held,
//         const uint8_t *record_key, size_t record_key_length, const uint8_t *value, size_t value_length,
//         const uint8_t *closer, size_t closer_length, const uint8_t *providers, size_t providers_length, uint64_t *out, size_t out_length);
#[unsafe(no_mangle)]
pub extern "C" fn starterbell_write(
    message: &mut [u8],
    kind: u64,
    key: &[u8],
    held: u32,
    record_key: &[u8],
    value: &[u8],
    closer: &[u8],
    providers: &[u8],
    out: &mut [u64],
) -> u32
    ensures { (result ≡ write_number (answer_of message.old (message_with kind key.now (says_yes held) record_key.now value.now closer.now providers.now))) × (message.new ≡ out_after message.old (message_with kind key.now (says_yes held) record_key.now value.now closer.now providers.now)) × (out.new ≡ write_numbers out.old (answer_of message.old (message_with kind key.now (says_yes held) record_key.now value.now closer.now providers.now))) }
{
    let there = host_numbers::says_yes(held);
    let w = host_calls::write(
        message, kind, key, there, record_key, value, closer, providers,
    );
    host_answers::write_answer(out, w)
}

// ---- receiving

// Takes bytes of a piece up to the first event. 64 where more bytes are wanted, 65 where a request was answered in the reply buffer, 66 where a message for a
// lookup stands in the receive buffer, or a refusal. Four numbers always go to out: the bytes taken; the length of the reply or of the message, else 0; what
// came of the sender's sighting, 0 none, 1 moved, 2 joined, 3 the bucket is full, 4 no slot; and its slot, else 0. For 66 the eight numbers of the message's
// view follow. In C:
//
//     uint32_t starterbell_receive(const uint8_t *me, size_t me_length, uint8_t *conn, size_t conn_length, uint8_t *buffer, size_t buffer_length,
//         const uint8_t *piece, size_t piece_length, uint8_t *contacts, size_t contacts_length, uint8_t *records, size_t records_length,
//         uint8_t *reply, size_t reply_length, uint64_t *out, size_t out_length);
#[unsafe(no_mangle)]
pub extern "C" fn starterbell_receive(
    me: &[u8],
    conn: &mut [u8],
    buffer: &mut [u8],
    piece: &[u8],
    contacts: &mut [u8],
    records: &mut [u8],
    reply: &mut [u8],
    out: &mut [u64],
) -> u32
    ensures { Receives me.now conn.old buffer.old piece.now contacts.old records.old reply.old out.old result conn.new buffer.new contacts.new records.new reply.new out.new }
{
    if me.len() < flat::PEER {
        return host_state::nothing_taken(out);
    }
    if conn.len() < flat::CONN {
        return host_state::nothing_taken(out);
    }
    let p = flat::peer_in(me);
    let c = flat::conn_in(conn);
    let got = node::receive(p, c, buffer, piece, contacts, records, reply);
    host_state::keep_received(conn, out, got)
}

// ---- lookups

// Starts a lookup of a key from the contacts, with up to `limit` peers asked at a time. 64 where it is going, 67 where it is complete, or a refusal and an
// empty lookup. As for the calls below, three things go to out unless the call is refused: the rank to ask for 66, the number of requests sent for 67 and 68,
// else 0; how many peers were found; and twenty ranks of those, nearest first, with zeros after the last. In C:
//
//     uint32_t starterbell_lookup_start(const uint8_t *me, size_t me_length, uint8_t *memory, size_t memory_length,
//         const uint8_t *contacts, size_t contacts_length, const uint8_t *key, size_t key_length, size_t limit, uint64_t *out, size_t out_length);
#[unsafe(no_mangle)]
pub extern "C" fn starterbell_lookup_start(
    me: &[u8],
    memory: &mut [u8],
    contacts: &[u8],
    key: &[u8],
    limit: usize,
    out: &mut [u64],
) -> u32
    ensures { Begins me.now memory.old contacts.now key.now limit out.old result memory.new out.new }
{
    if me.len() < flat::PEER {
        return 0;
    }
    let o = host_calls::lookup_start(flat::peer_in(me), memory, contacts, key, limit);
    host_steps::tell(out, o)
}

// The next step of a lookup. 65 where it waits, 66 where a peer is to be asked, 67 where it is complete, 68 where it was cut short, or a refusal. In C:
//
//     uint32_t starterbell_lookup_next(uint8_t *memory, size_t memory_length, uint64_t *out, size_t out_length);
#[unsafe(no_mangle)]
pub extern "C" fn starterbell_lookup_next(memory: &mut [u8], out: &mut [u64]) -> u32
    ensures { Nexts memory.old out.old result memory.new out.new }
{
    let o = host_calls::lookup_next(memory);
    host_steps::tell(out, o)
}

// A message that came for a lookup, from the peer with this id: its body, and its view as receive or read gave it. 64 where the lookup is going, 67 where it
// is complete, 68 where it was cut short, or a refusal. In C:
//
//     uint32_t starterbell_lookup_reply(const uint8_t *me, size_t me_length, uint8_t *memory, size_t memory_length, const uint8_t *id, size_t id_length,
//         const uint8_t *body, size_t body_length, const uint64_t *view, size_t view_length, uint64_t *out, size_t out_length);
#[unsafe(no_mangle)]
pub extern "C" fn starterbell_lookup_reply(
    me: &[u8],
    memory: &mut [u8],
    id: &[u8],
    body: &[u8],
    view: &[u64],
    out: &mut [u64],
) -> u32
    ensures { Replies me.now memory.old id.now body.now view.now out.old result memory.new out.new }
{
    if me.len() < flat::PEER {
        return 0;
    }
    let p = flat::peer_in(me);
    let o = host_calls::lookup_reply(p, memory, id, body, host_numbers::view_in(view));
    host_steps::tell(out, o)
}

// The peer with this id failed a lookup. Returns what a reply returns. In C:
//
//     uint32_t starterbell_lookup_failure(const uint8_t *me, size_t me_length, uint8_t *memory, size_t memory_length, const uint8_t *id, size_t id_length,
//         uint64_t *out, size_t out_length);
#[unsafe(no_mangle)]
pub extern "C" fn starterbell_lookup_failure(
    me: &[u8],
    memory: &mut [u8],
    id: &[u8],
    out: &mut [u64],
) -> u32
    ensures { Fails me.now memory.old id.now out.old result memory.new out.new }
{
    if me.len() < flat::PEER {
        return 0;
    }
    let o = host_calls::lookup_failure(flat::peer_in(me), memory, id);
    host_steps::tell(out, o)
}
