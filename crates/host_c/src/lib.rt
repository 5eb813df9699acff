#![tactic(auto)]
// What C and Rust programs link: each function of `host`, exported under its name and with its contract. What it does and how C declares it stands there.
ghost use Rattle.std.specs.Prelude.{◌≡◌};
ghost use Rattle.flat.specs.Flat.{says_yes};
ghost use Rattle.records.specs.Store.{put_answer, put_after, find_of};
ghost use Rattle.message.specs.View.{reading_of};
ghost use Rattle.writer.specs.Writer.{message_with, answer_of, out_after};
ghost use Rattle.host_answers.specs.Answers.{put_number, find_number, find_numbers, read_number, read_numbers, entry_from, address_from, part_number, peer_numbers, address_numbers};
ghost use Rattle.host_answers.specs.Answers.{write_number, write_numbers, spans_number, spans_numbers, setpoints_number, recipe_number, recipe_numbers};
ghost use Rattle.recipe.specs.Recipe.{is_recipe};
ghost use Rattle.recipe_fields.specs.Places.{spans_of, turns_after, trims_after};
ghost use Rattle.recipe_fields.specs.Writing.{given, written_of, after_of};
ghost use Rattle.host.specs.Host.{start_code, start_memory, open_code, open_memory, end_code, end_memory, seen_code, seen_contacts, seen_out, settle_code, settle_contacts};
ghost use Rattle.host.specs.Host.{remove_code, remove_contacts, doubt_code, doubt_contacts, nearest_code, nearest_out, Receives, Begins, Nexts, Replies, Fails};

// ---- the box and its connections

#[unsafe(no_mangle)]
pub extern "C" fn starterbell_start(me: &mut [u8], id: &[u8], addresses: &[u8]) -> u32
    ensures { (result ≡ start_code me.old id.now addresses.now) × (me.new ≡ start_memory me.old id.now addresses.now) }
{
    host::starterbell_start(me, id, addresses)
}

#[unsafe(no_mangle)]
pub extern "C" fn starterbell_open(
    me: &[u8],
    conn: &mut [u8],
    id: &[u8],
    server: u32,
    asking: u32,
    addresses: &[u8],
) -> u32
    ensures { (result ≡ open_code me.now conn.old id.now server asking addresses.now) × (conn.new ≡ open_memory me.now conn.old id.now server asking addresses.now) }
{
    host::starterbell_open(me, conn, id, server, asking, addresses)
}

#[unsafe(no_mangle)]
pub extern "C" fn starterbell_end(me: &[u8], conn: &mut [u8]) -> u32
    ensures { (result ≡ end_code me.now conn.old) × (conn.new ≡ end_memory me.now conn.old) }
{
    host::starterbell_end(me, conn)
}

// ---- contacts

#[unsafe(no_mangle)]
pub extern "C" fn starterbell_seen(
    me: &[u8],
    contacts: &mut [u8],
    id: &[u8],
    client: u32,
    addresses: &[u8],
    out: &mut [u64],
) -> u32
    ensures { (result ≡ seen_code me.now contacts.old id.now client addresses.now) × (contacts.new ≡ seen_contacts me.now contacts.old id.now client addresses.now) × (out.new ≡ seen_out me.now contacts.old id.now client addresses.now out.old) }
{
    host::starterbell_seen(me, contacts, id, client, addresses, out)
}

#[unsafe(no_mangle)]
pub extern "C" fn starterbell_settle(
    me: &[u8],
    contacts: &mut [u8],
    head: &[u8],
    id: &[u8],
    client: u32,
    addresses: &[u8],
    answered: u32,
) -> u32
    ensures { (result ≡ settle_code me.now contacts.old head.now id.now client addresses.now answered) × (contacts.new ≡ settle_contacts me.now contacts.old head.now id.now client addresses.now answered) }
{
    host::starterbell_settle(me, contacts, head, id, client, addresses, answered)
}

#[unsafe(no_mangle)]
pub extern "C" fn starterbell_remove(me: &[u8], contacts: &mut [u8], id: &[u8]) -> u32
    ensures { (result ≡ remove_code me.now contacts.old id.now) × (contacts.new ≡ remove_contacts me.now contacts.old id.now) }
{
    host::starterbell_remove(me, contacts, id)
}

#[unsafe(no_mangle)]
pub extern "C" fn starterbell_doubt(me: &[u8], contacts: &mut [u8], id: &[u8]) -> u32
    ensures { (result ≡ doubt_code me.now contacts.old id.now) × (contacts.new ≡ doubt_contacts me.now contacts.old id.now) }
{
    host::starterbell_doubt(me, contacts, id)
}

#[unsafe(no_mangle)]
pub extern "C" fn starterbell_nearest(
    me: &[u8],
    contacts: &[u8],
    key: &[u8],
    out: &mut [u64],
) -> u32
    ensures { (result ≡ nearest_code me.now contacts.now key.now) × (out.new ≡ nearest_out me.now contacts.now key.now out.old) }
{
    host::starterbell_nearest(me, contacts, key, out)
}

// ---- records

#[unsafe(no_mangle)]
pub extern "C" fn starterbell_put(records: &mut [u8], key: &[u8], value: &[u8]) -> u32
    ensures { (result ≡ put_number (put_answer records.old key.now value.now)) × (records.new ≡ put_after records.old key.now value.now) }
{
    host::starterbell_put(records, key, value)
}

#[unsafe(no_mangle)]
pub extern "C" fn starterbell_find(records: &[u8], key: &[u8], out: &mut [u64]) -> u32
    ensures { (result ≡ find_number (find_of records.now key.now)) × (out.new ≡ find_numbers out.old (find_of records.now key.now)) }
{
    host::starterbell_find(records, key, out)
}

// ---- recipes

#[unsafe(no_mangle)]
pub extern "C" fn starterbell_recipe_read(value: &[u8], out: &mut [u64]) -> u32
    ensures { (result ≡ spans_number (spans_of value.now)) × (out.new ≡ spans_numbers out.old (spans_of value.now)) }
{
    host::starterbell_recipe_read(value, out)
}

#[unsafe(no_mangle)]
pub extern "C" fn starterbell_recipe_setpoints(
    value: &[u8],
    core: u32,
    turns: &mut [u32],
    trims: &mut [i32],
) -> u32
    ensures { (result ≡ setpoints_number (is_recipe value.now)) × (turns.new ≡ turns_after value.now (says_yes core) turns.old) × (trims.new ≡ trims_after value.now (says_yes core) trims.old) }
{
    host::starterbell_recipe_setpoints(value, core, turns, trims)
}

#[unsafe(no_mangle)]
pub extern "C" fn starterbell_recipe_write(
    value: &mut [u8],
    format: usize,
    note: &[u8],
    wrap_turns: &[u32],
    wrap_trims: &[i32],
    core_turns: &[u32],
    core_trims: &[i32],
    sequence: u64,
    out: &mut [u64],
) -> u32
    ensures { (result ≡ recipe_number (written_of (given format note.now wrap_turns.now wrap_trims.now core_turns.now core_trims.now sequence))) × (value.new ≡ after_of (given format note.now wrap_turns.now wrap_trims.now core_turns.now core_trims.now sequence) value.old) × (out.new ≡ recipe_numbers out.old (written_of (given format note.now wrap_turns.now wrap_trims.now core_turns.now core_trims.now sequence))) }
{
    host::starterbell_recipe_write(
        value, format, note, wrap_turns, wrap_trims, core_turns, core_trims, sequence, out,
    )
}

// ---- messages

#[unsafe(no_mangle)]
pub extern "C" fn starterbell_read(body: &[u8], out: &mut [u64]) -> u32
    ensures { (result ≡ read_number (reading_of body.now)) × (out.new ≡ read_numbers out.old (reading_of body.now)) }
{
    host::starterbell_read(body, out)
}

#[unsafe(no_mangle)]
pub extern "C" fn starterbell_peer(body: &[u8], list: u32, from: usize, out: &mut [u64]) -> u32
    ensures { (result ≡ part_number (entry_from body.now list from)) × (out.new ≡ peer_numbers out.old body.now (entry_from body.now list from)) }
{
    host::starterbell_peer(body, list, from, out)
}

#[unsafe(no_mangle)]
pub extern "C" fn starterbell_peer_address(
    body: &[u8],
    start: usize,
    end: usize,
    from: usize,
    out: &mut [u64],
) -> u32
    ensures { (result ≡ part_number (address_from body.now start end from)) × (out.new ≡ address_numbers out.old (address_from body.now start end from)) }
{
    host::starterbell_peer_address(body, start, end, from, out)
}

#[unsafe(no_mangle)]
pub extern "C" fn starterbell_write(
    message: &mut [u8],
    kind: u64,
    key: &[u8],
    held: u32,
    record_key: &[u8],
    value: &[u8],
    closer: &[u8],
    providers: &[u8],
    out: &mut [u64],
) -> u32
    ensures { (result ≡ write_number (answer_of message.old (message_with kind key.now (says_yes held) record_key.now value.now closer.now providers.now))) × (message.new ≡ out_after message.old (message_with kind key.now (says_yes held) record_key.now value.now closer.now providers.now)) × (out.new ≡ write_numbers out.old (answer_of message.old (message_with kind key.now (says_yes held) record_key.now value.now closer.now providers.now))) }
{
    host::starterbell_write(
        message, kind, key, held, record_key, value, closer, providers, out,
    )
}

// ---- receiving

#[unsafe(no_mangle)]
pub extern "C" fn starterbell_receive(
    me: &[u8],
    conn: &mut [u8],
    buffer: &mut [u8],
    piece: &[u8],
    contacts: &mut [u8],
    records: &mut [u8],
    reply: &mut [u8],
    out: &mut [u64],
) -> u32
    ensures { Receives me.now conn.old buffer.old piece.now contacts.old records.old reply.old out.old result conn.new buffer.new contacts.new records.new reply.new out.new }
{
    host::starterbell_receive(me, conn, buffer, piece, contacts, records, reply, out)
}

// ---- lookups

#[unsafe(no_mangle)]
pub extern "C" fn starterbell_lookup_start(
    me: &[u8],
    memory: &mut [u8],
    contacts: &[u8],
    key: &[u8],
    limit: usize,
    out: &mut [u64],
) -> u32
    ensures { Begins me.now memory.old contacts.now key.now limit out.old result memory.new out.new }
{
    host::starterbell_lookup_start(me, memory, contacts, key, limit, out)
}

#[unsafe(no_mangle)]
pub extern "C" fn starterbell_lookup_next(memory: &mut [u8], out: &mut [u64]) -> u32
    ensures { Nexts memory.old out.old result memory.new out.new }
{
    host::starterbell_lookup_next(memory, out)
}

#[unsafe(no_mangle)]
pub extern "C" fn starterbell_lookup_reply(
    me: &[u8],
    memory: &mut [u8],
    id: &[u8],
    body: &[u8],
    view: &[u64],
    out: &mut [u64],
) -> u32
    ensures { Replies me.now memory.old id.now body.now view.now out.old result memory.new out.new }
{
    host::starterbell_lookup_reply(me, memory, id, body, view, out)
}

#[unsafe(no_mangle)]
pub extern "C" fn starterbell_lookup_failure(
    me: &[u8],
    memory: &mut [u8],
    id: &[u8],
    out: &mut [u64],
) -> u32
    ensures { Fails me.now memory.old id.now out.old result memory.new out.new }
{
    host::starterbell_lookup_failure(me, memory, id, out)
}
