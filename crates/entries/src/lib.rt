#![tactic(auto)]
// Entries of closerPeers: a contact in its slot, or a peer by value, as the bytes of an entry. Every function takes any bytes.
ghost use Rattle.std.specs.Prelude.{◌≡◌, true, ◌+◌, ◌*◌, ◌<◌, ◌≤◌, min, length};
ghost use Rattle.octets.specs.Octets.{part};
ghost use Rattle.limits.specs.Limits.{most_id, most_address, most_addresses, addresses_size};
ghost use Rattle.contacts.specs.Table.{slot};
ghost use Rattle.wire.specs.Items.{Put};
ghost use Rattle.pieces.specs.Writable.{peer_fits, peer_piece};
ghost use Rattle.entries.specs.Entries.{contact_entry, peer_entry};
ghost use Rattle.pieces.specs.Sizes.{most_peer_field};

use peer::Peer;

// The field of closerPeers, and what an entry says of the connection.
const CLOSER: u8 = 8;

const UNCONNECTED: u8 = 0;

// How many bytes the contact in slot i takes as an entry.
pub fn contact_len(table: &[u8], i: usize) -> usize
    ensures { (result ≡ length (peer_piece 8 (contact_entry (slot table.now i)))) × (result ≤ most_peer_field) }
{
    pieces::peer_len(
        CLOSER,
        contacts::id_of(table, i),
        contacts::address_count(table, i),
        contacts::address_of(table, i, 0),
        contacts::address_of(table, i, 1),
        contacts::address_of(table, i, 2),
        contacts::address_of(table, i, 3),
        UNCONNECTED,
    )
}

// Writes the contact in slot i as an entry.
pub fn put_contact(buf: &mut [u8], at: usize, table: &[u8], i: usize) -> usize
    ensures { Put buf.old at (peer_piece 8 (contact_entry (slot table.now i))) buf.new result }
{
    pieces::put_peer(
        buf,
        at,
        CLOSER,
        contacts::id_of(table, i),
        contacts::address_count(table, i),
        contacts::address_of(table, i, 0),
        contacts::address_of(table, i, 1),
        contacts::address_of(table, i, 2),
        contacts::address_of(table, i, 3),
        UNCONNECTED,
    )
}

// The size of an id, cut to 64.
fn id_size(size: u8) -> usize
    ensures { result ≡ min size most_id }
{
    let n = size as usize;
    if n < limits::MOST_ID {
        return n;
    }
    limits::MOST_ID
}

// The address in room k of four.
fn room(addrs: &[u8], k: usize, size: u8) -> &[u8]
    requires { (length addrs.now ≡ addresses_size) × (k < most_addresses) × (size ≤ most_address) }
    ensures { result.now ≡ part addrs.now (k * most_address) (k * most_address + size) }
{
    let from = k * limits::MOST_ADDRESS;
    let end = from + size as usize;
    &addrs[from..end]
}

// How many bytes a peer by value takes as an entry, with its usable addresses: we, or the requester.
pub fn own_len(p: Peer) -> usize
    ensures { (result ≡ length (peer_piece 8 (peer_entry p))) × (result ≤ most_peer_field) × (peer_fits (peer_entry p) ≡ true) }
{
    let q = peer::tidied(p);
    let id = q.id;
    let addrs = q.addrs;
    let lens = q.lens;
    let size = id_size(q.size);
    pieces::peer_len(
        CLOSER,
        &id[..size],
        q.count as usize,
        room(&addrs, 0, lens[0]),
        room(&addrs, 1, lens[1]),
        room(&addrs, 2, lens[2]),
        room(&addrs, 3, lens[3]),
        UNCONNECTED,
    )
}

// Writes a peer by value as an entry.
pub fn put_own(buf: &mut [u8], at: usize, p: Peer) -> usize
    ensures { Put buf.old at (peer_piece 8 (peer_entry p)) buf.new result }
{
    let q = peer::tidied(p);
    let id = q.id;
    let addrs = q.addrs;
    let lens = q.lens;
    let size = id_size(q.size);
    pieces::put_peer(
        buf,
        at,
        CLOSER,
        &id[..size],
        q.count as usize,
        room(&addrs, 0, lens[0]),
        room(&addrs, 1, lens[1]),
        room(&addrs, 2, lens[2]),
        room(&addrs, 3, lens[3]),
        UNCONNECTED,
    )
}
