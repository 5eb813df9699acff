#![tactic(auto)]
// A peer by value: its id, its place and the addresses that are kept of those handed in. Every function takes any bytes.
ghost use Rattle.std.specs.Prelude.{◌≡◌, ℕ, ◌+◌, ◌<◌, ◌≤◌, min, length, drop, replicate};
ghost use Rattle.peer.specs.Addresses.{two, end_of, usable_size, kept_of, rooms, sizes};
ghost use Rattle.peer.specs.Peers.{id_fits, peer_of, usable_in, tidied};
ghost use Rattle.limits.specs.Limits.{most_id, most_addresses, addresses_size};

#[derive(Clone, Copy)]
pub struct Peer {
    // four addresses of 128 bytes, zeros after each
    pub addrs: [u8; limits::ADDRESSES_SIZE],
    // zeros after the id
    pub id: [u8; limits::MOST_ID],
    pub place: [u8; limits::PLACE],
    // lengths of the addresses, 0 where there is none
    pub lens: [u8; limits::MOST_ADDRESSES],
    // length of the id
    pub size: u8,
    // number of addresses
    pub count: u8,
}

// The length that opens an entry of a list: two bytes, the lowest first.
fn size_at(list: &[u8], at: usize) -> usize
    requires { at + 2 ≤ length list.now }
    ensures { (result ≡ two (drop at list.now) 0) × (result < 65536) }
{
    let low = list[at] as usize;
    let high = list[at + 1] as usize;
    low + high * 256
}

// Where the entry at a place of a list ends; 0 where it runs past the end of the list.
fn entry_end(list: &[u8], at: usize) -> usize
    requires { at ≤ length list.now }
    ensures { result ≡ end_of list.now at }
{
    let left = list.len() - at;
    if left < 2 {
        return 0;
    }
    let n = size_at(list, at);
    if left - 2 < n {
        return 0;
    }
    at + 2 + n
}

// Whether an address of so many bytes is usable.
fn usable_size(n: usize) -> bool
    ensures { result ≡ usable_size n }
{
    if n == 0 {
        return false;
    }
    n <= limits::MOST_ADDRESS
}

// Keeps the first four usable addresses of a list, in rooms of 128 bytes that hold zeros, and their lengths. Answers how many there are.
fn keep(addrs: &mut [u8], lens: &mut [u8], list: &[u8]) -> u8
    requires { (addrs.old ≡ replicate addresses_size 0) × (lens.old ≡ replicate most_addresses 0) }
    ensures { (result ≡ length (kept_of list.now)) × (addrs.new ≡ rooms 4 (kept_of list.now)) × (lens.new ≡ sizes 4 (kept_of list.now)) }
{
    let mut count: usize = 0;
    let mut at: usize = 0;
    // `while`: only a usable address counts, so no range has the rounds
    while count < limits::MOST_ADDRESSES {
        let end = entry_end(list, at);
        if end == 0 {
            return count as u8;
        }
        let from = at + 2;
        let n = end - from;
        at = end;
        if usable_size(n) {
            octets::copy(addrs, count * limits::MOST_ADDRESS, &list[from..end]);
            lens[count] = n as u8;
            count += 1;
        }
    }
    count as u8
}

// Whether an id has 1 to 64 bytes.
pub fn id_fits(id: &[u8]) -> bool
    ensures { result ≡ id_fits id.now }
{
    let n = id.len();
    if n == 0 {
        return false;
    }
    n <= limits::MOST_ID
}

// The length of an id, cut to 64.
fn cut_size(n: usize) -> u8
    ensures { result ≡ min n most_id }
{
    if n < limits::MOST_ID {
        return n as u8;
    }
    limits::MOST_ID as u8
}

// The number of addresses, cut to 4.
fn cut_count(n: u8) -> usize
    ensures { result ≡ min n 4 }
{
    let m = n as usize;
    if m < limits::MOST_ADDRESSES {
        return m;
    }
    limits::MOST_ADDRESSES
}

// The peer with an id, its place, and a list of addresses: the first four usable ones are kept. Of an id over 64 bytes the first 64 are
// kept; the entry points refuse such an id.
pub fn peer_of(id: &[u8], place: [u8; 32], addresses: &[u8]) -> Peer
    ensures { result ≡ peer_of id.now place addresses.now }
{
    let mut name = [0u8; limits::MOST_ID];
    octets::copy(&mut name, 0, id);
    let mut addrs = [0u8; limits::ADDRESSES_SIZE];
    let mut lens = [0u8; 4];
    let count = keep(&mut addrs, &mut lens, addresses);
    let size = cut_size(id.len());
    Peer {
        addrs,
        id: name,
        place,
        lens,
        size,
        count,
    }
}

// Keeps the usable addresses of a peer, as `keep` keeps those of a list.
fn keep_usable(addrs: &mut [u8], lens: &mut [u8], p: Peer) -> u8
    requires { (addrs.old ≡ replicate addresses_size 0) × (lens.old ≡ replicate most_addresses 0) }
    ensures { (result ≡ length (usable_in p)) × (addrs.new ≡ rooms 4 (usable_in p)) × (lens.new ≡ sizes 4 (usable_in p)) }
{
    let rooms = p.addrs;
    let all = cut_count(p.count);
    let mut count: usize = 0;
    for k in 0..all {
        let n = p.lens[k] as usize;
        let from = k * limits::MOST_ADDRESS;
        if usable_size(n) {
            octets::copy(addrs, count * limits::MOST_ADDRESS, &rooms[from..from + n]);
            lens[count] = n as u8;
            count += 1;
        }
    }
    count as u8
}

// The peer with its usable addresses alone: those of 1 to 128 bytes, of the first four. A host may hand in one with other numbers.
pub fn tidied(p: Peer) -> Peer
    ensures { result ≡ tidied p }
{
    let mut addrs = [0u8; limits::ADDRESSES_SIZE];
    let mut lens = [0u8; 4];
    let count = keep_usable(&mut addrs, &mut lens, p);
    let id = p.id;
    let place = p.place;
    Peer {
        addrs,
        id,
        place,
        lens,
        size: p.size,
        count,
    }
}
