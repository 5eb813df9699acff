#![tactic(auto)]
// The host's calls on lookups, for a box: a lookup stands in lent bytes, and each call changes it there. Every function takes any numbers and any
// buffers, and refuses by number.
ghost use Rattle.std.specs.Prelude.{◌≡◌, ◌≤◌};
ghost use Rattle.limits.specs.Limits.{most_id};
ghost use Rattle.flat_lookup.specs.FlatLookup.{lookup_in};
ghost use Rattle.lookup_in_place.specs.InPlace.{outcome_of, step_in, step_memory, next_in, start_memory};
ghost use Rattle.host_lookups.specs.Lookups.{lookup_start, lookup_reply, lookup_failure};
ghost use Rattle.host_lookups.specs.Inner.{own_size};

use lookup_in_place::Outcome;
use message::Fields;
use peer::Peer;

// How many bytes the box's id has; none where no start gives it.
fn own_size(me: Peer) -> usize
    ensures { (result ≡ own_size me) × (result ≤ most_id) }
{
    if connections::own_fits(me) {
        return me.size as usize;
    }
    0
}

// A lookup of a key starts from the contacts, with so many peers asked at a time.
pub fn lookup_start(
    me: Peer,
    memory: &mut [u8],
    contacts: &[u8],
    key: &[u8],
    limit: usize,
) -> Outcome
    ensures { (result ≡ outcome_of (step_in memory.old (lookup_start me contacts.now key.now limit))) × (memory.new ≡ start_memory memory.old (lookup_start me contacts.now key.now limit)) }
{
    let own = me.id;
    let n = own_size(me);
    let ours = me.place;
    lookup_in_place::start(memory, contacts, &own[..n], ours, key, limit)
}

// The next step of a lookup: whom to ask, wait, or its end.
pub fn lookup_next(memory: &mut [u8]) -> Outcome
    ensures { (result ≡ outcome_of (next_in memory.old)) × (memory.new ≡ step_memory memory.old (next_in memory.old)) }
{
    lookup_in_place::next(memory)
}

// A message that came for a lookup, from the peer with this id: its body, and the places of its fields.
pub fn lookup_reply(me: Peer, memory: &mut [u8], id: &[u8], body: &[u8], view: Fields) -> Outcome
    ensures { (result ≡ outcome_of (step_in memory.old (lookup_reply me (lookup_in memory.old) id.now body.now view))) × (memory.new ≡ step_memory memory.old (step_in memory.old (lookup_reply me (lookup_in memory.old) id.now body.now view))) }
{
    let own = me.id;
    let n = own_size(me);
    let ours = me.place;
    lookup_in_place::reply(memory, &own[..n], ours, id, body, view)
}

// The peer with this id failed a lookup.
pub fn lookup_failure(me: Peer, memory: &mut [u8], id: &[u8]) -> Outcome
    ensures { (result ≡ outcome_of (step_in memory.old (lookup_failure me (lookup_in memory.old) id.now))) × (memory.new ≡ step_memory memory.old (step_in memory.old (lookup_failure me (lookup_in memory.old) id.now))) }
{
    let own = me.id;
    let n = own_size(me);
    let ours = me.place;
    lookup_in_place::failure(memory, &own[..n], ours, id)
}
