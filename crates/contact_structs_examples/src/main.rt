#![tactic(auto)]
// A box with room for two contacts, held as structs: two peers of one bucket are seen, then the first again, and at last the second with too
// little room lent. It writes both contacts after each call: the id's first byte and the mark, or - for a free slot.
ghost use Rattle.std.specs.Prelude.{◌≡◌, false};
ghost use Rattle.host_calls.specs.Hosts.{seen_after};
ghost use Rattle.contact_slots.specs.Slots.{table_bytes};
ghost use Rattle.contact_structs.specs.Structs.{contacts_after};

use contact_slots::Contact;
use peer::Peer;
use std::io;
use std::io::{Print, Stdout};

// The two contacts after a server was seen.
fn after_seen(
    me: Peer,
    pair: [Contact; 2],
    room: &mut [u8],
    id: &[u8],
    addresses: &[u8],
) -> [Contact; 2]
    ensures { result ≡ contacts_after pair room.old (seen_after me (table_bytes pair) id.now false addresses.now) }
{
    let mut t = pair;
    let _ = contact_structs::seen(me, &mut t, room, id, false, addresses);
    t
}

fn say(out: Stdout, text: &[u8]) -> io::Result<()> {
    out.write_all(text)
}

fn wide(x: u8) -> u64 {
    x as u64
}

fn tell(out: Stdout, c: Contact) -> io::Result<()> {
    let mark = c.mark;
    if mark == 0 {
        return say(out, b"-");
    }
    let p = c.peer;
    let id = p.id;
    let first = [id[0]];
    say(out, &first)?;
    out.print(wide(mark))
}

fn tell_both(out: Stdout, pair: [Contact; 2]) -> io::Result<()> {
    tell(out, pair[0])?;
    say(out, b" ")?;
    tell(out, pair[1])?;
    say(out, b"\n")
}

fn main(rt: HostRuntime) -> io::Result<()> {
    let out = rt.stdout();
    let place = place::place_of(b"us");
    let me = peer::peer_of(b"us", place, b"");
    let free = contact_slots::contact_in(b"", 0);
    let none = [free; 2];
    let mut room = [0u8; 1232];
    let one = after_seen(me, none, &mut room, b"c", b"");
    tell_both(out, one)?;
    let two = after_seen(me, one, &mut room, b"d", b"");
    tell_both(out, two)?;
    let moved = after_seen(me, two, &mut room, b"c", b"");
    tell_both(out, moved)?;
    let mut short = [0u8; 1231];
    let same = after_seen(me, moved, &mut short, b"d", b"");
    tell_both(out, same)
}
