#![tactic(auto)]
// Runs the example of a full bucket (RULES, Examples), and 3,000 calls of seen, settle and remove by numbers drawn in turn, on a table of 64 slots.
// Then 6,000 calls with 5,000 peers on a table of 192 slots. Of so many peers only about twelve buckets have any, so that some 140 contacts are
// held at a time, and most newcomers are turned away.
// It writes what each call answers, or how many answered so, and the first eight bytes of the table's hash now and then.
// tests/host/contacts_model.py says what must come.
//
// A letter for each call: m moved, j joined, k the head kept, w the head swapped, g gone; a capital letter is a refusal, A for 0 up.
ghost use Rattle.std.specs.Prelude.{◌≤◌, ◌<◌};

use contact_calls::{Settled, Sighting};
use refusal::Refusal;
use std::io;
use std::io::{Print, Stdout};

// What a call answered: a letter, and the slot that it named.
#[derive(Drop)]
struct Told {
    letter: u8,
    slot: usize,
}

// The numbers drawn, and the head and the newcomer of the last full bucket.
#[derive(Drop)]
struct Run {
    seed: u32,
    head: u8,
    new: u8,
    letter: u8,
}

fn say(to: Stdout, text: &[u8]) -> io::Result<()> {
    to.write_all(text)
}

fn count(to: Stdout, n: usize) -> io::Result<()> {
    to.print(n)
}

fn refused(r: Refusal) -> u8 {
    let n = refusal::number(r);
    if n < 26 {
        return b'A' + n;
    }
    b'?'
}

fn tell_seen(o: Result<Sighting, Refusal>) -> Told {
    match o {
        Ok(Sighting::Moved(i)) => Told {
            letter: b'm',
            slot: i,
        },
        Ok(Sighting::Joined(i)) => Told {
            letter: b'j',
            slot: i,
        },
        Ok(Sighting::Probe(h)) => Told {
            letter: b'N',
            slot: h,
        },
        Err(r) => Told {
            letter: refused(r),
            slot: 0,
        },
    }
}

fn tell_settle(o: Result<Settled, Refusal>) -> u8 {
    match o {
        Ok(Settled::Kept) => b'k',
        Ok(Settled::Swapped) => b'w',
        Err(r) => refused(r),
    }
}

fn tell_remove(o: Result<(), Refusal>) -> u8 {
    match o {
        Ok(()) => b'g',
        Err(r) => refused(r),
    }
}

// The next number drawn.
fn next(seed: u32) -> u32 {
    let a = seed ^ (seed << 13);
    let b = a ^ (a >> 17);
    b ^ (b << 5)
}

// Bytes of a number.
fn below_140(x: u32) -> u8
    ensures { result < 140 }
{
    (x % 140) as u8
}

fn below_200(x: u32) -> u8 {
    (x % 200) as u8
}

fn below_256(x: u32) -> u8 {
    (x % 256) as u8
}

// One address of a list: n bytes b.
fn put_address(buf: &mut [u8], at: usize, n: u8, b: u8)
    requires { (at ≤ 1000) × (n < 140) }
{
    let head = [n, 0u8];
    let body = [b; 140];
    let size = n as usize;
    octets::copy(buf, at, &head);
    octets::copy(buf, at + 2, front(&body, size));
}

// A list of 0 to 5 addresses that a number stands for: some are empty, and some are over 128 bytes. Answers its length.
fn put_list(buf: &mut [u8], x: u8) -> usize {
    let n = x % 6;
    let mut at: usize = 0;
    for k in 0..n {
        let size = below_140((x as u32) * 7 + (k as u32) * 31);
        put_address(buf, at, size, below_256((x as u32) + (k as u32)));
        at = at + 2 + (size as usize);
    }
    at
}

// The first n bytes of a list.
fn front(list: &[u8], n: usize) -> &[u8] {
    if list.len() < n {
        return list;
    }
    &list[..n]
}

fn see_name(table: &mut [u8], ours: &[u8], name: &[u8], client: bool, x: u8) -> Told {
    let mut list = [0u8; 1024];
    let n = put_list(&mut list, x);
    tell_seen(contact_calls::seen(table, ours, name, client, front(&list, n)))
}

fn see(table: &mut [u8], ours: &[u8], id: u8, client: bool, x: u8) -> Told {
    let name = [id];
    see_name(table, ours, &name, client, x)
}

fn settle_names(
    table: &mut [u8],
    ours: &[u8],
    head: &[u8],
    name: &[u8],
    client: bool,
    x: u8,
    answered: bool,
) -> u8 {
    let mut list = [0u8; 1024];
    let n = put_list(&mut list, x);
    tell_settle(contact_calls::settle(table, ours, head, name, client, front(&list, n), answered))
}

fn settle(
    table: &mut [u8],
    ours: &[u8],
    head: u8,
    id: u8,
    client: bool,
    x: u8,
    answered: bool,
) -> u8 {
    let old = [head];
    let name = [id];
    settle_names(table, ours, &old, &name, client, x, answered)
}

// The first byte of the id in a slot.
fn first_of(table: &[u8], slot: usize) -> u8 {
    let id = contacts::id_of(table, slot);
    if id.len() == 0 {
        return 0;
    }
    id[0]
}

fn see_next(table: &mut [u8], ours: &[u8], run: Run, id: u8, client: bool, x: u8) -> Run {
    let told = see(table, ours, id, client, x);
    if told.letter == b'N' {
        let head = first_of(table, told.slot);
        return Run {
            seed: run.seed,
            head,
            new: id,
            letter: told.letter,
        };
    }
    Run {
        seed: run.seed,
        head: run.head,
        new: run.new,
        letter: told.letter,
    }
}

fn remove_next(table: &mut [u8], ours: &[u8], run: Run, id: u8) -> Run {
    let name = [id];
    let letter = tell_remove(contact_calls::remove(table, ours, &name));
    Run {
        seed: run.seed,
        head: run.head,
        new: run.new,
        letter,
    }
}

// One call: of 16, ten are seen, three remove, two settle what the last full bucket asked for, one settles any two.
fn step(table: &mut [u8], ours: &[u8], before: Run) -> Run {
    let seed = next(before.seed);
    let run = Run {
        seed,
        head: before.head,
        new: before.new,
        letter: 0,
    };
    let kind = seed % 16;
    let id = below_200(seed >> 4);
    let client = (seed >> 12) % 16 == 0;
    let x = below_256(seed >> 16);
    if kind < 10 {
        return see_next(table, ours, run, id, client, x);
    }
    if kind < 13 {
        return remove_next(table, ours, run, id);
    }
    if kind < 15 {
        let letter = settle(table, ours, run.head, run.new, client, x, kind == 13);
        return Run {
            seed,
            head: run.head,
            new: run.new,
            letter,
        };
    }
    let letter = settle(table, ours, id, x, client, x, false);
    Run {
        seed,
        head: run.head,
        new: run.new,
        letter,
    }
}

fn put_letter(line: &mut [u8], i: usize, letter: u8) {
    if line.len() <= i {
        return;
    }
    line[i] = letter;
}

// A hundred calls, on a line.
fn hundred(to: Stdout, table: &mut [u8], ours: &[u8], start: Run) -> io::Result<Run> {
    let mut out = [0u8; 100];
    let mut run = start;
    for i in 0..100 {
        run = step(table, ours, run);
        put_letter(&mut out, i, run.letter);
    }
    say(to, &out)?;
    say(to, b"\n")?;
    Ok(run)
}

fn tell_table(to: Stdout, table: &[u8]) -> io::Result<()> {
    let digest = sha256::hash(table);
    say(to, b"table ")?;
    to.print(octets::word(&digest, 0))?;
    say(to, b"\n")
}

// A peer is seen if it is of bucket 0; else the letter is a dot.
fn see_near(table: &mut [u8], ours: &[u8], id: u8) -> Told {
    let name = [id];
    let place = place::place_of(&name);
    if place::bucket(&place, ours) != 0 {
        return Told {
            letter: b'.',
            slot: 0,
        };
    }
    see(table, ours, id, false, 1)
}

fn one_more(joined: u8, letter: u8) -> u8 {
    if letter != b'j' {
        return joined;
    }
    if 200 <= joined {
        return joined;
    }
    joined + 1
}

fn tell_full(to: Stdout, joined: u8, head: usize) -> io::Result<()> {
    say(to, b"bucket 0: ")?;
    count(to, joined as usize)?;
    say(
        to,
        b" joined, and the next is refused with 13; the head is in slot ",
    )?;
    count(to, head)?;
    say(to, b"\n")
}

// Peers of bucket 0 are seen until one is turned away.
fn fill_bucket(to: Stdout, table: &mut [u8], ours: &[u8]) -> io::Result<()> {
    let mut joined: u8 = 0;
    for id in 0..200 {
        let told = see_near(table, ours, id);
        if told.letter == b'N' {
            return tell_full(to, joined, told.slot);
        }
        joined = one_more(joined, told.letter);
    }
    Ok(())
}

// The table's hash, after every fifth line.
fn tell_fifth(to: Stdout, table: &[u8], k: usize) -> io::Result<()> {
    if k % 5 != 0 {
        return Ok(());
    }
    tell_table(to, table)
}

// ---- a crowd of peers, with ids of four bytes

// The id of peer n of 5,000, from any number.
fn name_of(n: u32) -> [u8; 4] {
    let k = n % 5000;
    [below_256(k), below_256(k / 256), 1, 2]
}

// The first four bytes of the id in a slot, zeros where it is free.
fn name_in(table: &[u8], slot: usize) -> [u8; 4] {
    let mut name = [0u8; 4];
    octets::copy(&mut name, 0, contacts::id_of(table, slot));
    name
}

// One more of a letter.
fn tally_letter(tally: &mut [usize], letter: u8) {
    let k = letter as usize;
    if tally.len() <= k {
        return;
    }
    let n = tally[k];
    if 1000000 <= n {
        return;
    }
    tally[k] = n + 1;
}

// A peer is seen. Where its bucket is full, the head is probed in every second case, and answers in one of four.
fn see_one(table: &mut [u8], ours: &[u8], tally: &mut [usize], name: [u8; 4], seed: u32) {
    let x = below_256(seed >> 16);
    let told = see_name(table, ours, &name, false, x);
    tally_letter(tally, told.letter);
    if told.letter != b'N' {
        return;
    }
    if (seed >> 8) % 2 == 0 {
        return;
    }
    let head = name_in(table, told.slot);
    let answered = (seed >> 9) % 4 == 0;
    tally_letter(
        tally,
        settle_names(table, ours, &head, &name, false, x, answered),
    );
}

// One call of the crowd: of 16, fourteen are seen, two remove whom a slot below 256 holds, if any.
fn crowd_step(table: &mut [u8], ours: &[u8], tally: &mut [usize], before: u32) -> u32 {
    let seed = next(before);
    let pick = next(seed);
    if seed % 16 < 14 {
        see_one(table, ours, tally, name_of(pick >> 3), seed);
        return pick;
    }
    let name = name_in(table, below_256(pick >> 3) as usize);
    tally_letter(
        tally,
        tell_remove(contact_calls::remove(table, ours, &name)),
    );
    pick
}

fn thousand(table: &mut [u8], ours: &[u8], tally: &mut [usize], start: u32) -> u32 {
    let mut seed = start;
    for _ in 0..1000 {
        seed = crowd_step(table, ours, tally, seed);
    }
    seed
}

fn tell_letter(to: Stdout, tally: &[usize], letter: u8) -> io::Result<()> {
    let k = letter as usize;
    if tally.len() <= k {
        return Ok(());
    }
    let text = [b' ', letter, b' '];
    say(to, &text)?;
    count(to, tally[k])
}

fn tell_tally(to: Stdout, tally: &[usize]) -> io::Result<()> {
    say(to, b"crowd:")?;
    tell_letter(to, tally, b'm')?;
    tell_letter(to, tally, b'j')?;
    tell_letter(to, tally, b'N')?;
    tell_letter(to, tally, b'O')?;
    tell_letter(to, tally, b'k')?;
    tell_letter(to, tally, b'w')?;
    tell_letter(to, tally, b'P')?;
    tell_letter(to, tally, b'g')?;
    say(to, b"\n")
}

fn crowd(to: Stdout, ours: &[u8]) -> io::Result<()> {
    let mut table = [0u8; 118272];
    let mut tally = [0usize; 128];
    let mut seed: u32 = 88172645;
    for _ in 0..6 {
        seed = thousand(&mut table, ours, &mut tally, seed);
        tell_tally(to, &tally)?;
        tell_table(to, &table)?;
    }
    Ok(())
}

fn main(rt: HostRuntime) -> io::Result<()> {
    let to = rt.stdout();
    let mut table = [0u8; 39424];
    let ours = place::place_of(b"ours");
    fill_bucket(to, &mut table, &ours)?;
    tell_table(to, &table)?;
    let mut run = Run {
        seed: 2463534242,
        head: 0,
        new: 0,
        letter: 0,
    };
    for k in 1..31 {
        run = hundred(to, &mut table, &ours, run)?;
        tell_fifth(to, &table, k)?;
    }
    crowd(to, &ours)
}
