#![tactic(auto)]
// The examples on recipes that aren't starred (RULES, Examples), the edges of each limit and of format 2 (RULES, Recipes), and recipes written and read: one line for each.
ghost use Rattle.std.specs.Prelude.{◌+◌, ◌*◌, ◌<◌, ◌≤◌, length};

use recipe::Breach;
use std::io;
use std::io::{Print, Stdout};

fn say(out: Stdout, what: &[u8], taken: bool) -> io::Result<()> {
    out.write_all(what)?;
    if taken {
        return out.write_all(b": taken\n");
    }
    out.write_all(b": refused\n")
}

fn ask(out: Stdout, what: &[u8], yes: bool) -> io::Result<()> {
    out.write_all(what)?;
    if yes {
        return out.write_all(b": yes\n");
    }
    out.write_all(b": no\n")
}

// Setpoints from a place on, three bytes each: turns 128, 129 .., trim -1.
fn put_points(buf: &mut [u8], at: usize, count: usize)
    requires { (count ≤ 401) × (at ≤ 3073) }
{
    for i in 0..count {
        let p = at + i * 3;
        octets::copy(buf, p, &[(i % 128 + 128) as u8, (i / 128 + 1) as u8, 1]);
    }
}

// A trailer of format 1 and sequence 0.
fn put_trailer(buf: &mut [u8], at: usize, distance: usize, count: usize)
    requires { (distance < 65536) × (count < 65536) }
{
    octets::copy(
        buf,
        at,
        &[
            (distance % 256) as u8,
            (distance / 256) as u8,
            0,
            0,
            (count % 256) as u8,
            (count / 256) as u8,
            1,
            0,
            0,
            0,
            0,
            0,
            0,
            0,
            0,
            0,
        ],
    );
}

// A value of n bytes with so many setpoints, and a note of zeros before them.
fn with_points(count: usize, n: usize) -> bool
    requires { (count ≤ 401) × (count * 3 + 16 ≤ n) × (n ≤ 3073) }
{
    let mut v = [0u8; 3073];
    let end = n - 16;
    put_points(&mut v, end - count * 3, count);
    put_trailer(&mut v, end, count * 3 + 16, count);
    recipe::check(&v[..n])
}

// One setpoint of these four bytes.
fn with_four(a: u8, b: u8, c: u8, d: u8) -> bool {
    recipe::check(&[a, b, c, d, 20, 0, 0, 0, 1, 0, 1, 0, 7, 0, 0, 0, 0, 0, 0, 0])
}

// Two setpoints, their turns a and c, their trims b and d.
fn with_two(a: u8, b: u8, c: u8, d: u8) -> bool {
    recipe::check(&[a, b, c, d, 20, 0, 0, 0, 2, 0, 1, 0, 7, 0, 0, 0, 0, 0, 0, 0])
}

// A value of so many setpoints, given as their bytes, with no note.
fn with_list(points: &[u8], count: usize) -> bool
    requires { (length points.now ≤ 64) × (count < 65536) }
{
    let mut v = [0u8; 80];
    let n = points.len();
    octets::copy(&mut v, 0, points);
    put_trailer(&mut v, n, n + 16, count);
    let end = n + 16;
    recipe::check(&v[..end])
}

// One setpoint of two bytes, with other numbers in the trailer.
fn with_trailer(distance: u8, count: u8, format: u8) -> bool {
    recipe::check(&[
        0, 1, distance, 0, 0, 0, count, 0, format, 0, 7, 0, 0, 0, 0, 0, 0, 0,
    ])
}

fn numbers(out: Stdout) -> io::Result<()> {
    say(out, b"zigzag 39,999", with_four(0, 0xBF, 0xB8, 2))?;
    say(out, b"zigzag 40,000", with_four(0, 0xC0, 0xB8, 2))?;
    say(out, b"zigzag 40,001", with_four(0, 0xC1, 0xB8, 2))?;
    say(out, b"zigzag 40,002", with_four(0, 0xC2, 0xB8, 2))?;
    say(out, b"turn 1,000,000", with_four(0xC0, 0x84, 0x3D, 1))?;
    say(out, b"turn 1,000,001", with_four(0xC1, 0x84, 0x3D, 1))?;
    say(out, b"turns 5, 6", with_two(5, 1, 6, 1))?;
    say(out, b"turns 5, 5", with_two(5, 1, 5, 1))?;
    say(out, b"turns 6, 5", with_two(6, 1, 5, 1))?;
    say(out, b"turn 0 as 80 80 00", with_four(0x80, 0x80, 0, 1))?;
    say(out, b"trim -1 as 81 80 00", with_four(0, 0x81, 0x80, 0))?;
    say(out, b"trim without an end", with_four(0, 0x81, 0x80, 0x80))
}

fn leaps(out: Stdout) -> io::Result<()> {
    say(out, b"trims 0, 5,000", with_list(&[0, 0, 1, 0x90, 0x4E], 2))?;
    say(out, b"trims 0, 5,001", with_list(&[0, 0, 1, 0x92, 0x4E], 2))?;
    say(
        out,
        b"trims 0, -5,000",
        with_list(&[0, 0, 1, 0x8F, 0x4E], 2),
    )?;
    say(
        out,
        b"trims 0, -5,001",
        with_list(&[0, 0, 1, 0x91, 0x4E], 2),
    )?;
    say(
        out,
        b"trims -2,500, 2,500",
        with_list(&[0, 0x87, 0x27, 1, 0x88, 0x27], 2),
    )?;
    say(
        out,
        b"trims -2,500, 2,501",
        with_list(&[0, 0x87, 0x27, 1, 0x8A, 0x27], 2),
    )?;
    say(
        out,
        b"trims 2,501, -2,500",
        with_list(&[0, 0x8A, 0x27, 1, 0x87, 0x27], 2),
    )?;
    say(
        out,
        b"trims -20,000, 20,000",
        with_list(&[0, 0xBF, 0xB8, 2, 1, 0xC0, 0xB8, 2], 2),
    )?;
    say(
        out,
        b"trims 0, 5,001 at turns 0, 1,000,000",
        with_list(&[0, 0, 0xC0, 0x84, 0x3D, 0x92, 0x4E], 2),
    )?;
    say(
        out,
        b"trims 0, 5,000, 10,000",
        with_list(&[0, 0, 1, 0x90, 0x4E, 2, 0xA0, 0x9C, 1], 3),
    )?;
    say(
        out,
        b"trims 0, 5,000, -1",
        with_list(&[0, 0, 1, 0x90, 0x4E, 2, 1], 3),
    )
}

fn trailers(out: Stdout) -> io::Result<()> {
    say(
        out,
        b"distance 18, count 1, format 1",
        with_trailer(18, 1, 1),
    )?;
    say(out, b"distance 19", with_trailer(19, 1, 1))?;
    say(out, b"distance 17", with_trailer(17, 1, 1))?;
    say(out, b"distance 15", with_trailer(15, 1, 1))?;
    say(
        out,
        b"distance 16, count 0, a note of two bytes",
        with_trailer(16, 0, 1),
    )?;
    say(out, b"count 0 with bytes left over", with_trailer(18, 0, 1))?;
    say(out, b"count 2 with bytes for one", with_trailer(18, 2, 1))?;
    say(out, b"format 0", with_trailer(18, 1, 0))?;
    say(out, b"format 2", with_trailer(18, 1, 2))
}

// The worked bytes of format 2, core (0, 0) and wrap (0, -1), with other numbers in the trailer.
fn with_spools(far: u8, count: u8, pad: u8, near: u8, format: u8) -> bool {
    let mut v = [0u8; 28];
    octets::copy(&mut v, 3, &[1, far]);
    octets::copy(
        &mut v,
        8,
        &[count, 0, 0, pad, near, 0, 0, 0, 1, 0, format, 0, 7],
    );
    recipe::check(&v)
}

fn formats(out: Stdout) -> io::Result<()> {
    say(
        out,
        b"format 2: core and wrap",
        with_spools(28, 1, 0, 26, 2),
    )?;
    say(out, b"format 3", with_spools(28, 1, 0, 26, 3))?;
    say(out, b"a zero byte that is 1", with_spools(28, 1, 1, 26, 2))?;
    say(out, b"distance 23", with_spools(28, 1, 0, 23, 2))?;
    say(
        out,
        b"second distance 29 of 28",
        with_spools(29, 1, 0, 26, 2),
    )?;
    say(
        out,
        b"second distance under the first",
        with_spools(25, 1, 0, 26, 2),
    )?;
    say(out, b"the same with count 0", with_spools(25, 0, 0, 26, 2))?;
    say(out, b"an empty core", with_spools(26, 0, 0, 26, 2))
}

// The shortest values of format 2, and one that is too short for its trailer.
fn shortest(out: Stdout) -> io::Result<()> {
    say(
        out,
        b"24 bytes of format 2",
        recipe::check(&[
            24, 0, 0, 0, 0, 0, 0, 0, 24, 0, 0, 0, 0, 0, 2, 0, 5, 0, 0, 0, 0, 0, 0, 0,
        ]),
    )?;
    say(
        out,
        b"16 bytes of format 2",
        recipe::check(&[16, 0, 0, 0, 0, 0, 2, 0, 5, 0, 0, 0, 0, 0, 0, 0]),
    )
}

// Written: two setpoints to each list, the core's trims as given.
fn write_with(buf: &mut [u8], format: usize, before: i32, trim: i32) -> Result<usize, Breach> {
    recipe_fields::write(
        buf,
        format,
        b"G",
        &[0u32, 300],
        &[20000i32, 15000],
        &[5u32, 1000000],
        &[before, trim],
        7,
    )
}

// Whether so many bytes are written that are a recipe.
fn is_written(buf: &mut [u8], format: usize, before: i32, trim: i32, length: usize) -> bool {
    match write_with(buf, format, before, trim) {
        Ok(n) => n == length,
        Err(_) => false,
    }
}

// Whether the writer names a rule, a part and a setpoint, by their numbers.
fn is_refused(
    format: usize,
    before: i32,
    trim: i32,
    rule: usize,
    part: usize,
    setpoint: usize,
) -> bool {
    let mut buf = [0u8; 0];
    match write_with(&mut buf, format, before, trim) {
        Ok(_) => false,
        Err(w) => is_fault(w, rule, part, setpoint),
    }
}

fn is_fault(w: Breach, rule: usize, part: usize, setpoint: usize) -> bool {
    recipe::rule_number(w.rule) == rule
        && recipe::part_number(w.part) == part
        && w.setpoint == setpoint
}

fn writing(out: Stdout) -> io::Result<()> {
    let mut buf = [0u8; 44];
    ask(
        out,
        b"written in format 2",
        is_written(&mut buf, 2, -20000, -15000, 44),
    )?;
    say(out, b"what is written", recipe::check(&buf))?;
    let mut short = [0u8; 5];
    ask(
        out,
        b"told whole in five bytes",
        is_written(&mut short, 2, -20000, -15000, 44),
    )?;
    ask(
        out,
        b"rule 4: a core in format 1",
        is_refused(1, 0, 0, 4, 2, 0),
    )?;
    ask(out, b"rule 3: format 3", is_refused(3, 0, 0, 3, 0, 0))?;
    ask(
        out,
        b"rule 12: trim 20,001",
        is_refused(2, 0, 20001, 12, 2, 1),
    )?;
    ask(
        out,
        b"rule 13: a leap in the core",
        is_refused(2, -20000, -14999, 13, 2, 1),
    )
}

// The first trim of a recipe's core or wrap, as it is read; 7 where nothing is.
fn first_trim(value: &[u8], core: bool) -> i32 {
    let mut turns = [0u32; 2];
    let mut trims = [7i32; 2];
    recipe_fields::setpoints(value, core, &mut turns, &mut trims);
    trims[0]
}

fn reading(out: Stdout) -> io::Result<()> {
    let mut buf = [0u8; 44];
    let _ = write_with(&mut buf, 2, -20000, -15000);
    ask(
        out,
        b"a core from -20,000 on",
        first_trim(&buf, true) == -20000,
    )?;
    ask(
        out,
        b"a wrap from 20,000 on",
        first_trim(&buf, false) == 20000,
    )?;
    let mut part = [0u8; 43];
    let _ = write_with(&mut part, 2, -20000, -15000);
    ask(out, b"nothing of a part", first_trim(&part, true) == 7)
}

fn sizes(out: Stdout) -> io::Result<()> {
    say(out, b"count 0, distance 16, 16 bytes", with_points(0, 16))?;
    say(out, b"15 bytes", recipe::check(&[0u8; 15]))?;
    say(out, b"no bytes", recipe::check(&[0u8; 0]))?;
    say(out, b"400 setpoints", with_points(400, 1216))?;
    say(out, b"401 setpoints", with_points(401, 1219))?;
    say(out, b"3,072 bytes", with_points(400, 3072))?;
    say(out, b"3,073 bytes", with_points(400, 3073))
}

// A box of before request iii, which took 200 setpoints and 2,048 bytes, refuses these.
fn longer(out: Stdout) -> io::Result<()> {
    say(out, b"201 setpoints", with_points(201, 619))?;
    say(out, b"2,049 bytes", with_points(200, 2049))
}

fn main(rt: HostRuntime) -> io::Result<()> {
    let out = rt.stdout();
    numbers(out)?;
    leaps(out)?;
    trailers(out)?;
    formats(out)?;
    shortest(out)?;
    writing(out)?;
    reading(out)?;
    sizes(out)?;
    longer(out)
}
