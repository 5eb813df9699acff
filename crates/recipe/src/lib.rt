#![tactic(auto)]
// A recipe: a note, one or two lists of setpoints and a trailer, read from its end.
ghost use Rattle.std.specs.Prelude.{◌≡◌, ◌+◌, ◌*◌, ◌-◌, ◌<◌, ◌≤◌, ◌^◌, length, drop, is_ok};
ghost use Rattle.octets.specs.Octets.{little_number};
ghost use Rattle.recipe.specs.Recipe.{trim_of, zigzag_of, varint, no_leap, from_end, distance_of, count_of, format_of, sequence_of, trailer_of, core_distance_of, core_count_of, pad_of, is_recipe, outranks};
ghost use Rattle.recipe.specs.Faults.{rule_number, part_number, broken, rises, trim_in, stays, setpoint_fault, bytes_fault, list_fault, lists_fault, is_known, fault_of};
ghost use Rattle.recipe.specs.Inner.{short, short_point};

// The limits of a recipe alone; specs/Limits.antt has the same.
pub const TRAILER: usize = 16;

pub const LONG_TRAILER: usize = 24;

pub const FORMAT_ONE: usize = 1;

pub const FORMAT_TWO: usize = 2;

pub const TURN_MAX: u32 = 1000000;

pub const TRIM_MAX: i32 = 20000;

pub const LEAP_MAX: i64 = 5000;

// From the zigzag form to a trim.
pub fn trim_of(z: u32) -> i32
    ensures { result ≡ trim_of z }
{
    let h = (z / 2) as i32;
    if z % 2 == 0 {
        return h;
    }
    -1 - h
}

// From a trim to its zigzag form.
pub fn zigzag_of(t: i32) -> u32
    ensures { result ≡ zigzag_of t }
{
    if t < 0 {
        let h = (-1 - t) as u32;
        return h * 2 + 1;
    }
    let h = t as u32;
    h * 2
}

fn wide(x: u8) -> u32
    ensures { (result ≡ x) × (result < 256) }
{
    x as u32
}

// A minimal varint of at most three bytes: its value, and its size in bytes. No turn and no trim within the limits has more.
fn short_varint(s: &[u8], at: usize) -> Option<(u32, usize)>
    ensures { result ≡ short (varint (drop at s.now)) }
{
    if s.len() <= at {
        return None;
    }
    let a = wide(s[at]);
    if a < 128 {
        return Some((a, 1));
    }
    if s.len() - at <= 1 {
        return None;
    }
    let b = wide(s[at + 1]);
    if b < 1 {
        return None;
    }
    if b < 128 {
        return Some((a - 128 + 128 * b, 2));
    }
    if s.len() - at <= 2 {
        return None;
    }
    let c = wide(s[at + 2]);
    if c < 1 {
        return None;
    }
    if c < 128 {
        return Some((a - 128 + 128 * (b - 128 + 128 * c), 3));
    }
    None
}

// A setpoint as it is read: its turn, its trim, and its size in bytes.
#[derive(Clone, Copy)]
pub struct Point {
    pub turn: u32,
    pub trim: i32,
    pub size: usize,
}

// The setpoint at a place: two minimal varints of at most three bytes each.
pub fn point_at(s: &[u8], at: usize) -> Option<Point>
    ensures { result ≡ short_point (drop at s.now) }
{
    let (turn, size) = short_varint(s, at)?;
    let (z, more) = short_varint(s, at + size)?;
    let trim = trim_of(z);
    Some(Point {
        turn,
        trim,
        size: size + more,
    })
}

// ---- the rules, and which of them is broken

// The rules, by what breaks them, each with its number.
#[derive(Clone, Copy)]
pub enum Rule {
    // fewer bytes than its trailer has
    TooShort,
    // over 3,072 bytes
    TooLong,
    // format not 1 or 2
    UnknownFormat,
    // a core in format 1
    CoreInFormatOne,
    // one of the two zero bytes of format 2 isn't zero
    PadNotZero,
    // the list begins before the value, or past its own end
    BadDistance,
    // over 400 setpoints in a list
    TooManySetpoints,
    // not as many trims as turns
    Unpaired,
    // its turn or its trim isn't a minimal varint of at most three bytes inside the list
    NoSetpoint,
    // turn over 1,000,000
    TurnTooHigh,
    // turn not higher than the one before
    TurnNotRising,
    // trim not from -20,000 to 20,000
    TrimOutOfRange,
    // trim more than 5,000 from the one before
    TrimLeaps,
    // bytes between the last setpoint and the list's end
    BytesLeft,
}

// A function and no `From`, here and for parts, since callers and clauses of other crates go by its contract, which says each number.
pub fn rule_number(rule: Rule) -> usize
    ensures { result ≡ rule_number rule }
{
    match rule {
        Rule::TooShort => 1,
        Rule::TooLong => 2,
        Rule::UnknownFormat => 3,
        Rule::CoreInFormatOne => 4,
        Rule::PadNotZero => 5,
        Rule::BadDistance => 6,
        Rule::TooManySetpoints => 7,
        Rule::Unpaired => 8,
        Rule::NoSetpoint => 9,
        Rule::TurnTooHigh => 10,
        Rule::TurnNotRising => 11,
        Rule::TrimOutOfRange => 12,
        Rule::TrimLeaps => 13,
        Rule::BytesLeft => 14,
    }
}

// What a rule is broken in: the value as a whole, or one of its lists.
#[derive(Clone, Copy)]
pub enum Part {
    Whole,
    Wrap,
    Core,
}

pub fn part_number(part: Part) -> usize
    ensures { result ≡ part_number part }
{
    match part {
        Part::Whole => 0,
        Part::Wrap => 1,
        Part::Core => 2,
    }
}

// The first rule that is broken: where, and at which setpoint, from 0, if it is a rule on one.
#[derive(Clone, Copy)]
pub struct Breach {
    pub rule: Rule,
    pub part: Part,
    pub setpoint: usize,
}

pub fn broken(rule: Rule, part: Part, setpoint: usize) -> Result<(), Breach>
    ensures { result ≡ broken rule part setpoint }
{
    Err(Breach {
        rule,
        part,
        setpoint,
    })
}

pub fn is_good(verdict: Result<(), Breach>) -> bool
    ensures { result ≡ is_ok verdict }
{
    verdict.is_ok()
}

// ---- a list of setpoints

// A turn and the trim from it on.
#[derive(Clone, Copy)]
pub struct Setpoint {
    pub turn: u32,
    pub trim: i32,
}

// Whether a turn may follow the setpoint before it, where there is one.
fn rises(p: Option<Setpoint>, turn: u32) -> bool
    ensures { result ≡ rises p turn }
{
    match p {
        None => true,
        Some(last) => last.turn < turn,
    }
}

fn in_range(trim: i32) -> bool
    ensures { result ≡ trim_in trim }
{
    if trim < -TRIM_MAX {
        return false;
    }
    trim <= TRIM_MAX
}

// Whether neighbouring trims differ by at most LEAP_MAX. In 64 bits, since the difference of two 32-bit numbers may need 33.
fn no_leap(a: i32, b: i32) -> bool
    ensures { result ≡ no_leap a b }
{
    let d = (a as i64) - (b as i64);
    if d < -LEAP_MAX {
        return false;
    }
    d <= LEAP_MAX
}

fn stays(p: Option<Setpoint>, trim: i32) -> bool
    ensures { result ≡ stays p trim }
{
    match p {
        None => true,
        Some(last) => no_leap(last.trim, trim),
    }
}

// A setpoint, the i-th of a list, after the one before it.
pub fn setpoint_fault(
    part: Part,
    i: usize,
    p: Option<Setpoint>,
    turn: u32,
    trim: i32,
) -> Result<(), Breach>
    ensures { result ≡ setpoint_fault part i p turn trim }
{
    if TURN_MAX < turn {
        return broken(Rule::TurnTooHigh, part, i);
    }
    if !rises(p, turn) {
        return broken(Rule::TurnNotRising, part, i);
    }
    if !in_range(trim) {
        return broken(Rule::TrimOutOfRange, part, i);
    }
    if !stays(p, trim) {
        return broken(Rule::TrimLeaps, part, i);
    }
    Ok(())
}

// So many setpoints, which have to fill a slice.
fn bytes_fault(part: Part, s: &[u8], count: usize) -> Result<(), Breach>
    ensures { result ≡ bytes_fault part 0 None count s.now }
{
    let mut prev = None;
    let mut at: usize = 0;
    for i in 0..count {
        let Some(Point { turn, trim, size }) = point_at(s, at) else {
            return broken(Rule::NoSetpoint, part, i);
        };
        setpoint_fault(part, i, prev, turn, trim)?;
        prev = Some(Setpoint { turn, trim });
        at += size;
    }
    if at == s.len() {
        return Ok(());
    }
    broken(Rule::BytesLeft, part, 0)
}

// ---- the trailer

// The number that up to eight bytes are, the lowest first.
fn little(s: &[u8]) -> u64
    requires { length s.now ≤ 8 }
    ensures { result ≡ little_number s.now }
{
    let mut n: u64 = 0;
    for b in s.iter().rev() {
        n = n * 256 + *b as u64;
    }
    n
}

// n less d, or 0.
fn back(n: usize, d: usize) -> usize
    ensures { result ≡ n - d }
{
    if n < d {
        return 0;
    }
    n - d
}

// The number that stands from d before a value's end up to e before it.
fn number_at(value: &[u8], d: usize, e: usize) -> u64
    requires { (e ≤ d) × (d ≤ e + 8) }
    ensures { result ≡ little_number (from_end d e value.now) }
{
    let n = value.len();
    let a = back(n, d);
    let b = back(n, e);
    little(&value[a..b])
}

// How far before a value's end its wrap begins.
pub fn distance(value: &[u8]) -> usize
    ensures { result ≡ distance_of value.now }
{
    number_at(value, 16, 12) as usize
}

// How many setpoints its wrap has.
pub fn count(value: &[u8]) -> usize
    ensures { result ≡ count_of value.now }
{
    number_at(value, 12, 10) as usize
}

pub fn format(value: &[u8]) -> usize
    ensures { result ≡ format_of value.now }
{
    number_at(value, 10, 8) as usize
}

// The sequence of a value: its last eight bytes, or all of them where there are fewer.
pub fn sequence(value: &[u8]) -> u64
    ensures { result ≡ sequence_of value.now }
{
    number_at(value, 8, 0)
}

// How many bytes a format's trailer has.
pub fn trailer_of(format: usize) -> usize
    ensures { result ≡ trailer_of format }
{
    if format == FORMAT_TWO {
        return LONG_TRAILER;
    }
    TRAILER
}

// How far before a value's end its core begins.
pub fn core_distance(value: &[u8]) -> usize
    ensures { result ≡ core_distance_of value.now }
{
    if format(value) == FORMAT_TWO {
        return number_at(value, 24, 20) as usize;
    }
    distance(value)
}

// How many setpoints its core has.
pub fn core_count(value: &[u8]) -> usize
    ensures { result ≡ core_count_of value.now }
{
    if format(value) == FORMAT_TWO {
        return number_at(value, 20, 18) as usize;
    }
    0
}

// The two bytes that must be zero.
fn pad(value: &[u8]) -> usize
    ensures { result ≡ pad_of value.now }
{
    if format(value) == FORMAT_TWO {
        return number_at(value, 18, 16) as usize;
    }
    0
}

// ---- a recipe

// A list of so many setpoints, from d before a value's end up to e before it.
fn list_fault(part: Part, value: &[u8], count: usize, d: usize, e: usize) -> Result<(), Breach>
    ensures { result ≡ list_fault part count d e value.now }
{
    let n = value.len();
    if d < e {
        return broken(Rule::BadDistance, part, 0);
    }
    if n < d {
        return broken(Rule::BadDistance, part, 0);
    }
    if limits::MOST_SETPOINTS < count {
        return broken(Rule::TooManySetpoints, part, 0);
    }
    let a = n - d;
    let b = n - e;
    bytes_fault(part, &value[a..b], count)
}

// The wrap, which ends at the trailer, and the core, which ends where the wrap begins.
fn lists_fault(value: &[u8], trailer: usize) -> Result<(), Breach>
    ensures { result ≡ lists_fault trailer value.now }
{
    let d = distance(value);
    list_fault(Part::Wrap, value, count(value), d, trailer)?;
    list_fault(
        Part::Core,
        value,
        core_count(value),
        core_distance(value),
        d,
    )
}

pub fn is_known(format: usize) -> bool
    ensures { result ≡ is_known format }
{
    if format == FORMAT_ONE {
        return true;
    }
    format == FORMAT_TWO
}

// Which rule a value breaks that is no recipe.
pub fn fault(value: &[u8]) -> Result<(), Breach>
    ensures { result ≡ fault_of value.now }
{
    let n = value.len();
    if n < TRAILER {
        return broken(Rule::TooShort, Part::Whole, 0);
    }
    if limits::MOST_VALUE < n {
        return broken(Rule::TooLong, Part::Whole, 0);
    }
    let f = format(value);
    if !is_known(f) {
        return broken(Rule::UnknownFormat, Part::Whole, 0);
    }
    let trailer = trailer_of(f);
    if n < trailer {
        return broken(Rule::TooShort, Part::Whole, 0);
    }
    if pad(value) != 0 {
        return broken(Rule::PadNotZero, Part::Whole, 0);
    }
    lists_fault(value, trailer)
}

// Whether a value is a recipe.
pub fn check(value: &[u8]) -> bool
    ensures { result ≡ is_recipe value.now }
{
    is_good(fault(value))
}

// Whether a ranks higher than b.
pub fn outranks(a: &[u8], b: &[u8]) -> bool
    ensures { result ≡ outranks a.now b.now }
{
    let x = sequence(a);
    let y = sequence(b);
    if y < x {
        return true;
    }
    if x < y {
        return false;
    }
    octets::lower_bytes(b, a)
}
