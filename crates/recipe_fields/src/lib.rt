#![tactic(auto)]
// The fields of a recipe: where they stand in its bytes, its setpoints as numbers, and its bytes from its fields.
ghost use Rattle.std.specs.Prelude.{◌≡◌, true, ◌*◌, ◌≤◌, length, set};
ghost use Rattle.std.proofs.lemmas.List.Edits.{sets};
ghost use Rattle.limits.specs.Limits.{most_setpoints};
ghost use Rattle.wire.specs.Items.{Put};
ghost use Rattle.recipe.specs.Recipe.{is_list, is_recipe};
ghost use Rattle.recipe.specs.Faults.{points_fault};
ghost use Rattle.recipe_fields.specs.Fields.{little_bytes, list_bytes, last_bytes, second_bytes};
ghost use Rattle.recipe_fields.specs.Places.{spans_of, turns_of, trims_of, points_in, turns_after, trims_after};
ghost use Rattle.recipe_fields.specs.Writing.{pairs, given, pairs_fault, core_fits, given_fault, trailer_bytes, written_of, after_of};

use recipe::{Breach, Part, Point, Rule, Setpoint};

// Where the fields of a recipe stand in its bytes: the note up to the core, the core up to the wrap, the wrap up to the trailer; and how many setpoints the lists have.
#[derive(Clone, Copy)]
pub struct Spans {
    pub format: usize,
    pub core: usize,
    pub wrap: usize,
    pub trailer: usize,
    pub cores: usize,
    pub wraps: usize,
    pub sequence: u64,
}

// ---- reading

// Where the fields stand, or which rule is broken.
pub fn read(value: &[u8]) -> Result<Spans, Breach>
    ensures { result ≡ spans_of value.now }
{
    recipe::fault(value)?;
    let n = value.len();
    let format = recipe::format(value);
    let core = n - recipe::core_distance(value);
    let wrap = n - recipe::distance(value);
    let trailer = n - recipe::trailer_of(format);
    let cores = recipe::core_count(value);
    let wraps = recipe::count(value);
    let sequence = recipe::sequence(value);
    Ok(Spans {
        format,
        core,
        wrap,
        trailer,
        cores,
        wraps,
        sequence,
    })
}

// One number into its place, if there is such a place.
fn set_turn(turns: &mut [u32], i: usize, turn: u32)
    ensures { turns.new ≡ set turns.old i turn }
{
    if turns.len() <= i {
        return;
    }
    turns[i] = turn;
}

fn set_trim(trims: &mut [i32], i: usize, trim: i32)
    ensures { trims.new ≡ set trims.old i trim }
{
    if trims.len() <= i {
        return;
    }
    trims[i] = trim;
}

// Takes so many setpoints out of a list that has them: each into its place, as far as the places go.
fn take_setpoints(s: &[u8], count: usize, turns: &mut [u32], trims: &mut [i32])
    requires { is_list count s.now ≡ true }
    ensures { (turns.new ≡ sets turns.old 0 (turns_of (points_in count s.now))) × (trims.new ≡ sets trims.old 0 (trims_of (points_in count s.now))) }
{
    let mut at: usize = 0;
    for i in 0..count {
        let Some(Point { turn, trim, size }) = recipe::point_at(s, at) else {
            return;
        };
        set_turn(turns, i, turn);
        set_trim(trims, i, trim);
        at += size;
    }
}

// The setpoints of a recipe's core or of its wrap, as many as fit; of what is no recipe, none. Whether it is one.
pub fn setpoints(value: &[u8], core: bool, turns: &mut [u32], trims: &mut [i32]) -> bool
    ensures { (result ≡ is_recipe value.now) × (turns.new ≡ turns_after value.now core turns.old) × (trims.new ≡ trims_after value.now core trims.old) }
{
    if !recipe::check(value) {
        return false;
    }
    let n = value.len();
    let wrap = n - recipe::distance(value);
    if core {
        let start = n - recipe::core_distance(value);
        let count = recipe::core_count(value);
        take_setpoints(&value[start..wrap], count, turns, trims);
        return true;
    }
    let end = n - recipe::trailer_of(recipe::format(value));
    let count = recipe::count(value);
    take_setpoints(&value[wrap..end], count, turns, trims);
    true
}

// ---- whether fields can be written

// The first rule that setpoints break, which are given as turns and trims.
fn points_fault(part: Part, turns: &[u32], trims: &[i32]) -> Result<(), Breach>
    requires { length turns.now ≡ length trims.now }
    ensures { result ≡ points_fault part 0 None (pairs turns.now trims.now) }
{
    let mut prev = None;
    for i in 0..turns.len() {
        let turn = turns[i];
        let trim = trims[i];
        recipe::setpoint_fault(part, i, prev, turn, trim)?;
        prev = Some(Setpoint { turn, trim });
    }
    Ok(())
}

fn pairs_fault(part: Part, turns: &[u32], trims: &[i32]) -> Result<(), Breach>
    ensures { result ≡ pairs_fault part turns.now trims.now }
{
    if turns.len() != trims.len() {
        return recipe::broken(Rule::Unpaired, part, 0);
    }
    if limits::MOST_SETPOINTS < turns.len() {
        return recipe::broken(Rule::TooManySetpoints, part, 0);
    }
    points_fault(part, turns, trims)
}

// Format 1 has no core.
fn core_fits(format: usize, turns: usize, trims: usize) -> bool
    ensures { result ≡ core_fits format turns trims }
{
    if format == recipe::FORMAT_TWO {
        return true;
    }
    if turns != 0 {
        return false;
    }
    trims == 0
}

// How many bytes a list has.
fn list_len(turns: &[u32], trims: &[i32]) -> usize
    requires { (length turns.now ≡ length trims.now) × (length turns.now ≤ most_setpoints) }
    ensures { (result ≡ length (list_bytes (pairs turns.now trims.now))) × (result ≤ most_setpoints * 20) }
{
    let mut n: usize = 0;
    for i in 0..turns.len() {
        let turn = turns[i] as u64;
        let trim = trims[i];
        let z = recipe::zigzag_of(trim) as u64;
        n += wire_put::varint_len(turn) + wire_put::varint_len(z);
    }
    n
}

// The first rule that fields break, of which no recipe has these.
fn given_fault(
    format: usize,
    note: &[u8],
    wrap_turns: &[u32],
    wrap_trims: &[i32],
    core_turns: &[u32],
    core_trims: &[i32],
) -> Result<(), Breach>
    ensures { result ≡ given_fault (given format note.now wrap_turns.now wrap_trims.now core_turns.now core_trims.now 0) }
{
    if !recipe::is_known(format) {
        return recipe::broken(Rule::UnknownFormat, Part::Whole, 0);
    }
    if !core_fits(format, core_turns.len(), core_trims.len()) {
        return recipe::broken(Rule::CoreInFormatOne, Part::Core, 0);
    }
    pairs_fault(Part::Wrap, wrap_turns, wrap_trims)?;
    pairs_fault(Part::Core, core_turns, core_trims)?;
    let lists = list_len(wrap_turns, wrap_trims) + list_len(core_turns, core_trims);
    if limits::MOST_VALUE < note.len() {
        return recipe::broken(Rule::TooLong, Part::Whole, 0);
    }
    if limits::MOST_VALUE < note.len() + recipe::trailer_of(format) + lists {
        return recipe::broken(Rule::TooLong, Part::Whole, 0);
    }
    Ok(())
}

// ---- writing

fn put_list(buf: &mut [u8], at: usize, turns: &[u32], trims: &[i32]) -> usize
    requires { length turns.now ≡ length trims.now }
    ensures { Put buf.old at (list_bytes (pairs turns.now trims.now)) buf.new result }
{
    let mut next = at;
    for i in 0..turns.len() {
        let turn = turns[i] as u64;
        let trim = trims[i];
        let z = recipe::zigzag_of(trim) as u64;
        next = wire_put::put_varint(buf, next, turn);
        next = wire_put::put_varint(buf, next, z);
    }
    next
}

// Writes the lowest n bytes of a number, the lowest first.
fn put_little(buf: &mut [u8], at: usize, x: u64, n: usize) -> usize
    ensures { Put buf.old at (little_bytes n x) buf.new result }
{
    let mut next = at;
    let mut rest = x;
    for _ in 0..n {
        let b = (rest % 256) as u8;
        next = wire_put::put_raw(buf, next, &[b]);
        rest /= 256;
    }
    next
}

fn put_last(
    buf: &mut [u8],
    at: usize,
    distance: u64,
    count: u64,
    format: u64,
    sequence: u64,
) -> usize
    ensures { Put buf.old at (last_bytes distance count format sequence) buf.new result }
{
    let a = put_little(buf, at, distance, 4);
    let b = put_little(buf, a, count, 2);
    let c = put_little(buf, b, format, 2);
    put_little(buf, c, sequence, 8)
}

fn put_second(buf: &mut [u8], at: usize, distance: u64, count: u64) -> usize
    ensures { Put buf.old at (second_bytes distance count) buf.new result }
{
    let a = put_little(buf, at, distance, 4);
    let b = put_little(buf, a, count, 2);
    put_little(buf, b, 0, 2)
}

// Writes a trailer: far and near are the distances back to the core and to the wrap.
fn put_trailer(
    buf: &mut [u8],
    at: usize,
    format: usize,
    far: usize,
    cores: usize,
    near: usize,
    wraps: usize,
    sequence: u64,
) -> usize
    ensures { Put buf.old at (trailer_bytes format far cores near wraps sequence) buf.new result }
{
    if format == recipe::FORMAT_TWO {
        let next = put_second(buf, at, far as u64, cores as u64);
        return put_last(
            buf,
            next,
            near as u64,
            wraps as u64,
            format as u64,
            sequence,
        );
    }
    put_last(buf, at, near as u64, wraps as u64, format as u64, sequence)
}

// Writes a recipe from its fields, and tells how many bytes it has, or which rule is broken. What would stand past the end of buf is left out, and the whole length is told; of fields that no
// recipe has, nothing is written.
pub fn write(
    buf: &mut [u8],
    format: usize,
    note: &[u8],
    wrap_turns: &[u32],
    wrap_trims: &[i32],
    core_turns: &[u32],
    core_trims: &[i32],
    sequence: u64,
) -> Result<usize, Breach>
    ensures { (result ≡ written_of (given format note.now wrap_turns.now wrap_trims.now core_turns.now core_trims.now sequence))
        × (buf.new ≡ after_of (given format note.now wrap_turns.now wrap_trims.now core_turns.now core_trims.now sequence) buf.old) }
{
    given_fault(format, note, wrap_turns, wrap_trims, core_turns, core_trims)?;
    let near = recipe::trailer_of(format) + list_len(wrap_turns, wrap_trims);
    let far = near + list_len(core_turns, core_trims);
    let a = wire_put::put_raw(buf, 0, note);
    let b = put_list(buf, a, core_turns, core_trims);
    let c = put_list(buf, b, wrap_turns, wrap_trims);
    put_trailer(
        buf,
        c,
        format,
        far,
        core_turns.len(),
        near,
        wrap_turns.len(),
        sequence,
    );
    Ok(note.len() + far)
}
