#![tactic(auto)]
// The steps of a lookup on the bytes that a host lends, changed in place: nothing of a lookup's size is copied. flat_lookup has the layout, lookup what
// each step gives. Every public function takes any bytes.
ghost use Rattle.std.specs.Prelude.{◌≡◌, cond, ◌&&◌, map, [], ◌+◌, ◌<◌, ◌≤◌, length, get_or, take};
ghost use Rattle.std.proofs.lemmas.List.Edits.{sets};
ghost use Rattle.octets.specs.Octets.{part};
ghost use Rattle.limits.specs.Limits.{most_key, most_near};
ghost use Rattle.place.specs.Place.{nearer_to};
ghost use Rattle.lookup_marks.specs.Marks.{flying, failed};
ghost use Rattle.lookup_candidates.specs.Candidates.{mark_of, well_made, flies, lies_at};
ghost use Rattle.lookup.specs.Lookup.{room, limit_most, marks_of, nearest_first, in_form, mark, ends, settled, next_of, flyer_of, whom_of, with_candidates, turn_away, known, meet, hear, hear_all, heard_ids, heard_from, nobody, no_lookup, begun, limit_fits, start_of};
ghost use Rattle.lookup.specs.Inner.{beyond, rank_of};
ghost use Rattle.flat_lookup.specs.FlatLookup.{candidate_size, flat_size, lookup_in, candidate_bytes, head_bytes, lookup_bytes, candidate_at};
ghost use Rattle.lookup_in_place.specs.InPlace.{answers, outcome_of, is_refused, step_memory, next_in, failure_in, reply_in, start_in, start_memory};
ghost use Rattle.lookup_in_place.specs.Inner.{asked_of, joined, Becomes, opened, members_of};

use flat_lookup::{
    CANDIDATE, CANDIDATES_AT, COUNT_AT, ID_AT, KEY_AT, LEN_AT, LIMIT_AT, PLACE_AT, SIZE, SIZE_AT,
    TARGET_AT, TURNED_AT,
};
use lookup::{Answer, Candidate};
use lookup_marks::Ranks;
use message::Fields;
use refusal::Refusal;

// What a step answers beside the lookup: the answer and, where the lookup is over, the ranks of the nearest that answered.
#[derive(Drop)]
pub struct Outcome {
    pub found: Ranks,
    pub answer: Result<Answer, Refusal>,
}

// ---- the parts of a lookup

// The place that is looked for.
fn target_in(m: &[u8]) -> &[u8]
    requires { flat_size ≤ length m.now }
    ensures { result.now ≡ (lookup_in m.now).target }
{
    let e = TARGET_AT + limits::PLACE;
    &m[TARGET_AT..e]
}

// The mark of the candidate of rank i.
fn mark_at(m: &[u8], i: usize) -> u8
    requires { (flat_size ≤ length m.now) × (i < room) }
    ensures { result ≡ (candidate_at m.now i).mark }
{
    m[CANDIDATES_AT + i * CANDIDATE]
}

// The length of its id.
fn len_at(m: &[u8], i: usize) -> u8
    requires { (flat_size ≤ length m.now) × (i < room) }
    ensures { result ≡ (candidate_at m.now i).len }
{
    m[CANDIDATES_AT + i * CANDIDATE + LEN_AT]
}

// Its place.
fn place_at(m: &[u8], i: usize) -> &[u8]
    requires { (flat_size ≤ length m.now) × (i < room) }
    ensures { result.now ≡ (candidate_at m.now i).place }
{
    let a = CANDIDATES_AT + i * CANDIDATE + PLACE_AT;
    let e = a + limits::PLACE;
    &m[a..e]
}

// ---- form

// Whether the candidate of rank i has a mark and an id of 1 to 64 bytes.
fn well_made_at(m: &[u8], i: usize) -> bool
    requires { (flat_size ≤ length m.now) × (i < room) }
    ensures { result ≡ well_made (candidate_at m.now i) }
{
    let mark = mark_at(m, i);
    if mark > lookup_marks::FAILED {
        return false;
    }
    let len = len_at(m, i);
    if len < 1 {
        return false;
    }
    len as usize <= limits::MOST_ID
}

// Whether the candidate after rank i may stand there.
fn follows_at(m: &[u8], i: usize) -> bool
    requires { (flat_size ≤ length m.now) × (i + 1 < room) }
    ensures { result ≡ (well_made (candidate_at m.now (i + 1)) && nearer_to (lookup_in m.now).target (candidate_at m.now i).place (candidate_at m.now (i + 1)).place) }
{
    if !well_made_at(m, i + 1) {
        return false;
    }
    place::nearer(target_in(m), place_at(m, i), place_at(m, i + 1))
}

// Whether the first n candidates are well made and stand nearest first.
fn in_order(m: &[u8], n: usize) -> bool
    requires { (flat_size ≤ length m.now) × (n ≤ room) }
    ensures { result ≡ nearest_first (lookup_in m.now).target (take n (lookup_in m.now).candidates) }
{
    if n == 0 {
        return true;
    }
    if !well_made_at(m, 0) {
        return false;
    }
    for i in 0..n - 1 {
        if !follows_at(m, i) {
            return false;
        }
    }
    true
}

// Whether a lookup is in form.
fn in_form(m: &[u8]) -> bool
    requires { flat_size ≤ length m.now }
    ensures { result ≡ in_form (lookup_in m.now) }
{
    let size = flat_lookup::number(m, SIZE_AT);
    let limit = flat_lookup::number(m, LIMIT_AT);
    let n = flat_lookup::count_in(m);
    if size < 1 {
        return false;
    }
    if size > limits::MOST_KEY {
        return false;
    }
    if limit < 1 {
        return false;
    }
    if limit > lookup::LIMIT_MOST {
        return false;
    }
    if n > lookup::ROOM {
        return false;
    }
    in_order(m, n)
}

// ---- answers

// The marks of all candidates, side by side.
fn marks_in(m: &[u8]) -> [u8; lookup::ROOM]
    requires { flat_size ≤ length m.now }
    ensures { result ≡ map mark_of (lookup_in m.now).candidates }
{
    let mut marks = [0u8; lookup::ROOM];
    for i in 0..lookup::ROOM {
        let v = mark_at(m, i);
        marks[i] = v;
    }
    marks
}

// An answer with nobody found.
fn give(answer: Result<Answer, Refusal>) -> Outcome
    ensures { result ≡ answers answer }
{
    let at = [0usize; limits::MOST_NEAR];
    let found = Ranks { at, n: 0 };
    Outcome { found, answer }
}

// The answer of a lookup that is over.
fn end(m: &[u8], marks: &[u8]) -> Outcome
    requires { (flat_size ≤ length m.now) × (marks.now ≡ marks_of (lookup_in m.now)) }
    ensures { result ≡ outcome_of (ends (lookup_in m.now)) }
{
    let found = lookup_marks::twenty(marks);
    let sent = lookup_marks::sent(marks);
    if flat_lookup::turned_in(m) {
        return Outcome {
            found,
            answer: Ok(Answer::CutShort(sent)),
        };
    }
    Outcome {
        found,
        answer: Ok(Answer::Complete(sent)),
    }
}

// Over or going, after a start, a reply or a failure.
fn settle(m: &[u8]) -> Outcome
    requires { (flat_size ≤ length m.now) × ((lookup_in m.now).count ≤ room) }
    ensures { result ≡ outcome_of (settled (lookup_in m.now)) }
{
    let n = flat_lookup::count_in(m);
    let marks = marks_in(m);
    let held = &marks[..n];
    if lookup_marks::over(held) {
        return end(m, held);
    }
    give(Ok(Answer::Going))
}

// What the next step answers.
fn next_answer(m: &[u8]) -> Outcome
    requires { flat_size ≤ length m.now }
    ensures { result ≡ outcome_of (next_of (lookup_in m.now)) }
{
    if !in_form(m) {
        return give(Err(Refusal::OutOfForm));
    }
    let n = flat_lookup::count_in(m);
    let marks = marks_in(m);
    let held = &marks[..n];
    if lookup_marks::over(held) {
        return end(m, held);
    }
    let limit = flat_lookup::number(m, LIMIT_AT);
    if limit <= lookup_marks::in_flight(held) {
        return give(Ok(Answer::Wait));
    }
    let i = lookup_marks::idle(held);
    if i < n {
        return give(Ok(Answer::Ask(i)));
    }
    give(Ok(Answer::Wait))
}

// Whether the candidate of rank i lies at this place and is in flight.
fn flies_at(m: &[u8], i: usize, place: &[u8]) -> bool
    requires { (flat_size ≤ length m.now) × (i < room) }
    ensures { result ≡ flies place.now (candidate_at m.now i) }
{
    let mark = mark_at(m, i);
    if mark != lookup_marks::IN_FLIGHT {
        return false;
    }
    octets::same_bytes(place_at(m, i), place)
}

// The rank of the candidate in flight at this place, or n.
fn flyer(m: &[u8], n: usize, place: &[u8]) -> usize
    requires { (flat_size ≤ length m.now) × (n ≤ room) }
    ensures { result ≡ flyer_of place.now (take n (lookup_in m.now).candidates) }
{
    for i in 0..n {
        if flies_at(m, i, place) {
            return i;
        }
    }
    n
}

// Whom a report on the peer with this id is about. The box's own id and place come with it.
fn about(m: &[u8], own: &[u8], ours: [u8; 32], id: &[u8]) -> Result<usize, Refusal>
    requires { flat_size ≤ length m.now }
    ensures { result ≡ whom_of (lookup_in m.now) own.now ours id.now }
{
    if !in_form(m) {
        return Err(Refusal::OutOfForm);
    }
    if !lookup_candidates::id_fits(own) {
        return Err(Refusal::BadPeer);
    }
    if !lookup_candidates::id_fits(id) {
        return Err(Refusal::BadPeer);
    }
    let place = sha256::hash(id);
    if octets::same_bytes(&place, &ours) {
        return Err(Refusal::BadPeer);
    }
    let n = flat_lookup::count_in(m);
    let marks = marks_in(m);
    let held = &marks[..n];
    if lookup_marks::over(held) {
        return Err(Refusal::LookupOver);
    }
    let i = flyer(m, n, &place);
    if n <= i {
        return Err(Refusal::NotInFlight);
    }
    Ok(i)
}

// ---- changes

// A flag as a byte.
fn flag(b: bool) -> u8
    ensures { result ≡ cond b 1 0 }
{
    if b {
        return 1;
    }
    0
}

// The bytes as the lookup that they stand for is written: a byte that says yes is 1, and those that say nothing are 0.
fn tidy(m: &mut [u8])
    requires { flat_size ≤ length m.old }
    ensures { m.new ≡ sets m.old 0 (lookup_bytes (lookup_in m.old)) }
{
    let numbers = [flag(flat_lookup::turned_in(m)), 0, 0, 0];
    octets::copy(m, TURNED_AT, &numbers);
}

// The candidate of rank i gets the mark v.
fn set_mark(m: &mut [u8], i: usize, v: u8)
    requires { (flat_size ≤ length m.old) × (i < room) }
    ensures { Becomes (mark i v (lookup_in m.old)) m.old m.new }
{
    m[CANDIDATES_AT + i * CANDIDATE] = v;
}

// The peer of rank i is asked.
fn ask(m: &mut [u8], i: usize)
    requires { (flat_size ≤ length m.old) × (i < room) }
    ensures { m.new ≡ sets m.old 0 (lookup_bytes (mark i flying (lookup_in m.old))) }
{
    set_mark(m, i, lookup_marks::IN_FLIGHT);
    tidy(m);
}

// Whether an answer is a refusal.
pub fn is_refused(a: Result<Answer, Refusal>) -> bool
    ensures { result ≡ is_refused a }
{
    match a {
        Err(_) => true,
        Ok(Answer::Complete(_)) => false,
        Ok(Answer::CutShort(_)) => false,
        Ok(Answer::Wait) => false,
        Ok(Answer::Ask(_)) => false,
        Ok(Answer::Going) => false,
    }
}

// The rank of the peer to ask, or 256.
fn asked(a: Result<Answer, Refusal>) -> usize
    ensures { result ≡ asked_of a }
{
    match a {
        Err(_) => lookup::ROOM,
        Ok(Answer::Complete(_)) => lookup::ROOM,
        Ok(Answer::CutShort(_)) => lookup::ROOM,
        Ok(Answer::Wait) => lookup::ROOM,
        Ok(Answer::Ask(i)) => i,
        Ok(Answer::Going) => lookup::ROOM,
    }
}

// What a next step with this answer leaves.
fn keep_next(m: &mut [u8], answer: Result<Answer, Refusal>)
    requires { (flat_size ≤ length m.old) × (answer ≡ (next_of (lookup_in m.old)).answer) }
    ensures { m.new ≡ step_memory m.old (next_of (lookup_in m.old)) }
{
    if is_refused(answer) {
        return;
    }
    let i = asked(answer);
    if i < lookup::ROOM {
        ask(m, i);
        return;
    }
    tidy(m);
}

// Over or going, and the bytes tidied.
fn finish(m: &mut [u8]) -> Outcome
    requires { (flat_size ≤ length m.old) × ((lookup_in m.old).count ≤ room) }
    ensures { (result ≡ outcome_of (settled (lookup_in m.old))) × (m.new ≡ sets m.old 0 (lookup_bytes (lookup_in m.old))) }
{
    let said = settle(m);
    tidy(m);
    said
}

// The peer of rank i has failed for good.
fn fail(m: &mut [u8], i: usize) -> Outcome
    requires { (flat_size ≤ length m.old) × (i < room) × ((lookup_in m.old).count ≤ room) }
    ensures { (result ≡ outcome_of (settled (mark i failed (lookup_in m.old)))) × (m.new ≡ sets m.old 0 (lookup_bytes (mark i failed (lookup_in m.old)))) }
{
    set_mark(m, i, lookup_marks::FAILED);
    finish(m)
}

// ---- hearing of a peer

// Whether the candidate of rank i lies at this place.
fn lies_at(m: &[u8], i: usize, place: &[u8]) -> bool
    requires { (flat_size ≤ length m.now) × (i < room) }
    ensures { result ≡ lies_at place.now (candidate_at m.now i) }
{
    octets::same_bytes(place_at(m, i), place)
}

// Whether one of the first n candidates does.
fn is_known(m: &[u8], n: usize, place: &[u8]) -> bool
    requires { (flat_size ≤ length m.now) × (n ≤ room) }
    ensures { result ≡ known place.now (take n (lookup_in m.now).candidates) }
{
    for i in 0..n {
        if lies_at(m, i, place) {
            return true;
        }
    }
    false
}

// Whether the candidate of rank i is no nearer than this place.
fn is_beyond(m: &[u8], i: usize, place: &[u8]) -> bool
    requires { (flat_size ≤ length m.now) × (i < room) }
    ensures { result ≡ beyond (lookup_in m.now).target place.now (candidate_at m.now i) }
{
    !place::nearer(target_in(m), place_at(m, i), place)
}

// How many of the first n candidates are nearer than this place, up to the first that isn't.
fn rank(m: &[u8], n: usize, place: &[u8]) -> usize
    requires { (flat_size ≤ length m.now) × (n ≤ room) }
    ensures { (result ≡ rank_of (lookup_in m.now).target place.now (take n (lookup_in m.now).candidates)) × (result ≤ n) }
{
    for i in 0..n {
        if is_beyond(m, i, place) {
            return i;
        }
    }
    n
}

// The bytes from a up to e move up by a candidate. Never inlined, since a reply would take more of the stack.
#[inline(never)]
fn make_gap(m: &mut [u8], a: usize, e: usize)
    requires { (a ≤ e) × (e + candidate_size ≤ length m.old) }
    ensures { m.new ≡ sets m.old (a + candidate_size) (part m.old a e) }
{
    m.copy_within(a..e, a + CANDIDATE);
}

// A candidate from a place on.
fn put_at(m: &mut [u8], at: usize, c: Candidate)
    requires { at ≤ flat_size }
    ensures { m.new ≡ sets m.old at (candidate_bytes c) }
{
    let id = c.id;
    let place = c.place;
    let numbers = [c.mark, c.len];
    octets::copy(m, at, &numbers);
    octets::copy(m, at + ID_AT, &id);
    octets::copy(m, at + PLACE_AT, &place);
}

// So many candidates there are now.
fn set_count(m: &mut [u8], n: usize)
    requires { (flat_size ≤ length m.old) × (n < 65536) }
    ensures { Becomes (with_candidates (lookup_in m.old) n (lookup_in m.old).candidates) m.old m.new }
{
    m[COUNT_AT] = (n % 256) as u8;
    m[COUNT_AT + 1] = (n / 256) as u8;
}

// Someone was turned away.
fn turn_away(m: &mut [u8])
    requires { flat_size ≤ length m.old }
    ensures { Becomes (turn_away (lookup_in m.old)) m.old m.new }
{
    m[TURNED_AT] = 1;
}

// Of n candidates those from rank r on move up, and c gets that rank.
fn come_in(m: &mut [u8], n: usize, r: usize, c: Candidate)
    requires { (flat_size ≤ length m.old) × (r ≤ n) × (n < room) }
    ensures { Becomes (joined (lookup_in m.old) n r c) m.old m.new }
{
    let a = CANDIDATES_AT + r * CANDIDATE;
    let e = CANDIDATES_AT + n * CANDIDATE;
    make_gap(m, a, e);
    put_at(m, a, c);
    set_count(m, n + 1);
}

// A peer is heard of.
fn meet_one(m: &mut [u8], c: Candidate)
    requires { (flat_size ≤ length m.old) × ((lookup_in m.old).count ≤ room) }
    ensures { Becomes (meet c (lookup_in m.old)) m.old m.new }
{
    let n = flat_lookup::count_in(m);
    let place = c.place;
    if is_known(m, n, &place) {
        return;
    }
    if n >= lookup::ROOM {
        turn_away(m);
        return;
    }
    let r = rank(m, n, &place);
    come_in(m, n, r, c);
}

// The peer with this id is, unless the id is bad or ours.
fn hear_one(m: &mut [u8], ours: [u8; 32], id: &[u8])
    requires { (flat_size ≤ length m.old) × ((lookup_in m.old).count ≤ room) }
    ensures { Becomes (hear ours id.now (lookup_in m.old)) m.old m.new }
{
    let c = lookup_candidates::arrival(ours, id);
    if c.len < 1 {
        return;
    }
    meet_one(m, c);
}

// The first 21 peers that a reply names are heard of, one after another.
fn hear_all(m: &mut [u8], ours: [u8; 32], body: &[u8])
    requires { (flat_size ≤ length m.old) × ((lookup_in m.old).count ≤ room) }
    ensures { Becomes (hear_all ours (heard_ids body.now) (lookup_in m.old)) m.old m.new }
{
    let ids = message::closer_ids(body);
    let at = ids.at;
    let end = ids.end;
    let n = ids.n;
    for i in 0..n {
        let a = at[i];
        let e = end[i];
        hear_one(m, ours, &body[a..e]);
    }
}

// What the lookup becomes by a message from the candidate of rank i.
fn hear_from(m: &mut [u8], i: usize, ours: [u8; 32], body: &[u8], kind: u64)
    requires { (flat_size ≤ length m.old) × (i < room) × ((lookup_in m.old).count ≤ room) }
    ensures { (Becomes (heard_from ours body.now kind (lookup_in m.old) i) m.old m.new) × ((lookup_in m.new).count ≤ room) }
{
    if kind == message::FIND_NODE {
        set_mark(m, i, lookup_marks::ANSWERED);
        hear_all(m, ours, body);
        return;
    }
    set_mark(m, i, lookup_marks::FAILED);
}

// A message from the candidate of rank i is heard, and then it is over or not.
fn hear_out(m: &mut [u8], i: usize, ours: [u8; 32], body: &[u8], kind: u64) -> Outcome
    requires { (flat_size ≤ length m.old) × (i < room) × ((lookup_in m.old).count ≤ room) }
    ensures { (result ≡ outcome_of (settled (heard_from ours body.now kind (lookup_in m.old) i))) × (m.new ≡ sets m.old 0 (lookup_bytes (heard_from ours body.now kind (lookup_in m.old) i))) }
{
    hear_from(m, i, ours, body, kind);
    finish(m)
}

// ---- a lookup begins

// What stands before the candidates of a lookup from which nobody was turned away.
fn put_head(
    m: &mut [u8],
    key: [u8; limits::MOST_KEY],
    target: [u8; 32],
    count: usize,
    size: usize,
    limit: usize,
)
    ensures { m.new ≡ sets m.old 0 (head_bytes (opened key target count size limit [])) }
{
    let low = (count % 256) as u8;
    let high = (count / 256 % 256) as u8;
    let numbers = [
        low,
        high,
        (size % 256) as u8,
        (limit % 256) as u8,
        0,
        0,
        0,
        0,
    ];
    octets::copy(m, COUNT_AT, &numbers);
    octets::copy(m, KEY_AT, &key);
    octets::copy(m, TARGET_AT, &target);
}

// The contact in the slot at[i] of the table as a candidate, nobody from n on.
fn member(table: &[u8], at: [usize; limits::MOST_NEAR], n: usize, i: usize) -> Candidate
    requires { (n ≤ most_near) × (i < room) }
    ensures { result ≡ get_or (members_of table.now at n) i nobody }
{
    if i < n {
        return lookup_candidates::contact(table, at[i]);
    }
    lookup_candidates::no_candidate()
}

// All of such a lookup: its candidates are the contacts in the first n of these slots, and nobody stands after them.
fn put_lookup(
    m: &mut [u8],
    key: [u8; limits::MOST_KEY],
    target: [u8; 32],
    size: usize,
    limit: usize,
    table: &[u8],
    at: [usize; limits::MOST_NEAR],
    n: usize,
)
    requires { n ≤ most_near }
    ensures { m.new ≡ sets m.old 0 (lookup_bytes (opened key target n size limit (members_of table.now at n))) }
{
    put_head(m, key, target, n, size, limit);
    for i in 0..lookup::ROOM {
        put_at(m, CANDIDATES_AT + i * CANDIDATE, member(table, at, n, i));
    }
}

// A lookup with the nearest of the contacts that aren't doubtful as candidates.
fn begin(m: &mut [u8], table: &[u8], key: &[u8], limit: usize)
    requires { (flat_size ≤ length m.old) × (length key.now ≤ most_key) × (limit ≤ limit_most) }
    ensures { (m.new ≡ sets m.old 0 (lookup_bytes (begun table.now key.now limit))) × (lookup_in m.new ≡ begun table.now key.now limit) }
{
    let target = sha256::hash(key);
    let near = contacts::nearest(table, &target);
    let at = near.at;
    let n = near.n;
    let mut kept = [0u8; limits::MOST_KEY];
    octets::copy(&mut kept, 0, key);
    put_lookup(m, kept, target, key.len(), limit, table, at, n);
}

// The lookup that a refused start leaves, and its answer.
fn refuse(m: &mut [u8], r: Refusal) -> Outcome
    ensures { (result ≡ answers (Err r)) × (m.new ≡ sets m.old 0 (lookup_bytes no_lookup)) }
{
    let at = [0usize; limits::MOST_NEAR];
    let key = [0u8; limits::MOST_KEY];
    let target = [0u8; 32];
    put_lookup(m, key, target, 0, 0, &key, at, 0);
    give(Err(r))
}

// Whether so many requests may be in flight.
fn limit_fits(limit: usize) -> bool
    ensures { result ≡ limit_fits limit }
{
    if limit < 1 {
        return false;
    }
    limit <= lookup::LIMIT_MOST
}

// ---- the steps

// A lookup of a key starts from the table of contacts. The box's own id and place come with it.
pub fn start(
    m: &mut [u8],
    table: &[u8],
    own: &[u8],
    ours: [u8; 32],
    key: &[u8],
    limit: usize,
) -> Outcome
    ensures { (result ≡ outcome_of (start_in m.old table.now own.now ours key.now limit)) × (m.new ≡ start_memory m.old (start_of table.now own.now ours key.now limit)) }
{
    if m.len() < SIZE {
        return give(Err(Refusal::OutOfForm));
    }
    if !contacts::in_form(table, &ours) {
        return refuse(m, Refusal::OutOfForm);
    }
    if !message::key_fits(key) {
        return refuse(m, Refusal::BreaksRules);
    }
    if !lookup_candidates::id_fits(own) {
        return refuse(m, Refusal::BadPeer);
    }
    if !limit_fits(limit) {
        return refuse(m, Refusal::BadConcurrency);
    }
    begin(m, table, key, limit);
    settle(m)
}

// The next step: over, wait, or whom to ask, who is then in flight.
pub fn next(m: &mut [u8]) -> Outcome
    ensures { (result ≡ outcome_of (next_in m.old)) × (m.new ≡ step_memory m.old (next_in m.old)) }
{
    if m.len() < SIZE {
        return give(Err(Refusal::OutOfForm));
    }
    let said = next_answer(m);
    let answer = said.answer;
    keep_next(m, answer);
    said
}

// The peer with this id did not answer, or not as it should: it has failed for good.
pub fn failure(m: &mut [u8], own: &[u8], ours: [u8; 32], id: &[u8]) -> Outcome
    ensures { (result ≡ outcome_of (failure_in m.old own.now ours id.now)) × (m.new ≡ step_memory m.old (failure_in m.old own.now ours id.now)) }
{
    if m.len() < SIZE {
        return give(Err(Refusal::OutOfForm));
    }
    let w = about(m, own, ours, id);
    match w {
        Err(r) => give(Err(r)),
        Ok(i) => fail(m, i),
    }
}

// A message that the peer with this id sent: the view is the reader's, of the body.
pub fn reply(
    m: &mut [u8],
    own: &[u8],
    ours: [u8; 32],
    id: &[u8],
    body: &[u8],
    view: Fields,
) -> Outcome
    ensures { (result ≡ outcome_of (reply_in m.old own.now ours id.now body.now view)) × (m.new ≡ step_memory m.old (reply_in m.old own.now ours id.now body.now view)) }
{
    if m.len() < SIZE {
        return give(Err(Refusal::OutOfForm));
    }
    if !parts::is_view(body, view) {
        return give(Err(Refusal::OutOfForm));
    }
    let w = about(m, own, ours, id);
    match w {
        Err(r) => give(Err(r)),
        Ok(i) => hear_out(m, i, ours, body, view.kind),
    }
}
