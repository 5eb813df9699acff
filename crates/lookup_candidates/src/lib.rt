#![tactic(auto)]
// Candidates of a lookup, by value: how one comes in. Every public function takes any numbers and any bytes.
ghost use Rattle.std.specs.Prelude.{◌≡◌, ◌≤◌, length};
ghost use Rattle.limits.specs.Limits.{most_id};
ghost use Rattle.lookup_candidates.specs.Candidates.{arrival_of, fresh, nobody, contact_at};

pub use peer::id_fits;

// A peer that was heard of: its mark is one of lookup_marks.
#[derive(Drop)]
pub struct Candidate {
    pub id: [u8; limits::MOST_ID],
    pub place: [u8; limits::PLACE],
    pub mark: u8,
    pub len: u8,
}

// A candidate as it comes in: idle.
fn newcomer(id: &[u8]) -> Candidate
    requires { length id.now ≤ most_id }
    ensures { result ≡ fresh id.now }
{
    let place = sha256::hash(id);
    let len = id.len() as u8;
    let mut kept = [0u8; limits::MOST_ID];
    octets::copy(&mut kept, 0, id);
    Candidate {
        id: kept,
        place,
        mark: lookup_marks::IDLE,
        len,
    }
}

// No candidate.
pub fn no_candidate() -> Candidate
    ensures { result ≡ nobody }
{
    let id = [0u8; limits::MOST_ID];
    let place = [0u8; 32];
    Candidate {
        id,
        place,
        mark: lookup_marks::IDLE,
        len: 0,
    }
}

// The peer with this id as a candidate; a bad id and our own give nobody.
pub fn arrival(ours: [u8; 32], id: &[u8]) -> Candidate
    ensures { result ≡ arrival_of ours id.now }
{
    if !id_fits(id) {
        return no_candidate();
    }
    let c = newcomer(id);
    let place = c.place;
    if octets::same_bytes(&place, &ours) {
        return no_candidate();
    }
    c
}

// Slot i of the table of contacts as a candidate.
pub fn contact(table: &[u8], i: usize) -> Candidate
    ensures { result ≡ contact_at table.now i }
{
    let id = contacts::id_of(table, i);
    let len = id.len() as u8;
    let mut kept = [0u8; limits::MOST_ID];
    octets::copy(&mut kept, 0, id);
    let mut place = [0u8; 32];
    octets::copy(&mut place, 0, contacts::place_of(table, i));
    let mark = lookup_marks::IDLE;
    Candidate {
        id: kept,
        place,
        mark,
        len,
    }
}
