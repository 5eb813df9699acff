#![tactic(auto)]
// The marks of a lookup's candidates, a byte each, nearest first: what is over, and whom to ask. Every function takes any bytes.
ghost use Rattle.std.specs.Prelude.{◌≡◌, length};
ghost use Rattle.octets.specs.Search.{count};
ghost use Rattle.lookup_marks.specs.Marks.{marked, is_over, idle_of, flights_of, sent_of, twenty_of, ranks_of};

pub const IDLE: u8 = 0;

pub const IN_FLIGHT: u8 = 1;

pub const ANSWERED: u8 = 2;

pub const FAILED: u8 = 3;

// Up to twenty ranks, in order, zeros after them.
#[derive(Clone, Copy)]
pub struct Ranks {
    pub at: [usize; limits::MOST_NEAR],
    pub n: usize,
}

// Whether all of the 20 nearest that have not failed have answered.
pub fn over(marks: &[u8]) -> bool
    ensures { result ≡ is_over marks.now }
{
    let mut left: usize = limits::MOST_NEAR;
    for m in marks {
        if left == 0 {
            return true;
        }
        if *m != FAILED {
            if *m != ANSWERED {
                return false;
            }
            left -= 1;
        }
    }
    true
}

// The rank of the nearest idle one among those 20, or how many there are where none is idle.
pub fn idle(marks: &[u8]) -> usize
    ensures { result ≡ idle_of marks.now }
{
    let n = marks.len();
    let mut left: usize = limits::MOST_NEAR;
    for (i, m) in marks.iter().enumerate() {
        if left == 0 {
            return n;
        }
        if *m == IDLE {
            return i;
        }
        if *m != FAILED {
            left -= 1;
        }
    }
    n
}

// How many have this mark.
fn with_mark(marks: &[u8], mark: u8) -> usize
    ensures { result ≡ count (length marks.now) (marked mark marks.now) }
{
    let mut n: usize = 0;
    for m in marks {
        if *m == mark {
            n += 1;
        }
    }
    n
}

// How many are in flight.
pub fn in_flight(marks: &[u8]) -> usize
    ensures { result ≡ flights_of marks.now }
{
    with_mark(marks, IN_FLIGHT)
}

// How many are no longer idle: the requests sent.
pub fn sent(marks: &[u8]) -> usize
    ensures { result ≡ sent_of marks.now }
{
    marks.len() - with_mark(marks, IDLE)
}

// The ranks of the 20 nearest that have not failed.
pub fn twenty(marks: &[u8]) -> Ranks
    ensures { result ≡ ranks_of (twenty_of marks.now) }
{
    let mut at = [0usize; limits::MOST_NEAR];
    let mut n: usize = 0;
    for i in 0..marks.len() {
        if n == limits::MOST_NEAR {
            return Ranks { at, n };
        }
        let m = marks[i];
        if m != FAILED {
            at[n] = i;
            n += 1;
        }
    }
    Ranks { at, n }
}
