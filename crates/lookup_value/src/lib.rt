#![tactic(auto)]
// A lookup by value: each step takes it in and hands the next one back. The value is the bytes that a lookup is kept as, and a step is that of
// lookup_in_place on a copy of them. Every function takes any numbers and any bytes.
ghost use Rattle.lookup.specs.Lookup.{start_of, next_of, reply_of, failure_of};
ghost use Rattle.lookup_value.specs.Value.{lookup_of, Starts, Gives};

use lookup::Answer;
use lookup_marks::Ranks;
use message::Fields;
use refusal::Refusal;

#[derive(Clone, Copy)]
pub struct Lookup {
    pub bytes: [u8; 25256],
}

// A step's outcome: the lookup to go on with, the answer and, where it is over, the ranks of the nearest that answered.
#[derive(Drop)]
pub struct Step {
    pub lookup: Lookup,
    pub found: Ranks,
    pub answer: Result<Answer, Refusal>,
}

impl Lookup {
    // A lookup of a key starts from the table of contacts. The box's own id and place come with it.
    pub fn start(table: &[u8], own: &[u8], ours: [u8; 32], key: &[u8], limit: usize) -> Step
        ensures { Starts (start_of table.now own.now ours key.now limit) result }
    {
        let mut bytes = [0u8; flat_lookup::SIZE];
        let o = lookup_in_place::start(&mut bytes, table, own, ours, key, limit);
        let found = o.found;
        let answer = o.answer;
        let lookup = Lookup { bytes };
        Step {
            lookup,
            found,
            answer,
        }
    }

    // The next step: over, wait, or whom to ask, who is then in flight.
    pub fn next(self) -> Step
        ensures { Gives self (next_of (lookup_of self)) result }
    {
        let mut bytes = self.bytes;
        let o = lookup_in_place::next(&mut bytes);
        let found = o.found;
        let answer = o.answer;
        let lookup = Lookup { bytes };
        Step {
            lookup,
            found,
            answer,
        }
    }

    // The peer with this id did not answer, or not as it should: it has failed for good.
    pub fn failure(self, own: &[u8], ours: [u8; 32], id: &[u8]) -> Step
        ensures { Gives self (failure_of (lookup_of self) own.now ours id.now) result }
    {
        let mut bytes = self.bytes;
        let o = lookup_in_place::failure(&mut bytes, own, ours, id);
        let found = o.found;
        let answer = o.answer;
        let lookup = Lookup { bytes };
        Step {
            lookup,
            found,
            answer,
        }
    }

    // A message that the peer with this id sent: the view is the reader's, of the body.
    pub fn reply(self, own: &[u8], ours: [u8; 32], id: &[u8], body: &[u8], view: Fields) -> Step
        ensures { Gives self (reply_of (lookup_of self) own.now ours id.now body.now view) result }
    {
        let mut bytes = self.bytes;
        let o = lookup_in_place::reply(&mut bytes, own, ours, id, body, view);
        let found = o.found;
        let answer = o.answer;
        let lookup = Lookup { bytes };
        Step {
            lookup,
            found,
            answer,
        }
    }
}
