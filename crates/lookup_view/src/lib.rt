#![tactic(auto)]
// A reply handed to a lookup as a view.
ghost use Rattle.lookup.specs.Lookup.{reply_of};
ghost use Rattle.lookup_value.specs.Value.{lookup_of, Gives};

use lookup_value::{Lookup, Step};
use view::View;

// A message that the peer with this id sent. A view that isn't what the reader gives for its body is refused with 0.
pub fn reply<'o, 'i, 'a>(
    l: Lookup,
    own: &'o [u8],
    ours: [u8; 32],
    id: &'i [u8],
    v: View<'a>,
) -> Step
    ensures { Gives l (reply_of (lookup_of l) own.now ours id.now v.entry.body.now v.entry.at) result }
{
    l.reply(own, ours, id, v.body, v.at)
}
