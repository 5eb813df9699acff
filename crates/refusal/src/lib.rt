#![tactic(auto)]
// The refusals, a named case for each row of the table in RULES, Refusals, with its words.
ghost use Rattle.std.specs.Prelude.{◌≡◌};
ghost use Rattle.refusal.specs.Refusal.{number_of};

#[derive(Clone, Copy)]
pub enum Refusal {
    // lent contact or record memory, a lookup, a view or a connection is out of form
    OutOfForm,
    // receive buffer under 16,384 or reply buffer under 16,387 bytes
    SmallBuffer,
    // connection is shut
    Shut,
    // length prefix not minimal
    PrefixNotMinimal,
    // message over 16,384 bytes
    TooLong,
    // body isn't well formed
    Malformed,
    // type not 0 to 5
    UnknownType,
    // type 2 or 3 (providers)
    Providers,
    // key or record breaks the request rules
    BreaksRules,
    // recipe broken
    BrokenRecipe,
    // held record ranks higher
    Outranked,
    // key not held, every record slot holds another key
    NoRecordSlot,
    // peer id not 1 to 64 bytes, or of our place
    BadPeer,
    // bucket holds 20; its head is named for a probe
    BucketFull,
    // bucket has room, every contact slot is used
    NoContactSlot,
    // settle, remove or doubt no longer fits the table
    NoLongerFits,
    // peer isn't in flight in this lookup
    NotInFlight,
    // lookup is over
    LookupOver,
    // peer is a client
    Client,
    // connection ended inside a prefix or body
    EndedInside,
    // concurrency not 1 to 10
    BadConcurrency,
    // message can't be written: a part or the whole is over its limit, or type or connection out of range
    Unwritable,
}

// The number of a refusal.
pub fn number(r: Refusal) -> u8
    ensures { result ≡ number_of r }
{
    match r {
        Refusal::OutOfForm => 0,
        Refusal::SmallBuffer => 1,
        Refusal::Shut => 2,
        Refusal::PrefixNotMinimal => 3,
        Refusal::TooLong => 4,
        Refusal::Malformed => 5,
        Refusal::UnknownType => 6,
        Refusal::Providers => 7,
        Refusal::BreaksRules => 8,
        Refusal::BrokenRecipe => 9,
        Refusal::Outranked => 10,
        Refusal::NoRecordSlot => 11,
        Refusal::BadPeer => 12,
        Refusal::BucketFull => 13,
        Refusal::NoContactSlot => 14,
        Refusal::NoLongerFits => 15,
        Refusal::NotInFlight => 16,
        Refusal::LookupOver => 17,
        Refusal::Client => 18,
        Refusal::EndedInside => 19,
        Refusal::BadConcurrency => 20,
        Refusal::Unwritable => 21,
    }
}
