#![tactic(auto)]
// The limits of docs/RULES.md, each under one name; specs/Limits.antt has the same for definitions. Sizes and layouts are worked out from these, each in its own
// crate.

// A peer: its id, its addresses, how many of them are kept and what room these take, and its place.
pub const MOST_ID: usize = 64;

pub const MOST_ADDRESS: usize = 128;

pub const MOST_ADDRESSES: usize = 4;

pub const ADDRESSES_SIZE: usize = MOST_ADDRESSES * MOST_ADDRESS;

pub const PLACE: usize = 32;

// A record: its key, its value, and how many setpoints a list of that has.
pub const MOST_KEY: usize = 128;

pub const MOST_VALUE: usize = 3072;

pub const MOST_SETPOINTS: usize = 400;

// A message's body; a reply buffer has room for the longest length before it.
pub const MOST_BODY: usize = 16384;

pub const MOST_PREFIX: usize = 3;

pub const LEAST_REPLY: usize = MOST_BODY + MOST_PREFIX;

// The types of messages and of connections.
pub const MOST_KIND: u64 = 5;

pub const MOST_CONNECTION: u64 = 3;

// Lent memory: slots of contacts, of which a bucket has so many, and of records.
pub const MOST_CONTACTS: usize = 5120;

pub const BUCKET: usize = 20;

pub const MOST_RECORDS: usize = 256;

// What a query gives, and what a lookup hears of a reply: one more, which FIND_NODE may add.
pub const MOST_NEAR: usize = 20;

pub const MOST_HEARD: usize = MOST_NEAR + 1;
