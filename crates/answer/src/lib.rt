#![tactic(auto)]
// Which reply a request gets, by its type. Every function takes any bytes: callers test form and sizes first.
ghost use Rattle.std.specs.Prelude.{◌≡◌, List, ℕ, ◌≤◌, length};
ghost use Rattle.octets.specs.Octets.{part};
ghost use Rattle.message.specs.Message.{message_of};
ghost use Rattle.message.specs.View.{reading_of};
ghost use Rattle.answer.specs.Answers.{deal_of, by_request};
ghost use Rattle.replies.specs.Lent.{lent};
ghost use Rattle.replies.specs.Verdicts.{Gives, put_dealt};

use message::{FIND_NODE, Fields, GET_VALUE, PING, PUT_VALUE};
use peer::Peer;
use refusal::Refusal;
use wire::Span;

// The bytes of a body at a span.
fn cut(body: &[u8], p: Span) -> &[u8]
    requires { (p.at ≤ p.end) × (p.end ≤ length body.now) }
    ensures { result.now ≡ part body.now p.at p.end }
{
    let from = p.at;
    let end = p.end;
    &body[from..end]
}

// Answers PUT_VALUE: there has to be a record. Whatever contacts t are lent beside.
fn serve_put(m: Fields, body: &[u8], records: &mut [u8], reply: &mut [u8]) -> Result<usize, Refusal>
    requires { reading_of body.now ≡ Ok m }
    ensures { (t : List ℕ) → Gives (put_dealt (message_of body.now).key (message_of body.now).held (lent t records.old reply.old)) result records.new reply.new }
{
    let key = m.key;
    let held = m.held;
    if held.there {
        return replies::answer_put(
            reply,
            records,
            cut(body, key),
            cut(body, held.key),
            cut(body, held.value),
        );
    }
    Err(Refusal::BreaksRules)
}

// Answers the request that was read from the body.
fn serve(
    me: Peer,
    who: Peer,
    m: Fields,
    body: &[u8],
    contacts: &[u8],
    records: &mut [u8],
    reply: &mut [u8],
) -> Result<usize, Refusal>
    requires { reading_of body.now ≡ Ok m }
    ensures { Gives (by_request me who (message_of body.now) (lent contacts.now records.old reply.old)) result records.new reply.new }
{
    let kind = m.kind;
    if kind == PUT_VALUE {
        return serve_put(m, body, records, reply);
    }
    let key = cut(body, m.key);
    if kind == GET_VALUE {
        return replies::answer_get(reply, key, contacts, records);
    }
    if kind == FIND_NODE {
        return replies::answer_find(reply, me, who, key, contacts);
    }
    if kind == PING {
        return Ok(replies::echo_ping(reply));
    }
    Err(Refusal::Providers)
}

// Answers the request whose body is here: who sent it, and who we are.
pub fn answer(
    me: Peer,
    who: Peer,
    body: &[u8],
    contacts: &[u8],
    records: &mut [u8],
    reply: &mut [u8],
) -> Result<usize, Refusal>
    ensures { Gives (deal_of me who body.now (lent contacts.now records.old reply.old)) result records.new reply.new }
{
    let m = message::read(body)?;
    serve(me, who, m, body, contacts, records, reply)
}
