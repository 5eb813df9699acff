#![tactic(auto)]
// The record store for C and Rust to link: form, find and put on a lent slice.
ghost use Rattle.std.specs.Prelude.{◌≡◌};
ghost use Rattle.records.specs.Store.{in_form, find_of, put_answer, put_after};
ghost use Rattle.records_c.specs.Codes.{code_of, start_of};

use records::Held;
use refusal::Refusal;

fn code_of(a: Result<(), Refusal>) -> u8
    ensures { result ≡ code_of a }
{
    match a {
        Ok(()) => 255,
        Err(r) => refusal::number(r),
    }
}

fn start_of(f: Result<Option<Held>, Refusal>) -> usize
    ensures { result ≡ start_of f }
{
    match f {
        Ok(Some(held)) => held.start,
        Ok(None) => 0,
        Err(_) => 0,
    }
}

#[unsafe(no_mangle)]
pub extern "C" fn starterbell_records_in_form(store: &[u8]) -> bool
    ensures { result ≡ in_form store.now }
{
    records::in_form(store)
}

#[unsafe(no_mangle)]
pub extern "C" fn starterbell_records_find(store: &[u8], key: &[u8]) -> usize
    ensures { result ≡ start_of (find_of store.now key.now) }
{
    start_of(records::find(store, key))
}

#[unsafe(no_mangle)]
pub extern "C" fn starterbell_records_put(store: &mut [u8], key: &[u8], value: &[u8]) -> u8
    ensures { (result ≡ code_of (put_answer store.old key.now value.now)) × (store.new ≡ put_after store.old key.now value.now) }
{
    code_of(records::put(store, key, value))
}
