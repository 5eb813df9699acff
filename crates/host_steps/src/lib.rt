#![tactic(auto)]
// What a step of a lookup answered, as numbers, for the functions that C and Rust programs link (crates/host).
ghost use Rattle.std.specs.Prelude.{◌≡◌};
ghost use Rattle.host_steps.specs.Steps.{step_number, step_first, outcome_numbers};

use lookup::Answer;
use lookup_in_place::Outcome;
use refusal::Refusal;

// 64 going, 65 wait, 66 ask, 67 complete, 68 cut short, or a refusal.
fn step_code(a: Result<Answer, Refusal>) -> u32
    ensures { result ≡ step_number a }
{
    match a {
        Err(r) => host_numbers::code_of(r),
        Ok(Answer::Complete(_)) => 67,
        Ok(Answer::CutShort(_)) => 68,
        Ok(Answer::Wait) => 65,
        Ok(Answer::Ask(_)) => 66,
        Ok(Answer::Going) => 64,
    }
}

// The rank to ask, or the requests sent.
fn step_first(a: Result<Answer, Refusal>) -> usize
    ensures { result ≡ step_first a }
{
    match a {
        Err(_) => 0,
        Ok(Answer::Complete(n)) => n,
        Ok(Answer::CutShort(n)) => n,
        Ok(Answer::Wait) => 0,
        Ok(Answer::Ask(i)) => i,
        Ok(Answer::Going) => 0,
    }
}

// Writes what a step found, unless it was refused.
fn put_outcome(out: &mut [u64], o: Outcome)
    ensures { out.new ≡ outcome_numbers out.old o }
{
    let a = o.answer;
    let found = o.found;
    let at = found.at;
    if lookup_in_place::is_refused(a) {
        return;
    }
    let head = [step_first(a), found.n];
    host_numbers::put_numbers(out, 0, &head);
    host_numbers::put_numbers(out, 2, &at);
}

// Tells what a step answered: its number, and what it found.
pub fn tell(out: &mut [u64], o: Outcome) -> u32
    ensures { (result ≡ step_number o.answer) × (out.new ≡ outcome_numbers out.old o) }
{
    let a = o.answer;
    put_outcome(out, o);
    step_code(a)
}
