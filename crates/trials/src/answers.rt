// Each answer in six numbers, and comparing. Counts are cast: no From makes a u64 of a usize.
ghost use Rattle.std.specs.Prelude.{◌≡◌};
ghost use Rattle.rules.specs.Answers.{refusal_says, verdict_says, evaluated_says, ran_says};
ghost use Rattle.trials.specs.Agreement.{numbers_of, left};

use crate::vectors::from;
use rules::{Outcome, Ran, Refusal, Sizes};

#[tactic(auto, unfolding(crate::specs::Agreement::numbers_of, rules::specs::Answers::refusal_says))]
fn refusal_numbers(r: Refusal) -> [u64; 6]
    ensures { result ≡ numbers_of (refusal_says r) }
{
    [0, r.number() as u64, r.place as u64, 0, 0, 0]
}

#[tactic(auto, unfolding(crate::specs::Agreement::numbers_of, rules::specs::Answers::verdict_says))]
pub fn verdict_numbers(v: Result<Sizes, Refusal>) -> [u64; 6]
    ensures { result ≡ numbers_of (verdict_says v) }
{
    match v {
        Ok(z) => [
            1,
            z.fields as u64,
            z.tables as u64,
            z.parts as u64,
            z.deep as u64,
            0,
        ],
        Err(r) => refusal_numbers(r),
    }
}

#[tactic(auto, unfolding(crate::specs::Agreement::numbers_of, rules::specs::Answers::evaluated_says))]
pub fn evaluated_numbers(e: Result<Outcome, Refusal>) -> [u64; 6]
    ensures { result ≡ numbers_of (evaluated_says e) }
{
    match e {
        Ok(o) => [
            1,
            o.count as u64,
            o.steps,
            o.parts as u64,
            o.deep as u64,
            o.room,
        ],
        Err(r) => refusal_numbers(r),
    }
}

#[tactic(auto, unfolding(crate::specs::Agreement::numbers_of, rules::specs::Answers::ran_says))]
pub fn ran_numbers(a: Result<Ran, Refusal>) -> [u64; 6]
    ensures { result ≡ numbers_of (ran_says a) }
{
    match a {
        Ok(Ran::Finished(f)) => [1, f.steps as u64, f.count as u64, 0, 0, 0],
        Ok(Ran::Running(p)) => [2, p.steps as u64, p.live as u64, p.ready as u64, 0, 0],
        Err(r) => refusal_numbers(r),
    }
}

// Whether a buffer is left as stated: the stated words, and after them those from before.
pub fn left_as(after: &[u16], stated: &[u16], before: &[u16]) -> bool
    ensures { result ≡ left after.now stated.now before.now }
{
    let kept = from(before, stated.len());
    after.strip_prefix(stated).is_some_and(|rest| rest == kept)
}
