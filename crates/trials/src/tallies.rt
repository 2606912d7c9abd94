// Counting in a set of vectors: how many there are, of how many a question is answered with yes, and the first of these.
ghost use Rattle.std.specs.Prelude.{◌≡◌};
ghost use Rattle.trials.specs.Tallies.{refused_by, asked, tallied};

use crate::judging::agrees;
use crate::vector_set::Vectors;
use crate::vectors::{Call, long_at};

#[derive(Clone, Copy, Debug, PartialEq, Eq)]
pub struct Tally {
    pub cases: usize,
    pub found: usize,

    // The first that is found, counted from 0.
    pub first: Option<usize>,
}

// Whether the answers to a vector are not as it states; whether it states that a call answers, or that it is turned away by a number.
// An enum and no closure: so a contract can name the question.
#[derive(Clone, Copy, Debug, PartialEq, Eq)]
pub enum Question {
    Differs,
    Answered(Call),
    Refused(Call, u64),
}

// The number by which a call is stated to turn the vector away.
#[tactic(auto, unfolding(crate::specs::Tallies::refused_by))]
fn refused_by(v: &[u8], call: Call) -> Option<u64>
    ensures { result ≡ refused_by v.now call }
{
    let at = call.answer_place();
    if long_at(v, at) == 0 {
        Some(long_at(v, at + 4))
    } else {
        None
    }
}

#[tactic(auto, unfolding(crate::specs::Tallies::asked))]
fn ask(question: Question, v: &[u8]) -> bool
    ensures { result ≡ asked question v.now }
{
    match question {
        Question::Differs => !agrees(v),
        // A refusal by 0, which is no number, counts as an answer.
        Question::Answered(call) => refused_by(v, call).unwrap_or(0) == 0,
        Question::Refused(call, number) => refused_by(v, call) == Some(number),
    }
}

pub fn tally_of(set: &[u8], question: Question) -> Tally
    ensures { result ≡ tallied question set.now }
{
    let mut cases = 0;
    let mut found = 0;
    let mut first = None;
    for v in Vectors(set) {
        let yes = ask(question, v);
        found += usize::from(yes);
        first = first.or(yes.then_some(cases));
        cases += 1;
    }
    Tally {
        cases,
        found,
        first,
    }
}
