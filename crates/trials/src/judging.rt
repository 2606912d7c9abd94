// The three calls on a vector, and whether all that they answer and leave is what it states.
ghost use Rattle.std.specs.Prelude.{◌≤◌, ◌≡◌, replicate};
ghost use Rattle.trials.specs.Vectors.{packet_place, schedule_place, given_place, ran_place};
ghost use Rattle.trials.specs.Vectors.{zero_words, book_of, packet_of, schedule_of, given_of, ran_of, result_lent, work_lent};
ghost use Rattle.trials.specs.Agreement.{left, Evaluates, Runs, accept_agrees, evaluate_agrees, run_agrees, agrees};

use crate::answers::{evaluated_numbers, left_as, ran_numbers, verdict_numbers};
use crate::vectors::{Call, MOST_WORDS, Words, from, front, marked, numbers_at, word_at, words_of};
use rules::{Outcome, Ran, Refusal};

// Where the lengths and the seed stand in the head of a vector, and where its book begins.
const BOOK_BYTES: usize = 0;

const PACKET_WORDS: usize = 2;

const SCHEDULE_BYTES: usize = 4;

const RESULT_WORDS: usize = 6;

const WORK_WORDS: usize = 8;

const SEED: usize = 10;

const GIVEN_WORDS: usize = 12;

const RAN_WORDS: usize = 14;

const ZERO_WORDS: usize = 16;

const BOOK_PLACE: usize = 90;

#[tactic(auto, unfolding(crate::specs::Vectors::book_of))]
fn book_of(v: &[u8]) -> &[u8]
    ensures { result.now ≡ book_of v.now }
{
    front(from(v, BOOK_PLACE), word_at(v, BOOK_BYTES))
}

fn packet_place(v: &[u8]) -> usize
    ensures { (result ≡ packet_place v.now) × (result ≤ 65625) }
{
    BOOK_PLACE + word_at(v, BOOK_BYTES)
}

fn schedule_place(v: &[u8]) -> usize
    ensures { (result ≡ schedule_place v.now) × (result ≤ 196695) }
{
    packet_place(v) + 2 * word_at(v, PACKET_WORDS)
}

fn given_place(v: &[u8]) -> usize
    ensures { (result ≡ given_place v.now) × (result ≤ 262230) }
{
    schedule_place(v) + word_at(v, SCHEDULE_BYTES)
}

fn ran_place(v: &[u8]) -> usize
    ensures { (result ≡ ran_place v.now) × (result ≤ 393300) }
{
    given_place(v) + 2 * word_at(v, GIVEN_WORDS)
}

#[tactic(auto, unfolding(crate::specs::Vectors::packet_of))]
fn packet_of(v: &[u8]) -> Words
    ensures { result.items ≡ packet_of v.now }
{
    words_of(from(v, packet_place(v)), word_at(v, PACKET_WORDS))
}

#[tactic(auto, unfolding(crate::specs::Vectors::schedule_of))]
fn schedule_of(v: &[u8]) -> &[u8]
    ensures { result.now ≡ schedule_of v.now }
{
    front(from(v, schedule_place(v)), word_at(v, SCHEDULE_BYTES))
}

// The packets that `evaluate` is to leave; then those of `run`.
#[tactic(auto, unfolding(crate::specs::Vectors::given_of))]
fn given_of(v: &[u8]) -> Words
    ensures { result.items ≡ given_of v.now }
{
    words_of(from(v, given_place(v)), word_at(v, GIVEN_WORDS))
}

#[tactic(auto, unfolding(crate::specs::Vectors::ran_of))]
fn ran_of(v: &[u8]) -> Words
    ensures { result.items ≡ ran_of v.now }
{
    words_of(from(v, ran_place(v)), word_at(v, RAN_WORDS))
}

#[tactic(auto, unfolding(crate::specs::Agreement::accept_agrees))]
fn accept_agrees(v: &[u8]) -> bool
    ensures { result ≡ accept_agrees v.now }
{
    verdict_numbers(typing::accept(book_of(v))) == numbers_at(v, Call::Accept.answer_place())
}

// The call of `evaluate` with the vector's book and packet.
fn evaluate_on(v: &[u8], res: &mut [u16]) -> Result<Outcome, Refusal>
    ensures { Evaluates v.now res.old result res.new }
{
    evaluator::evaluate(book_of(v), packet_of(v).as_slice(), res)
}

// Both buffers hold the same at first; the second is not lent to the call.
#[tactic(auto, unfolding(crate::specs::Agreement::evaluate_agrees))]
fn evaluate_agrees(v: &[u8], res: &mut [u16], before: &[u16]) -> bool
    requires { res.old ≡ before.now }
    ensures { result ≡ evaluate_agrees v.now before.now }
{
    let answer = evaluated_numbers(evaluate_on(v, res));
    answer == numbers_at(v, Call::Evaluate.answer_place())
        && left_as(res, given_of(v).as_slice(), before)
}

// The call of `run` with the vector's book, packet and schedule.
fn run_on(v: &[u8], res: &mut [u16], work: &mut [u16]) -> Result<Ran, Refusal>
    ensures { Runs v.now res.old work.old result res.new work.new }
{
    machine::run(
        book_of(v),
        packet_of(v).as_slice(),
        schedule_of(v),
        res,
        work,
    )
}

// Whether a working area is left with the zeros stated.
fn work_left(v: &[u8], after: &[u16], before: &[u16]) -> bool
    ensures { result ≡ left after.now (replicate (zero_words v.now) 0) before.now }
{
    let zeros = [0u16; MOST_WORDS];
    left_as(after, &zeros[..word_at(v, ZERO_WORDS)], before)
}

#[tactic(auto, unfolding(crate::specs::Agreement::run_agrees))]
fn run_agrees(v: &[u8], res: &mut [u16], work: &mut [u16], before: &[u16], idle: &[u16]) -> bool
    requires { (res.old ≡ before.now) × (work.old ≡ idle.now) }
    ensures { result ≡ run_agrees v.now before.now idle.now }
{
    let answer = ran_numbers(run_on(v, res, work));
    answer == numbers_at(v, Call::Run.answer_place())
        && left_as(res, ran_of(v).as_slice(), before)
        && work_left(v, work, idle)
}

// `evaluate` on a result buffer with its marks.
#[tactic(auto, unfolding(crate::specs::Vectors::result_lent))]
fn evaluate_marked(v: &[u8]) -> bool
    ensures { result ≡ evaluate_agrees v.now (result_lent v.now) }
{
    let before = marked(word_at(v, SEED));
    let n = word_at(v, RESULT_WORDS);
    let mut result = before;
    evaluate_agrees(v, &mut result[..n], &before[..n])
}

// `run` on a result buffer and a working area with their marks.
#[tactic(auto, unfolding(crate::specs::Vectors::result_lent, crate::specs::Vectors::work_lent))]
fn run_marked(v: &[u8]) -> bool
    ensures { result ≡ run_agrees v.now (result_lent v.now) (work_lent v.now) }
{
    let before = marked(word_at(v, SEED));
    let n = word_at(v, RESULT_WORDS);
    let m = word_at(v, WORK_WORDS);
    let mut result = before;
    let mut work = before;
    run_agrees(
        v,
        &mut result[..n],
        &mut work[..m],
        &before[..n],
        &before[..m],
    )
}

// Whether all answers to a vector, and all lent words after each call, are what it states.
#[tactic(auto, unfolding(crate::specs::Agreement::agrees))]
pub fn agrees(v: &[u8]) -> bool
    ensures { result ≡ agrees v.now }
{
    accept_agrees(v) && evaluate_marked(v) && run_marked(v)
}
