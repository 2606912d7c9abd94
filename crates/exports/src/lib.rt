// Faces with C linkage: thin, on byte and word slices and numbers. A slice passes as a pointer and then its length.
// Each answers a code (0: answered, 100: running, else the number that turns the call away) and lays values in the caller's words.
#![tactic(auto)]

ghost use Rattle.std.specs.Prelude.{◌≡◌, ◌≤◌, length};
ghost use Rattle.rules.specs.Answers.{refusal_says, verdict_says, evaluated_says, ran_says, overwritten};
ghost use Rattle.exports.specs.Faces.{Lays, AcceptFace, EvaluateFace, RunFace};

use rules::{Outcome, Ran, Refusal, Sizes};

// A call needs so many words for the values; one that lends fewer is answered 255. What lays them takes the caller's slice and no array of
// five: each face would have to cut the array off, and to say what becomes of the rest. Counts are cast: no From makes a u64 of a usize.
const FACE_WORDS: usize = 5;

const TOO_FEW_WORDS: u64 = 255;

// Lays values in front of the caller's words, and hands the code on.
#[tactic(auto, unfolding(rules::specs::Answers::overwritten))]
fn lay(code: u64, values: &[u64], out: &mut [u64]) -> u64
    requires { length values.now ≤ length out.old }
    ensures { (result ≡ code) × (out.new ≡ overwritten values.now out.old) }
{
    out[..values.len()].copy_from_slice(values);
    code
}

#[tactic(auto, unfolding(rules::specs::Answers::refusal_says, crate::specs::Faces::code_of, crate::specs::Faces::values_of))]
fn lay_refusal(r: Refusal, out: &mut [u64]) -> u64
    requires { FACE_WORDS ≤ length out.old }
    ensures { Lays (refusal_says r) out.old out.new result }
{
    lay(r.number() as u64, &[r.place as u64], out)
}

#[tactic(auto, unfolding(rules::specs::Answers::verdict_says, crate::specs::Faces::code_of, crate::specs::Faces::values_of))]
fn lay_verdict(v: Result<Sizes, Refusal>, out: &mut [u64]) -> u64
    requires { FACE_WORDS ≤ length out.old }
    ensures { Lays (verdict_says v) out.old out.new result }
{
    match v {
        Ok(z) => {
            let values = [
                z.fields as u64,
                z.tables as u64,
                z.parts as u64,
                z.deep as u64,
            ];
            lay(0, &values, out)
        }
        Err(r) => lay_refusal(r, out),
    }
}

#[tactic(auto, unfolding(rules::specs::Answers::evaluated_says, crate::specs::Faces::code_of, crate::specs::Faces::values_of))]
fn lay_evaluated(e: Result<Outcome, Refusal>, out: &mut [u64]) -> u64
    requires { FACE_WORDS ≤ length out.old }
    ensures { Lays (evaluated_says e) out.old out.new result }
{
    match e {
        Ok(o) => {
            let values = [
                o.count as u64,
                o.steps,
                o.parts as u64,
                o.deep as u64,
                o.room,
            ];
            lay(0, &values, out)
        }
        Err(r) => lay_refusal(r, out),
    }
}

#[tactic(auto, unfolding(rules::specs::Answers::ran_says, crate::specs::Faces::code_of, crate::specs::Faces::values_of))]
fn lay_ran(a: Result<Ran, Refusal>, out: &mut [u64]) -> u64
    requires { FACE_WORDS ≤ length out.old }
    ensures { Lays (ran_says a) out.old out.new result }
{
    match a {
        Ok(Ran::Finished(f)) => lay(0, &[f.steps as u64, f.count as u64], out),
        Ok(Ran::Running(p)) => lay(100, &[p.steps as u64, p.live as u64, p.ready as u64], out),
        Err(r) => lay_refusal(r, out),
    }
}

// The verdict on a book: k, m, n and D, or a number and its place.
#[unsafe(no_mangle)]
pub extern "C" fn hamstedew_accept(book: &[u8], sizes: &mut [u64]) -> u64
    ensures { AcceptFace book.now sizes.old sizes.new result }
{
    if sizes.len() < FACE_WORDS {
        return TOO_FEW_WORDS;
    }
    lay_verdict(typing::accept(book), sizes)
}

// A packet through a book: the count, N, n, D and the room, or a number and its place; the packets go to the result.
#[unsafe(no_mangle)]
pub extern "C" fn hamstedew_evaluate(
    book: &[u8],
    packet: &[u16],
    res: &mut [u16],
    outcome: &mut [u64],
) -> u64
    ensures { EvaluateFace book.now packet.now
        res.old res.new outcome.old outcome.new result }
{
    if outcome.len() < FACE_WORDS {
        return TOO_FEW_WORDS;
    }
    lay_evaluated(evaluator::evaluate(book, packet, res), outcome)
}

// A packet through a book under a schedule: steps and count; steps, live and ready positions of a short one; or a number and its
// place. The packets go to the result, and the working area is zero afterwards.
#[unsafe(no_mangle)]
pub extern "C" fn hamstedew_run(
    book: &[u8],
    packet: &[u16],
    schedule: &[u8],
    res: &mut [u16],
    area: &mut [u16],
    progress: &mut [u64],
) -> u64
    ensures { RunFace book.now packet.now schedule.now
        res.old res.new area.old area.new
        progress.old progress.new result }
{
    if progress.len() < FACE_WORDS {
        return TOO_FEW_WORDS;
    }
    lay_ran(machine::run(book, packet, schedule, res, area), progress)
}
