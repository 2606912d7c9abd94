// The step at a position: a placed part is entered, finished positions are left, by the phase of the one above them.
ghost use Rattle.machine.specs.Steps.{Placed, Entered, Stepping, Stepped};

use crate::beside::enter_beside;
use area::{Phase, Words};
use rules::{BESIDE, DROP, NOT, SET, SUM};
use steps::{MarkedBook, Turn};

// The step at the placed part of number i.
fn enter(book: &MarkedBook, work: &mut Words, n: usize, i: usize) -> Turn
    requires { Placed book.now work.old n i }
    ensures { Entered book.now work.old work.new n result.free i result.ready }
{
    let h = area::head(work, i);
    let code = book.head_at(h.place as usize).code;
    match code {
        DROP..=SET => steps::enter_leaf(book, work, n, i, code),
        NOT => steps::enter_not(book, work, n, i),
        SUM => steps::enter_sum(book, work, n, i),
        BESIDE => enter_beside(book, work, n, i),
        _ => steps::enter_table(book, work, n, i),
    }
}

// The step at number i, which is placed or above finished ones.
pub fn step(book: &MarkedBook, work: &mut Words, n: usize, i: usize) -> Turn
    requires { Stepping book.now work.old n i }
    ensures { Stepped book.now work.old work.new n result.free i result.ready }
{
    let h = area::head(work, i);
    let left = h.left as usize;
    let right = h.right as usize;
    match h.phase {
        Phase::Placed => enter(book, work, n, i),
        Phase::Finished => unreachable!(),
        Phase::Waiting => steps::take_next(book, work, n, i, left),
        Phase::Negated => steps::leave_not(work, n, i, left),
        Phase::Entered | Phase::Split | Phase::Paired => {
            steps::leave_both(book, work, n, i, left, right)
        }
    }
}
