// One choice: a byte picks among the ready positions, the step there is made, and the list of ready numbers is put right.
ghost use Rattle.machine.specs.Runs.{Advancing, Advanced};

use crate::step::step;
use area::Words;
use steps::MarkedBook;

// How many numbers are free, and how many ready.
#[derive(Clone, Copy)]
pub struct Tally {
    pub free: usize,
    pub ready: usize,
}

// Byte b picks number b mod r of r ready ones, from the left; a finished state stays.
pub fn advance(book: &MarkedBook, work: &mut Words, c: Tally, b: u8) -> Tally
    requires { Advancing book.now work.old c.free c.ready }
    ensures { Advanced book.now work.old work.new c.free c.ready result.free result.ready b }
{
    let r = c.ready;
    if r == 0 {
        return c;
    }
    let j = b as usize % r;
    let i = area::ready_at(work, j);
    let up = area::head(work, i).up;
    let t = step(book, work, c.free, i);
    let ready = area::relist(work, r, j, up, t.ready);
    Tally {
        free: t.free,
        ready,
    }
}
