// The step of a position whose positions below are finished: their numbers are given back, and it goes on with their sets.
ghost use Rattle.std.specs.Prelude.{List, [], ◌∷◌, ℕ, ◌≤◌, length};
ghost use Rattle.rules.specs.Packets.{most_packets};
ghost use Rattle.rules.specs.States.{place, done, join};
ghost use Rattle.area.specs.Words.{header_at, rows_at, Filled, Three};
ghost use Rattle.steps.specs.Standing.{join_of};
ghost use Rattle.steps.specs.State.{spot_at, part_at, set_at, Turned, Taking, Joining, joining, lacking, Lacking};

use crate::enters::{Turn, ended};
use crate::lays::lay;
use crate::marks::MarkedBook;
use area::{Phase, Ready, Words, finish, give_back, head, lack_slots, pair_slots, union_slots};

// p ; q where p is finished: q on p's set, in the sequence's own position; p's is given back.
pub fn take_next(book: &MarkedBook, work: &mut Words, n: usize, i: usize, c: usize) -> Turn
    requires { Taking book.now work.old n i c }
    ensures { (f : ℕ) → Turned book.now work.old work.new n result.free (i ∷ c ∷ [])
        (header_at work.old i).up i
        (place (spot_at work.old i f) (part_at book.now work.old i) (set_at work.old c))
        result.ready }
{
    let h = head(work, i);
    let k = head(work, c);
    give_back(work, n, h.left);
    let x = lay(
        book,
        work,
        n + 1,
        i,
        h.up,
        h.place as usize,
        c,
        k.count as usize,
    );
    Turn {
        free: x.free,
        ready: Ready::from(x.ready),
    }
}

// The set that two finished positions leave, by the phase above them, in slot i. Gives how many packets it has.
fn join_slots(
    book: &MarkedBook,
    work: &mut Words,
    i: usize,
    l: usize,
    r: usize,
    a: usize,
    b: usize,
    at: usize,
    phase: Phase,
) -> usize
    requires { Three work.old i l r a b
        × (length (join (join_of book.now phase at) (rows_at work.old l a) (rows_at work.old r b)) ≤ most_packets) }
    ensures { Filled work.old work.new i result
        (join (join_of book.now phase at) (rows_at work.old l a) (rows_at work.old r b)) }
{
    match phase {
        Phase::Paired => {
            let p = book.head_at(at);
            pair_slots(work, i, l, r, a, b, p.right as u16)
        }
        _ => union_slots(work, i, l, r, a, b),
    }
}

// p + q, a split or the two sides of a concurrent part, where both are finished: their set in the upper position.
pub fn leave_both(
    book: &MarkedBook,
    work: &mut Words,
    n: usize,
    i: usize,
    l: usize,
    r: usize,
) -> Turn
    requires { Joining book.now work.old n i l r }
    ensures { Turned book.now work.old work.new n result.free (i ∷ l ∷ r ∷ [])
        (header_at work.old i).up i
        (done (joining book.now work.old i l r)) result.ready }
{
    let h = head(work, i);
    let a = head(work, l).count as usize;
    let b = head(work, r).count as usize;
    give_back(work, n, h.left);
    give_back(work, n + 1, h.right);
    let c = join_slots(book, work, i, l, r, a, b, h.place as usize, h.phase);
    finish(work, i, h.up, c);
    ended(n + 2)
}

// not a where a is finished: the kept packets that a did not give; a's position is given back.
pub fn leave_not(work: &mut Words, n: usize, i: usize, c: usize) -> Turn
    requires { Lacking work.old n i c }
    ensures { (s : List ℕ) → Turned s work.old work.new n result.free (i ∷ c ∷ [])
        (header_at work.old i).up i (done (lacking work.old i c)) result.ready }
{
    let h = head(work, i);
    let m = head(work, c).count as usize;
    give_back(work, n, h.left);
    let k = lack_slots(work, i, h.count as usize, c, m);
    finish(work, i, h.up, k);
    ended(n + 1)
}
