// The list of free numbers, and that of the ready ones, from left to right, which a step changes at its own index.
ghost use Rattle.std.specs.Prelude.{◌≡◌, [], ◌∷◌, ◌++◌, ◌+◌, ◌-◌, ◌<◌, ◌≤◌, length, get_or};
ghost use Rattle.area.specs.Words.{positions, ready_from, free_list, Given, Listed};
ghost use Rattle.area.specs.Ready.{numbers, ready_of, risen_at, news_at, Above, Relisting};

use crate::headers::{Phase, done_at, head};
use crate::{FREE_FROM, NOBODY, READY_FROM, Words};

// The positions that a step leaves ready: none where it is finished, one, or two from left to right, and so no Option.
#[derive(Clone, Copy)]
pub enum Ready {
    Nobody,
    One(usize),
    Pair(usize, usize),
}

impl From<Option<usize>> for Ready {
    ghost from_gives = { λ x r. r ≡ ready_of x };

    fn from(x: Option<usize>) -> Ready {
        match x {
            Some(i) => Ready::One(i),
            None => Ready::Nobody,
        }
    }
}

// The ready number j.
pub fn ready_at(work: &Words, j: usize) -> usize
    requires { j < positions }
    ensures { result ≡ get_or work.now (ready_from + j) 0 }
{
    work[READY_FROM + j] as usize
}

// A free number, the last of n; then n - 1 are left.
pub fn take_free(work: &Words, n: usize) -> u16
    requires { (0 < n) × (n ≤ positions) }
    ensures { free_list work.now n ≡ free_list work.now (n - 1) ++ (result ∷ []) }
{
    work[FREE_FROM + n - 1]
}

// Number p given back, after n free ones.
pub fn give_back(work: &mut Words, n: usize, p: u16)
    requires { n < positions }
    ensures { Given work.old work.new n p }
{
    work[FREE_FROM + n] = p;
}

// In the list of r ready numbers none stands for number j: those after it move down.
fn list_none(work: &mut Words, r: usize, j: usize)
    requires { (j < r) × (r ≤ positions) }
    ensures { Listed work.old work.new r j [] }
{
    let at = READY_FROM + j;
    let end = READY_FROM + r;
    work.copy_within(at + 1..end, at);
}

// x stands for number j.
fn list_one(work: &mut Words, r: usize, j: usize, x: u16)
    requires { (j < r) × (r ≤ positions) }
    ensures { Listed work.old work.new r j (x ∷ []) }
{
    work[READY_FROM + j] = x;
}

// x and y stand for number j: those after it move up.
fn list_two(work: &mut Words, r: usize, j: usize, x: u16, y: u16)
    requires { (j < r) × (r < positions) }
    ensures { Listed work.old work.new r j (x ∷ y ∷ []) }
{
    let at = READY_FROM + j;
    let end = READY_FROM + r;
    work.copy_within(at + 1..end, at + 2);
    work[at] = x;
    work[at + 1] = y;
}

// The number above a finished position, where it may go on.
#[tactic(auto, unfolding(crate::specs::Ready::risen_at))]
fn rise(work: &Words, up: u16) -> Option<usize>
    requires { Above work.now up }
    ensures { result ≡ risen_at work.now up }
{
    if up == NOBODY {
        return None;
    }
    let i = up as usize;
    let h = head(work, i);
    match h.phase {
        Phase::Entered | Phase::Split | Phase::Paired => {
            if done_at(work, h.left as usize) && done_at(work, h.right as usize) {
                Some(i)
            } else {
                None
            }
        }
        _ => Some(i),
    }
}

// The positions that are ready after a step below `up` that offers some: where it offers none, the one above, if it may go on.
#[tactic(auto, unfolding(crate::specs::Ready::news_at))]
fn news(work: &Words, up: u16, offer: Ready) -> Ready
    requires { Above work.now up }
    ensures { result ≡ news_at work.now up offer }
{
    match offer {
        Ready::Nobody => Ready::from(rise(work, up)),
        _ => offer,
    }
}

// The list of r ready numbers put right after the step at number j of it, below `up`, which offers some. Gives how many are ready then.
pub fn relist(work: &mut Words, r: usize, j: usize, up: u16, offer: Ready) -> usize
    requires { Relisting work.old r j up offer }
    ensures { Listed work.old work.new r j (numbers (news_at work.old up offer))
        × (result ≡ r - 1 + length (numbers (news_at work.old up offer))) }
{
    match news(work, up, offer) {
        Ready::Nobody => {
            list_none(work, r, j);
            r - 1
        }
        Ready::One(a) => {
            list_one(work, r, j, a as u16);
            r
        }
        Ready::Pair(a, q) => {
            list_two(work, r, j, a as u16, q as u16);
            r + 1
        }
    }
}
