// The step of a placed part: what stands below it laid out, or its set changed where it stands.
ghost use Rattle.std.specs.Prelude.{◌≡◌, [], ◌∷◌, ℕ, ◌<◌, get_or};
ghost use Rattle.rules.specs.Working.{out};
ghost use Rattle.area.specs.declared.lists.Ready.{Ready};
ghost use Rattle.area.specs.Words.{header_at, rows_at, Filled, HasSet};
ghost use Rattle.steps.specs.Standing.{part_of};
ghost use Rattle.steps.specs.State.{entering, two_ready, Turned, Entering};

use crate::lays::lay;
use crate::marks::MarkedBook;
use area::{
    Header, Phase, Ready, Words, finish, head, keep_packets, put_head, set_packets, take_free,
};
use rules::{DROP, TEST};

// Free numbers, and the positions that a step leaves ready: nobody where it is finished, one, or two.
#[derive(Clone, Copy)]
pub struct Turn {
    pub free: usize,
    pub ready: Ready,
}

// A step that leaves one finished position.
pub fn ended(free: usize) -> Turn
    ensures { result ≡ record { free = free; ready = Ready.Nobody } }
{
    Turn {
        free,
        ready: Ready::Nobody,
    }
}

// The ready positions of two below number i: i itself where both are finished.
pub fn two_ready(i: usize, a: Option<usize>, b: Option<usize>) -> Ready
    ensures { result ≡ two_ready i a b }
{
    match (a, b) {
        (None, None) => Ready::One(i),
        (Some(x), None) | (None, Some(x)) => Ready::One(x),
        (Some(x), Some(y)) => Ready::Pair(x, y),
    }
}

// The drop, test or set at a place, on the n packets of slot i where they stand. Gives how many are left.
fn leaf_at(book: &MarkedBook, work: &mut Words, i: usize, n: usize, at: usize, code: u8) -> usize
    requires { HasSet work.old i n × (code ≡ get_or book.now at 0) × (0 < code) × (code < 4) }
    ensures { Filled work.old work.new i result
        (out (part_of book.now at) (rows_at work.old i n)) }
{
    let p = book.head_at(at);
    match code {
        DROP => 0,
        TEST => keep_packets(work, i, n, p.field as usize, p.value),
        _ => set_packets(work, i, n, p.field as usize, p.value),
    }
}

// The step of a placed drop, test or set.
pub fn enter_leaf(book: &MarkedBook, work: &mut Words, n: usize, i: usize, code: u8) -> Turn
    requires { Entering book.now work.old n i code × (0 < code) × (code < 4) }
    ensures { (f : ℕ) → Turned book.now work.old work.new n result.free (i ∷ [])
        (header_at work.old i).up i
        (entering book.now work.old i f) result.ready }
{
    let h = head(work, i);
    let k = leaf_at(book, work, i, h.count as usize, h.place as usize, code);
    finish(work, i, h.up, k);
    ended(n)
}

// p + q: two positions below i, each on its set.
pub fn enter_sum(book: &MarkedBook, work: &mut Words, n: usize, i: usize) -> Turn
    requires { Entering book.now work.old n i 5 }
    ensures { (f : ℕ) → Turned book.now work.old work.new n result.free (i ∷ [])
        (header_at work.old i).up i
        (entering book.now work.old i f) result.ready }
{
    let h = head(work, i);
    let count = h.count as usize;
    let l = take_free(work, n);
    let r = take_free(work, n - 1);
    let p = book.head_at(h.place as usize);
    let q = book.end_at(p.from) as usize;
    let x = lay(book, work, n - 2, l as usize, i as u16, p.from, i, count);
    let y = lay(book, work, x.free, r as usize, i as u16, q, i, count);
    let above = Header {
        phase: Phase::Entered,
        count: 0,
        left: l,
        right: r,
        ..h
    };
    put_head(work, i, above);
    Turn {
        free: y.free,
        ready: two_ready(i, x.ready, y.ready),
    }
}

// not a: a position below i on a copy of its set, which i keeps.
pub fn enter_not(book: &MarkedBook, work: &mut Words, n: usize, i: usize) -> Turn
    requires { Entering book.now work.old n i 4 }
    ensures { (f : ℕ) → Turned book.now work.old work.new n result.free (i ∷ [])
        (header_at work.old i).up i
        (entering book.now work.old i f) result.ready }
{
    let h = head(work, i);
    let c = take_free(work, n);
    let p = book.head_at(h.place as usize);
    let x = lay(
        book,
        work,
        n - 1,
        c as usize,
        i as u16,
        p.from,
        i,
        h.count as usize,
    );
    let keeping = Header {
        phase: Phase::Negated,
        left: c,
        right: 0,
        ..h
    };
    put_head(work, i, keeping);
    Turn {
        free: x.free,
        ready: Ready::from(x.ready.or(Some(i))),
    }
}

// A use of a table: its body laid out in this position.
pub fn enter_table(book: &MarkedBook, work: &mut Words, n: usize, i: usize) -> Turn
    requires { Entering book.now work.old n i 8 }
    ensures { (f : ℕ) → Turned book.now work.old work.new n result.free (i ∷ [])
        (header_at work.old i).up i
        (entering book.now work.old i f) result.ready }
{
    let h = head(work, i);
    let p = book.head_at(h.place as usize);
    let start = book.body_start(p.table);
    let x = lay(book, work, n, i, h.up, start, i, h.count as usize);
    Turn {
        free: x.free,
        ready: Ready::from(x.ready),
    }
}
