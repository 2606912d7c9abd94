// p beside q: on no packet finished with none; on one its two sides; on more the lowest packet and the rest, each under this same part.
ghost use Rattle.std.specs.Prelude.{ℕ, ◌≡◌, List};
ghost use Rattle.area.specs.Words.{header_at};
ghost use Rattle.steps.specs.State.{Entering};
ghost use Rattle.machine.specs.Steps.{Entered, Splitting};

use area::{
    Header, Phase, Ready, Words, bare_packet, copy_packets, finish, head, put_head, take_free,
};
use steps::{MarkedBook, Turn, ended, lay, lay_leaf, two_ready};

// On one packet: p without the fields that q writes, q without those that p writes, in two positions below i.
fn enter_sides(book: &MarkedBook, work: &mut Words, n: usize, i: usize) -> Turn
    requires { Entering book.now work.old n i 7 × ((header_at work.old i).count ≡ 1) }
    ensures { Entered book.now work.old work.new n result.free i result.ready }
{
    let h = head(work, i);
    let part = book.head_at(h.place as usize);
    let l = take_free(work, n);
    let r = take_free(work, n - 1);
    let first = l as usize;
    let second = r as usize;
    bare_packet(work, i, first, part.right as u16);
    bare_packet(work, i, second, part.left as u16);
    let q = book.end_at(part.from) as usize;
    let x = lay(book, work, n - 2, first, i as u16, part.from, first, 1);
    let y = lay(book, work, x.free, second, i as u16, q, second, 1);
    let above = Header {
        phase: Phase::Paired,
        count: 0,
        left: l,
        right: r,
        ..h
    };
    put_head(work, i, above);
    Turn {
        free: y.free,
        ready: two_ready(i, x.ready, y.ready),
    }
}

// On more packets: two positions below i, both at its own place.
fn enter_split(work: &mut Words, n: usize, i: usize) -> Turn
    requires { Splitting work.old n i }
    ensures { (s : List ℕ) → Entering s work.old n i 7
        → Entered s work.old work.new n result.free i result.ready }
{
    let h = head(work, i);
    let l = take_free(work, n);
    let r = take_free(work, n - 1);
    let first = l as usize;
    let second = r as usize;
    lay_leaf(work, first, i as u16, h.place, Phase::Placed, i, 1);
    copy_packets(work, i, 1, second, h.count as usize);
    let rest = Header {
        phase: Phase::Placed,
        count: h.count - 1,
        up: i as u16,
        left: 0,
        right: 0,
        ..h
    };
    put_head(work, second, rest);
    let above = Header {
        phase: Phase::Split,
        count: 0,
        left: l,
        right: r,
        ..h
    };
    put_head(work, i, above);
    Turn {
        free: n - 2,
        ready: Ready::Pair(first, second),
    }
}

// The step of a placed p beside q.
pub fn enter_beside(book: &MarkedBook, work: &mut Words, n: usize, i: usize) -> Turn
    requires { Entering book.now work.old n i 7 }
    ensures { Entered book.now work.old work.new n result.free i result.ready }
{
    let h = head(work, i);
    match h.count {
        0 => {
            finish(work, i, h.up, 0);
            ended(n)
        }
        1 => enter_sides(book, work, n, i),
        _ => enter_split(work, n, i),
    }
}
