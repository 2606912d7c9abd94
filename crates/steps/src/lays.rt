// A part laid out on free positions: in one position, or, a sequence, in one above its first part.
ghost use Rattle.std.specs.Prelude.{ℕ, ◌<◌, ◌≤◌};
ghost use Rattle.rules.specs.Packets.{most_packets};
ghost use Rattle.area.specs.Words.{positions, rows_at};
ghost use Rattle.area.specs.declared.headers.Phase.{Phase};
ghost use Rattle.steps.specs.State.{Becomes, Laying, Laid};

use crate::marks::MarkedBook;
use area::{Header, Phase, Words, copy_set, put_head, take_free};
use rules::{ID, SEQUENCE};

// Position i with its header and the first packets of slot `src`.
pub fn lay_leaf(
    work: &mut Words,
    i: usize,
    up: u16,
    at: u16,
    phase: Phase,
    src: usize,
    count: usize,
)
    requires { (i < positions) × (src < positions) × (count ≤ most_packets) }
    ensures { Becomes work.old work.new i
        (record { place = at; phase = phase; count = count; up = up; left = 0; right = 0 }) (rows_at work.old src count) }
{
    copy_set(work, src, i, count);
    let h = Header {
        place: at,
        phase,
        count: count as u16,
        up,
        left: 0,
        right: 0,
    };
    put_head(work, i, h);
}

// Free numbers, and the ready position that a placed part offers; none where it is finished.
#[derive(Clone, Copy)]
pub struct Offer {
    pub free: usize,
    pub ready: Option<usize>,
}

// The part at a place laid out at number i below `up`, on the first packets of slot `src`: a sequence gets its position below.
pub fn lay(
    book: &MarkedBook,
    work: &mut Words,
    n: usize,
    i: usize,
    up: u16,
    at: usize,
    src: usize,
    count: usize,
) -> Offer
    requires { Laying book.now work.old n i at src count }
    ensures { (f : ℕ) → Laid book.now work.old work.new n result.free i up at src count
        result.ready f }
{
    let p = book.head_at(at);
    match p.code {
        ID => {
            lay_leaf(work, i, up, at as u16, Phase::Finished, src, count);
            Offer {
                free: n,
                ready: None,
            }
        }
        SEQUENCE => {
            let c = take_free(work, n);
            let h = Header {
                place: book.end_at(p.from),
                phase: Phase::Waiting,
                count: 0,
                up,
                left: c,
                right: 0,
            };
            put_head(work, i, h);
            let first = lay(book, work, n - 1, c as usize, i as u16, p.from, src, count);
            Offer {
                free: first.free,
                ready: first.ready.or(Some(i)),
            }
        }
        _ => {
            lay_leaf(work, i, up, at as u16, Phase::Placed, src, count);
            Offer {
                free: n,
                ready: Some(i),
            }
        }
    }
}
