// A run: the area made ready, the schedule played, the answer read, the area cleared.
ghost use Rattle.std.specs.Prelude.{◌-◌, ◌*◌, ◌≤◌, ◌≡◌, length, replicate};
ghost use Rattle.rules.specs.Reading.{body_start, fields_of};
ghost use Rattle.rules.specs.Answers.{start, stop_of, result_run};
ghost use Rattle.steps.specs.Standing.{Runnable, Readable};
ghost use Rattle.area.specs.Words.{positions, area_words};
ghost use Rattle.steps.specs.State.{Holds};
ghost use Rattle.machine.specs.Runs.{Playable, Played};
ghost use Rattle.machine.specs.Answered.{words_of, Freed};

use crate::advance::{Tally, advance};
use crate::ends::{End, answer};
use area::{NOBODY, POSITIONS, Ready, Words};
use rules::{MOST_BYTES, Ran};
use steps::MarkedBook;

// The numbers but 0, the root's, given to the free list, the highest first.
fn free_all(work: &mut Words)
    ensures { Freed work.new (positions - 1) }
{
    for n in 0..POSITIONS - 1 {
        area::give_back(work, n, (POSITIONS - 1 - n) as u16);
    }
}

// The area made ready, and the main policy placed on the packet.
fn set_up(book: &MarkedBook, packet: &[u16], work: &mut Words) -> Tally
    requires policy { Runnable book.now (body_start book.now 0) × Playable book.now (start book.now packet.now) }
    requires words { length packet.now ≤ 8 }
    ensures { Holds book.now work.new result.free result.ready
        (start book.now packet.now) }
{
    let p = rows::padded(packet);
    free_all(work);
    area::put_packet(work, 0, p);
    let at = book.body_start(0);
    let o = steps::lay(book, work, POSITIONS - 1, 0, NOBODY, at, 0, 1);
    let ready = area::relist(work, 1, 0, NOBODY, Ready::from(o.ready));
    Tally {
        free: o.free,
        ready,
    }
}

// The schedule's bytes in order, each a choice, until nothing is ready. The packet is named by the contract alone.
fn play(book: &MarkedBook, packet: &[u16], schedule: &[u8], work: &mut Words, first: Tally) -> End
    requires { Playable book.now (start book.now packet.now)
        × Holds book.now work.old first.free first.ready (start book.now packet.now) }
    ensures { Played book.now work.new result.free result.ready result.steps
        (start book.now packet.now) schedule.now }
{
    let mut c = first;
    for (n, b) in schedule.iter().enumerate() {
        if c.ready == 0 {
            return End {
                steps: n,
                free: c.free,
                ready: c.ready,
            };
        }
        c = advance(book, work, c, *b);
    }
    End {
        steps: schedule.len(),
        free: c.free,
        ready: c.ready,
    }
}

// The run of a book and a packet that are admitted. The ends of its parts are marked once, a word for each byte.
pub fn conduct(
    book: &[u8],
    packet: &[u16],
    schedule: &[u8],
    res: &mut [u16],
    work: &mut Words,
) -> Ran
    requires policy { Readable book.now × Runnable book.now (body_start book.now 0)
        × Playable book.now (start book.now packet.now) }
    requires buffers { (length packet.now ≤ 8) × (16 * fields_of book.now ≤ length res.old) }
    ensures { (result ≡ stop_of book.now packet.now schedule.now)
        × (res.new ≡ result_run (Ok result)
        (words_of book.now packet.now schedule.now) res.old)
        × (work.new ≡ replicate area_words 0) }
{
    let mut ends = [0u16; MOST_BYTES];
    let marked = MarkedBook::new(book, &mut ends);
    let first = set_up(&marked, packet, work);
    let c = play(&marked, packet, schedule, work, first);
    let r = answer(&marked, packet, schedule, res, work, c);
    work.fill(0);
    r
}
