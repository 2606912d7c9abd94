// The end of a run: the answer is read from the words.
ghost use Rattle.std.specs.Prelude.{◌*◌, ◌≤◌, ◌≡◌, length};
ghost use Rattle.rules.specs.Reading.{fields_of};
ghost use Rattle.rules.specs.Answers.{start, stop_of, result_run};
ghost use Rattle.machine.specs.Runs.{Playable, Played};
ghost use Rattle.machine.specs.Answered.{words_of};

use area::{POSITIONS, Words};
use rules::{Finish, Progress, Ran};
use steps::MarkedBook;

// Steps made, and the free and the ready numbers then.
#[derive(Clone, Copy)]
pub struct End {
    pub steps: usize,
    pub free: usize,
    pub ready: usize,
}

// Finished where nothing is ready, with the set of the only position, number 0, written out. Packet and schedule are named by the
// contract alone.
pub fn answer(
    book: &MarkedBook,
    packet: &[u16],
    schedule: &[u8],
    res: &mut [u16],
    work: &Words,
    c: End,
) -> Ran
    requires policy { Playable book.now (start book.now packet.now) × (16 * fields_of book.now ≤ length res.old) }
    requires ended { Played book.now work.now c.free c.ready c.steps (start book.now packet.now) schedule.now }
    ensures { (result ≡ stop_of book.now packet.now schedule.now)
        × (res.new ≡ result_run (Ok result)
        (words_of book.now packet.now schedule.now) res.old) }
{
    if c.ready == 0 {
        let h = area::head(work, 0);
        let k = book::byte_at(book.bytes(), 0) as usize;
        let count = h.count as usize;
        area::emit_packets(work, 0, count, k, res);
        return Ran::Finished(Finish {
            steps: c.steps,
            count,
        });
    }
    Ran::Running(Progress {
        steps: c.steps,
        live: POSITIONS - c.free,
        ready: c.ready,
    })
}
