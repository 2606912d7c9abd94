// The step machine: a policy run under a schedule of choices, in a lent working area.
// The area's words (headers, ready numbers, free numbers, slots) and the steps on them stand in crates area and steps.
#![tactic(auto)]

mod advance;
mod beside;
mod ends;
mod play;
mod step;

ghost use Rattle.std.specs.Prelude.{◌≡◌};
ghost use Rattle.rules.specs.Reading.{verdict};
ghost use Rattle.std.specs.Prelude.{Ok};
ghost use Rattle.rules.specs.Promises.{RunAnswer};

use area::{AREA_WORDS, POSITIONS};
use play::conduct;
use rules::{Ran, Reason, Refusal, Sizes};

// The run of an accepted book, for a caller that has its sizes: 8, 12, 9, 10 and 11 in this order. Of the evaluator's answer nothing is
// used but the refusal and the room.
pub fn run_accepted(
    book: &[u8],
    packet: &[u16],
    schedule: &[u8],
    res: &mut [u16],
    work: &mut [u16],
    z: Sizes,
) -> Result<Ran, Refusal>
    requires { verdict book.now ≡ Ok z }
    ensures { RunAnswer book.now packet.now schedule.now res.old
        work.old result res.new work.new }
{
    let k = z.fields;
    if packet.len() != k {
        return Err(Reason::PacketLength.into());
    }
    if res.len() < 16 * k {
        return Err(Reason::BufferLength.into());
    }
    let Some(area) = work.first_chunk_mut::<AREA_WORDS>() else {
        return Err(Reason::BufferLength.into());
    };
    let weight = evaluator::weigh(book, packet)?;
    if weight.room > POSITIONS as u64 {
        return Err(Reason::Positions.into());
    }
    Ok(conduct(book, packet, schedule, res, area))
}

// A book's bytes, a packet's words and a schedule of choices run in a lent working area: document 01's answer, and both buffers after it.
pub fn run(
    book: &[u8],
    packet: &[u16],
    schedule: &[u8],
    res: &mut [u16],
    work: &mut [u16],
) -> Result<Ran, Refusal>
    ensures { RunAnswer book.now packet.now schedule.now res.old
        work.old result res.new work.new }
{
    let sizes = typing::accept(book)?;
    run_accepted(book, packet, schedule, res, work, sizes)
}
