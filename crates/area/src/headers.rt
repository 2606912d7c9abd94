// The headers: six words for each position.
ghost use Rattle.std.specs.Prelude.{◌≡◌, ◌<◌, ◌≤◌};
ghost use Rattle.area.specs.Words.{positions, phase_at, word_of, header_at, finished_head, Headed};
ghost use Rattle.area.specs.Ready.{done_at};

use crate::{HEAD_WORDS, Words};

// The phase of a position: its part is placed there, it is finished, waits below a sequence, keeps a negation's set, or is above two others:
// the entered parts of a sum, the lowest packet and the rest, or the two sides of a concurrent part.
#[derive(Clone, Copy, PartialEq, Eq)]
pub enum Phase {
    Placed,
    Finished,
    Waiting,
    Negated,
    Entered,
    Split,
    Paired,
}

// The word that stands for a phase.
impl From<Phase> for u16 {
    ghost from_gives = { λ p w. w ≡ word_of p };

    fn from(p: Phase) -> u16 {
        p as u16
    }
}

// The phase that a word stands for. For every word: one above 6, which no area has, is read as Paired.
impl From<u16> for Phase {
    ghost from_gives = { λ w p. p ≡ phase_at w };

    #[tactic(auto, unfolding(crate::specs::Words::phase_at))]
    fn from(w: u16) -> Phase {
        match w {
            0 => Phase::Placed,
            1 => Phase::Finished,
            2 => Phase::Waiting,
            3 => Phase::Negated,
            4 => Phase::Entered,
            5 => Phase::Split,
            _ => Phase::Paired,
        }
    }
}

// A header's words: the place of the part's code byte, the phase, how many packets the slot has, the position above and those below.
#[derive(Clone, Copy)]
pub struct Header {
    pub place: u16,
    pub phase: Phase,
    pub count: u16,
    pub up: u16,
    pub left: u16,
    pub right: u16,
}

// Header i read.
#[tactic(auto, unfolding(crate::specs::Words::header_at))]
pub fn head(work: &Words, i: usize) -> Header
    requires { i < positions }
    ensures { result ≡ header_at work.now i }
{
    let b = i * HEAD_WORDS;
    Header {
        place: work[b],
        phase: Phase::from(work[b + 1]),
        count: work[b + 2],
        up: work[b + 3],
        left: work[b + 4],
        right: work[b + 5],
    }
}

// Header i written.
pub fn put_head(work: &mut Words, i: usize, h: Header)
    requires { i < positions }
    ensures { Headed work.old work.new i h }
{
    let b = i * HEAD_WORDS;
    work[b] = h.place;
    work[b + 1] = u16::from(h.phase);
    work[b + 2] = h.count;
    work[b + 3] = h.up;
    work[b + 4] = h.left;
    work[b + 5] = h.right;
}

// Header i of a position that is finished with so many packets.
pub fn finish(work: &mut Words, i: usize, up: u16, count: usize)
    requires { (i < positions) × (count ≤ 16) }
    ensures { Headed work.old work.new i (finished_head up count) }
{
    let h = Header {
        place: 0,
        phase: Phase::Finished,
        count: count as u16,
        up,
        left: 0,
        right: 0,
    };
    put_head(work, i, h);
}

// Whether position i is finished.
pub fn done_at(work: &Words, i: usize) -> bool
    requires { i < positions }
    ensures { result ≡ done_at work.now i }
{
    head(work, i).phase == Phase::Finished
}
