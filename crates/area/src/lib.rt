// The words of the working area: positions that never move, each with a header and a slot of packets; a list of ready numbers and one
// of free numbers. The layout is two numbers, and what follows from them. Positions are numbers and no boxes, and the lists have their
// lengths outside: the area is lent, its layout is fixed, and a run asks for no memory. A number is shown to be a position's where it is
// used: read from a word of the area, it would have to be shown to be one before a type could say it. Places, positions and counts are
// cast to words: the contracts keep them small, so that `try_from` would add a path that is never taken.
#![tactic(auto)]

mod headers;
mod joins;
mod lists;
mod slots;

pub use headers::{Header, Phase, finish, head, put_head};
pub use joins::{bare_packet, lack_slots, pair_slots, union_slots};
pub use lists::{Ready, give_back, ready_at, relist, take_free};
pub use slots::{copy_packets, copy_set, emit_packets, keep_packets, put_packet, set_packets};

// How many positions there are, and how many words a packet has.
pub const POSITIONS: usize = 160;

pub const ROW_WORDS: usize = 8;

// The most packets of a set; the words of a header, and of a slot.
const MOST_PACKETS: usize = 16;

const HEAD_WORDS: usize = 6;

const SLOT_WORDS: usize = MOST_PACKETS * ROW_WORDS;

// Where the ready numbers, the free numbers and the slots begin, and where the area ends.
const READY_FROM: usize = POSITIONS * HEAD_WORDS;

const FREE_FROM: usize = READY_FROM + POSITIONS;

const SLOTS_FROM: usize = FREE_FROM + POSITIONS;

pub const AREA_WORDS: usize = SLOTS_FROM + POSITIONS * SLOT_WORDS;

// The words of an area.
pub type Words = [u16; AREA_WORDS];

// No position's number: the word that stands above the root. A number, since it is a word of the lent area; `rise` alone asks for it.
pub const NOBODY: u16 = POSITIONS as u16;
