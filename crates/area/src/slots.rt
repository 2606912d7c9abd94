// The slots: packets copied from one to another, and a set changed where it stands.
ghost use Rattle.std.specs.Prelude.{◌≡◌, map, ◌<◌, ◌≤◌, drop};
ghost use Rattle.rules.specs.Packets.{most_packets, values_of, passes, put, keep, gathered};
ghost use Rattle.rows.specs.Arrays.{Emitted};
ghost use Rattle.area.specs.Words.{positions, slot_range, rows_at, packet_at, Rowed, Slotted, Filled, HasSet, Tidied};

use crate::{MOST_PACKETS, ROW_WORDS, SLOT_WORDS, SLOTS_FROM, Words};
use std::ops::Range;

// Where the words of slot i stand.
pub fn slot_range(i: usize) -> Range<usize>
    requires { i < positions }
    ensures { result ≡ slot_range i }
{
    let from = SLOTS_FROM + i * SLOT_WORDS;
    from..from + SLOT_WORDS
}

// A packet by itself put as the first of slot i.
pub fn put_packet(work: &mut Words, i: usize, p: [u16; ROW_WORDS])
    requires { i < positions }
    ensures { Rowed work.old work.new i 0 p }
{
    rows::put_row(&mut work[slot_range(i)], 0, &p);
}

// The first k values of each of the n packets of slot i written out, where there is room.
pub fn emit_packets(work: &Words, i: usize, n: usize, k: usize, out: &mut [u16]) -> bool
    requires { (i < positions) × (n ≤ most_packets) }
    ensures { Emitted result (values_of k (rows_at work.now i n)) out.old out.new }
{
    rows::emit_rows::<ROW_WORDS>(&work[slot_range(i)], n, k, out)
}

// Packet m of slot j put as packet k of slot i too.
pub fn move_packet(work: &mut Words, i: usize, k: usize, j: usize, m: usize)
    requires { (i < positions) × (k < most_packets) × (j < positions) × (m < most_packets) }
    ensures { Rowed work.old work.new i k (packet_at work.old j m) }
{
    let p: [u16; ROW_WORDS] = *rows::row(&work[slot_range(j)], m);
    rows::put_row(&mut work[slot_range(i)], k, &p);
}

// Packets m to n - 1 of slot i put at the front of another slot j. Packet by packet, each one move of eight words: `copy_within` moves
// word by word, and with it a step at room 3 took 2.2 times the plain program's, and takes 1.9 so.
pub fn copy_packets(work: &mut Words, i: usize, m: usize, j: usize, n: usize)
    requires { (i < positions) × (j < positions) × (i ≡ j → ⊥) × (m ≤ n) × (n ≤ most_packets) }
    ensures { Slotted work.old work.new j (drop m (rows_at work.old i n)) }
{
    for k in 0..n - m {
        move_packet(work, j, k, i, m + k);
    }
}

// The first n packets of slot i put at the front of slot j.
pub fn copy_set(work: &mut Words, i: usize, j: usize, n: usize)
    requires { (i < positions) × (j < positions) × (n ≤ most_packets) }
    ensures { Slotted work.old work.new j (rows_at work.old i n) }
{
    if i != j {
        copy_packets(work, i, 0, j, n);
    }
}

// Zeros after the first n packets of slot i.
pub fn tidy(work: &mut Words, i: usize, n: usize)
    requires { HasSet work.old i n }
    ensures { Tidied work.old work.new i n }
{
    rows::clear_rows::<ROW_WORDS>(&mut work[slot_range(i)], n, MOST_PACKETS);
}

// How many of the one packet of slot i pass a test. One packet alone is looked at where it stands; nothing is cleared or copied for it.
fn keep_one(work: &Words, i: usize, f: usize, x: u16) -> usize
    requires { i < positions }
    ensures { Filled work.now work.now i result (keep (passes f x) (rows_at work.now i 1)) }
{
    if rows::passes_at::<ROW_WORDS>(&work[slot_range(i)], 0, f, x) {
        1
    } else {
        0
    }
}

// The n packets of slot i that pass a test, where they stand. Gives how many they are.
pub fn keep_packets(work: &mut Words, i: usize, n: usize, f: usize, x: u16) -> usize
    requires { HasSet work.old i n }
    ensures { Filled work.old work.new i result (keep (passes f x) (rows_at work.old i n)) }
{
    if n == 1 {
        return keep_one(work, i, f, x);
    }
    tidy(work, i, n);
    sets::keep_in::<ROW_WORDS>(&mut work[slot_range(i)], n, f, x)
}

// The one packet of slot i with a field set.
fn set_one(work: &mut Words, i: usize, f: usize, x: u16)
    requires { i < positions }
    ensures { Filled work.old work.new i 1 (gathered (map (put f x) (rows_at work.old i 1))) }
{
    if f < ROW_WORDS {
        rows::put_at::<ROW_WORDS>(&mut work[slot_range(i)], 0, f, x);
    }
}

// The n packets of slot i with a field set, where they stand; what becomes equal is one. Gives how many they are.
pub fn set_packets(work: &mut Words, i: usize, n: usize, f: usize, x: u16) -> usize
    requires { HasSet work.old i n }
    ensures { Filled work.old work.new i result (gathered (map (put f x) (rows_at work.old i n))) }
{
    if n == 1 {
        set_one(work, i, f, x);
        return 1;
    }
    tidy(work, i, n);
    sets::set_in::<ROW_WORDS>(&mut work[slot_range(i)], n, f, x)
}
