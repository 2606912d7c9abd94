// Two sets in slots become one: the union and the pairings in a third slot, the difference where the first set stands.
ghost use Rattle.std.specs.Prelude.{◌≡◌, ◌+◌, ◌<◌, ◌≤◌, length};
ghost use Rattle.rules.specs.Packets.{most_packets, order_of, without, keep, lacks, union, pairs, mix};
ghost use Rattle.rows.specs.Chunks.{Held};
ghost use Rattle.area.specs.Words.{positions, row_words, rows_at, packet_at, Rowed, Filled, HasSet, Three};
ghost use Rattle.area.specs.Joins.{Leads};

use crate::slots::{move_packet, slot_range, tidy};
use crate::{ROW_WORDS, SLOT_WORDS, Words};
use std::cmp::Ordering;

// The n packets of slot i in an array of their own, zeros after them.
fn copy_out(work: &Words, i: usize, n: usize) -> [u16; SLOT_WORDS]
    requires { HasSet work.now i n }
    ensures { Held row_words result n (rows_at work.now i n) }
{
    let mut v = [0u16; SLOT_WORDS];
    rows::copy_rows::<ROW_WORDS>(&mut v, &work[slot_range(i)], n);
    v
}

// The n packets of slot i without the m of slot c, where they stand. Gives how many they are.
pub fn lack_slots(work: &mut Words, i: usize, n: usize, c: usize, m: usize) -> usize
    requires { HasSet work.old i n × HasSet work.old c m }
    ensures { Filled work.old work.new i result
        (keep (lacks (rows_at work.old c m)) (rows_at work.old i n)) }
{
    let b = copy_out(work, c, m);
    tidy(work, i, n);
    sets::difference_in::<ROW_WORDS>(&mut work[slot_range(i)], n, &b, m)
}

// The first packet of slot l, but its fields w from that of slot r, as the first packet of slot i.
fn pair_one(work: &mut Words, i: usize, l: usize, r: usize, w: u16)
    requires { (i < positions) × (l < positions) × (r < positions) }
    ensures { Rowed work.old work.new i 0
        (mix w (packet_at work.old l 0) (packet_at work.old r 0)) }
{
    let words: &Words = work;
    let p: [u16; ROW_WORDS] = rows::mixed(
        w,
        rows::row(&words[slot_range(l)], 0),
        rows::row(&words[slot_range(r)], 0),
    );
    rows::put_row(&mut work[slot_range(i)], 0, &p);
}

// The first packet of slot i without the fields w, as the first packet of slot j.
pub fn bare_packet(work: &mut Words, i: usize, j: usize, w: u16)
    requires { (i < positions) × (j < positions) }
    ensures { Rowed work.old work.new j 0 (without w (packet_at work.old i 0)) }
{
    let p: [u16; ROW_WORDS] = rows::bare(w, rows::row(&work[slot_range(i)], 0));
    rows::put_row(&mut work[slot_range(j)], 0, &p);
}

// Every pairing of one of the a packets of slot l and one of the b of slot r, in slot i: the fields w from the latter. Gives how many.
pub fn pair_slots(
    work: &mut Words,
    i: usize,
    l: usize,
    r: usize,
    a: usize,
    b: usize,
    w: u16,
) -> usize
    requires { Three work.old i l r a b × (length (pairs w (rows_at work.old l a) (rows_at work.old r b)) ≤ most_packets) }
    ensures { Filled work.old work.new i result
        (pairs w (rows_at work.old l a) (rows_at work.old r b)) }
{
    if a == 1 && b == 1 {
        pair_one(work, i, l, r, w);
        return 1;
    }
    let x = copy_out(work, l, a);
    let y = copy_out(work, r, b);
    tidy(work, i, 0);
    sets::pairs_into::<ROW_WORDS>(&mut work[slot_range(i)], &x, a, &y, b, w).unwrap()
}

// How packet x of slot l lies to packet y of slot r.
fn order_packets(work: &Words, l: usize, x: usize, r: usize, y: usize) -> Ordering
    requires { (l < positions) × (x < most_packets) × (r < positions) × (y < most_packets) }
    ensures { result ≡ order_of (packet_at work.now l x) (packet_at work.now r y) }
{
    rows::order_row::<ROW_WORDS>(rows::row(&work[slot_range(l)], x), &work[slot_range(r)], y)
}

// The next packet of a union: its slot and its row there, and where the two sets go on after it.
#[derive(Clone, Copy)]
struct Next {
    slot: usize,
    row: usize,
    x: usize,
    y: usize,
}

fn taking(slot: usize, row: usize, x: usize, y: usize) -> Next
    ensures { result ≡ record { slot = slot; row = row; x = x; y = y } }
{
    Next { slot, row, x, y }
}

// The next packet of the union of the a packets of slot l, from x on, and the b of slot r, from y on.
fn lead(work: &Words, l: usize, r: usize, a: usize, b: usize, x: usize, y: usize) -> Next
    requires { HasSet work.now l a × HasSet work.now r b × (x ≤ a) × (y ≤ b) × (x + y < a + b) }
    ensures { Leads work.now l r a b x y result }
{
    if b <= y {
        return taking(l, x, x + 1, y);
    }
    if a <= x {
        return taking(r, y, x, y + 1);
    }
    let o = order_packets(work, l, x, r, y);
    match o {
        Ordering::Less => taking(l, x, x + 1, y),
        Ordering::Equal => taking(l, x, x + 1, y + 1),
        Ordering::Greater => taking(r, y, x, y + 1),
    }
}

// The a packets of slot l and the b of slot r merged into slot i. Gives how many they are. A `while`, since `lead` alone says which of the
// two sets goes on, or both.
pub fn union_slots(work: &mut Words, i: usize, l: usize, r: usize, a: usize, b: usize) -> usize
    requires { Three work.old i l r a b × (length (union (rows_at work.old l a) (rows_at work.old r b)) ≤ most_packets) }
    ensures { Filled work.old work.new i result
        (union (rows_at work.old l a) (rows_at work.old r b)) }
{
    let mut x = 0;
    let mut y = 0;
    let mut k = 0;
    while x + y < a + b {
        let t = lead(work, l, r, a, b, x, y);
        move_packet(work, i, k, t.slot, t.row);
        x = t.x;
        y = t.y;
        k += 1;
    }
    k
}
