// Packet sets (document 01, "Packets and sets"): what is done to the packets of a lent array with room for 16, in place: kept, set, put in,
// joined, taken away and paired. A row has R places; no function works on the places. A set by value stands in packet_set. Here stand a
// slice and a count, since the array is that of a set by value or a part of the lent area; where packets are too many the answer is None,
// of which PacketSet makes TooWide.
#![tactic(auto)]

mod packet_set;

ghost use Rattle.std.specs.Prelude.{◌≡◌, true, [], map, ◌+◌, ◌<◌, ◌≤◌, length, take, get_or};
ghost use Rattle.std.proofs.Math.Seq.{slice};
ghost use Rattle.rules.specs.Masks.{all_fields};
ghost use Rattle.rules.specs.Packets.{places, most_packets, Ascending, passes, put, keep, gathered, union, lacks, mix, pairs};
ghost use Rattle.rows.specs.Chunks.{rows_of, Array, Packed, Held, Fits};
ghost use Rattle.sets.specs.Lists.{Placed, Inserted, Joined, Changed, Zeroed, Raised, Lowered, Apart, to_first, from_first};

pub use packet_set::{PacketSet, TooWide};
use rows::MOST;
use std::cmp::Ordering;

// The places of a row, and the words of sixteen rows.
pub const PLACES: usize = 8;

const WORDS: usize = MOST * PLACES;

// A packet's row by itself.
pub type Row = [u16; PLACES];

pub type Values = [u16; WORDS];

// The mask of the fields 0 to k - 1.
pub fn all_fields(k: usize) -> u8
    requires { k ≤ places }
    ensures { result ≡ all_fields k }
{
    if k < PLACES { (1u8 << k) - 1 } else { u8::MAX }
}

// The packets that a test passes, moved to the front; gives how many they are.
pub fn keep_in<const R: usize>(v: &mut [u16], n: usize, f: usize, x: u16) -> usize
    requires { Packed R v.old n }
    ensures { Held R v.new result (keep (passes f x) (take n (rows_of R v.old))) }
{
    let mut k = 0;
    for i in 0..n {
        if rows::passes_at::<R>(v, i, f, x) {
            rows::move_row::<R>(v, k, i);
            k += 1;
        }
    }
    rows::clear_rows::<R>(v, k, n);
    k
}

// Rows i to n - 1, h places up, from the last on.
fn raise<const R: usize>(v: &mut [u16], i: usize, n: usize, h: usize)
    requires { (i ≤ n) × (n + h ≤ most_packets) × Array R v.old }
    ensures { Raised R v.new v.old i n h }
{
    // By row, as the contract speaks; copy_within would name words, which this crate does not.
    for j in (i..n).rev() {
        rows::move_row::<R>(v, j + h, j);
    }
}

// How row i of a, whose packets end at e, lies to row j of b; after it, where a has no more.
fn weigh<const R: usize>(a: &[u16], i: usize, e: usize, b: &[u16], j: usize) -> Ordering
    requires { (i ≤ e) × (e ≤ most_packets) × (j < most_packets) × Array R a.now × Array R b.now }
    ensures { result ≡ from_first (slice i e (rows_of R a.now)) (get_or (rows_of R b.now) j []) }
{
    if i < e {
        rows::order_row::<R>(rows::row(a, i), b, j)
    } else {
        Ordering::Greater
    }
}

// Rows i to e - 1, moved down to row k, and zeros up to e; gives where they end.
fn lower<const R: usize>(v: &mut [u16], k: usize, i: usize, e: usize) -> usize
    requires { (k ≤ i) × (i ≤ e) × (e ≤ most_packets) × Array R v.old }
    ensures { Lowered R v.new v.old k i e result }
{
    if k == i {
        return e;
    }
    for a in i..e {
        rows::move_row::<R>(v, k + (a - i), a);
    }
    let c = k + (e - i);
    rows::clear_rows::<R>(v, c, e);
    c
}

// The packets that stand from row h to row e, merged with the first m of b, from row 0 on: what is merged never reaches what is still to
// be merged, unless they are more than 16. Gives how many they are, or none and zeros, where they are more than 16.
fn merge_in<const R: usize>(v: &mut [u16], h: usize, e: usize, b: &[u16], m: usize) -> Option<usize>
    requires { Apart R v.old h e m × Packed R b.now m }
    ensures { Fits R v.new result (union (slice h e (rows_of R v.old)) (take m (rows_of R b.now))) }
{
    let mut i = h;
    let mut j = 0;
    let mut k = 0;
    // Two lists at once, into the first of them: a turn goes on in one or in both, as no iterator of the library does.
    while j < m {
        let o = weigh::<R>(v, i, e, b, j);
        match o {
            Ordering::Less => {
                rows::move_row::<R>(v, k, i);
                i += 1;
                k += 1;
            }
            Ordering::Equal => {
                rows::move_row::<R>(v, k, i);
                i += 1;
                j += 1;
                k += 1;
            }
            Ordering::Greater => {
                if k == i {
                    rows::clear_rows::<R>(v, 0, e);
                    return None;
                }
                rows::put_row::<R>(v, k, rows::row(b, j));
                j += 1;
                k += 1;
            }
        }
    }
    Some(lower::<R>(v, k, i, e))
}

// The packets of v and of b, in v; gives how many they are, or none and zeros, where they are more than 16. There is no other room.
pub fn union_in<const R: usize>(v: &mut [u16], n: usize, b: &[u16], m: usize) -> Option<usize>
    requires { Packed R v.old n × Packed R b.now m }
    ensures { Fits R v.new result (union (take n (rows_of R v.old)) (take m (rows_of R b.now))) }
{
    let e = MOST.min(n + m);
    raise::<R>(v, 0, n, e - n);
    merge_in::<R>(v, e - n, e, b, m)
}

// Before which of the first k packets of w p goes, from the last on; none, if it is there.
fn place_in<const R: usize>(w: &[u16], k: usize, p: &[u16; R]) -> Option<usize>
    requires { (k ≤ most_packets) × Array R w.now × Ascending (take k (rows_of R w.now)) }
    ensures { Placed p.now (take k (rows_of R w.now)) result }
{
    for i in (0..k).rev() {
        let o = rows::order_row::<R>(p, w, i);
        match o {
            Ordering::Greater => return Some(i + 1),
            Ordering::Equal => return None,
            Ordering::Less => {}
        }
    }
    Some(0)
}

// The first R values of p put in their place among the first k packets; gives how many they are then. Where they would be 17, it gives none
// and the array stays; rows after row k stay in any case.
pub fn insert_in<const R: usize>(w: &mut [u16], k: usize, p: &[u16]) -> Option<usize>
    requires { (k ≤ most_packets) × (R ≤ length p.now) × Array R w.old × Ascending (take k (rows_of R w.old)) }
    ensures { Inserted R w.new w.old k (take R p.now) result }
{
    let row: &[u16; R] = p.first_chunk().unwrap();
    // Where there is no room, no place is asked for: p is there, or they would be 17.
    if MOST <= k {
        return rows::has_row::<R>(w, k, row).then_some(k);
    }
    let Some(i) = place_in::<R>(w, k, row) else {
        return Some(k);
    };
    raise::<R>(w, i, k, 1);
    rows::put_row(w, i, row);
    Some(k + 1)
}

// "set field to value" at each of the first n rows; they may be out of order then.
fn write_in<const R: usize>(v: &mut [u16], n: usize, f: usize, x: u16)
    requires { (f < R) × (n ≤ most_packets) × Array R v.old }
    ensures { Changed R v.new v.old n (put f x) }
{
    for i in 0..n {
        rows::put_at::<R>(v, i, f, x);
    }
}

// The first n rows ascend, from the last on; false may say nothing.
fn ascends<const R: usize>(v: &[u16], n: usize) -> bool
    requires { (n ≤ most_packets) × Array R v.now }
    ensures { result ≡ true → Ascending (take n (rows_of R v.now)) }
{
    for i in (1..n).rev() {
        let o = rows::order_row::<R>(rows::row(v, i - 1), v, i);
        match o {
            Ordering::Less => {}
            Ordering::Equal => return false,
            Ordering::Greater => return false,
        }
    }
    true
}

// The first n rows, in whatever order, put in their places; what is equal is one. Each is put among those before it, where they stand.
fn gather_in<const R: usize>(v: &mut [u16], n: usize) -> usize
    requires { Zeroed R v.old n }
    ensures { Held R v.new result (gathered (take n (rows_of R v.old))) }
{
    let mut k = 0;
    for j in 0..n {
        let p: [u16; R] = *rows::row(v, j);
        k = insert_in::<R>(v, k, &p).unwrap();
    }
    rows::clear_rows::<R>(v, k, n);
    k
}

// The packets with a field set; what becomes equal is one. Where they still ascend, nothing but that field is touched.
pub fn set_in<const R: usize>(v: &mut [u16], n: usize, f: usize, x: u16) -> usize
    requires { Packed R v.old n }
    ensures { Held R v.new result (gathered (map (put f x) (take n (rows_of R v.old)))) }
{
    if R <= f {
        return n;
    }
    write_in::<R>(v, n, f, x);
    if ascends::<R>(v, n) {
        return n;
    }
    gather_in::<R>(v, n)
}

// How row i of a lies to row j of b, which has m packets; before it, where b has no more.
fn weigh_out<const R: usize>(a: &[u16], i: usize, b: &[u16], j: usize, m: usize) -> Ordering
    requires { (i < most_packets) × (j ≤ m) × (m ≤ most_packets) × Array R a.now × Array R b.now }
    ensures { result ≡ to_first (get_or (rows_of R a.now) i []) (slice j m (rows_of R b.now)) }
{
    if j < m {
        rows::order_row::<R>(rows::row(a, i), b, j)
    } else {
        Ordering::Less
    }
}

// The packets of v that are not in b, moved to the front; gives how many they are.
pub fn difference_in<const R: usize>(v: &mut [u16], n: usize, b: &[u16], m: usize) -> usize
    requires { Packed R v.old n × Packed R b.now m }
    ensures { Held R v.new result (keep (lacks (take m (rows_of R b.now))) (take n (rows_of R v.old))) }
{
    let mut i = 0;
    let mut j = 0;
    let mut k = 0;
    // Both lists once, since both ascend: a turn goes on in one or in both, as no iterator of the library does.
    while i < n {
        let o = weigh_out::<R>(v, i, b, j, m);
        match o {
            Ordering::Less => {
                rows::move_row::<R>(v, k, i);
                i += 1;
                k += 1;
            }
            Ordering::Equal => {
                i += 1;
                j += 1;
            }
            Ordering::Greater => j += 1,
        }
    }
    rows::clear_rows::<R>(v, k, n);
    k
}

// The pairings of row i of a with the first m packets of y, put among the first k of v; gives how many they are then, if 16 or fewer.
fn pair_in<const R: usize>(
    v: &mut [u16],
    k: usize,
    a: &[u16],
    i: usize,
    y: &[u16],
    m: usize,
    w: u16,
) -> Option<usize>
    requires { (i < most_packets) × Packed R v.old k × Array R a.now × Packed R y.now m }
    ensures { Joined R v.new v.old k
        (map (mix w (get_or (rows_of R a.now) i [])) (take m (rows_of R y.now))) result }
{
    let mut c = k;
    for j in 0..m {
        let q: [u16; R] = rows::mixed(w, rows::row(a, i), rows::row(y, j));
        c = insert_in::<R>(v, c, &q)?;
    }
    Some(c)
}

// Every pairing of a packet of a and one of b, put into an array of zeros.
fn pair_all<const R: usize>(
    v: &mut [u16],
    a: &[u16],
    n: usize,
    b: &[u16],
    m: usize,
    w: u16,
) -> Option<usize>
    requires { Held R v.old 0 [] × Packed R a.now n × Packed R b.now m }
    ensures { Fits R v.new result (pairs w (take n (rows_of R a.now)) (take m (rows_of R b.now))) }
{
    let mut k = 0;
    for i in 0..n {
        let Some(c) = pair_in::<R>(v, k, a, i, b, m, w) else {
            rows::clear_rows::<R>(v, 0, MOST);
            return None;
        };
        k = c;
    }
    Some(k)
}

// The pairing of the first packets of a and b, put into an array of zeros.
fn pair_one<const R: usize>(v: &mut [u16], a: &[u16], b: &[u16], w: u16) -> Option<usize>
    requires { Held R v.old 0 [] × Array R a.now × Array R b.now }
    ensures { Fits R v.new result (pairs w (take 1 (rows_of R a.now)) (take 1 (rows_of R b.now))) }
{
    let q: [u16; R] = rows::mixed(w, rows::row(a, 0), rows::row(b, 0));
    rows::put_row(v, 0, &q);
    Some(1)
}

// Every pairing of a packet of a and one of b, put into an array of zeros: the fields w from b's, all others from a's. Of one and one
// nothing is compared. Gives how many they are, or none and the zeros, where they are more than 16.
pub fn pairs_into<const R: usize>(
    v: &mut [u16],
    a: &[u16],
    n: usize,
    b: &[u16],
    m: usize,
    w: u16,
) -> Option<usize>
    requires { Held R v.old 0 [] × Packed R a.now n × Packed R b.now m }
    ensures { Fits R v.new result (pairs w (take n (rows_of R a.now)) (take m (rows_of R b.now))) }
{
    if n == 1 && m == 1 {
        pair_one::<R>(v, a, b, w)
    } else {
        pair_all::<R>(v, a, n, b, m, w)
    }
}
