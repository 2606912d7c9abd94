// Rows of 8 to 16 values in slices of sixteen rows: read, written, compared and changed. The width R is a const parameter, so that a row
// is an array, which is read where it stands and moves as a whole. The sixteen rows are a slice: the array of a set by value or a part of
// the lent area; that they are sixteen of a right width is what `Array` says.
#![tactic(auto)]

ghost use Rattle.std.specs.Prelude.{◌≡◌, cond, [], ◌++◌, ◌*◌, ◌<◌, ◌≤◌, length, take, drop, get_or};
ghost use Rattle.rules.specs.Packets.{places, most_packets, padded, order_of, member, passes, put, mix, without, values_of};
ghost use Rattle.rules.specs.Masks.{has};
ghost use Rattle.rows.specs.Chunks.{rows_of, widest, Array, Stored, Copied, Cleared};
ghost use Rattle.rows.specs.Arrays.{Emitted};

use std::cmp::Ordering;

// The most packets of a set, which are the rows of an array.
pub const MOST: usize = 16;

// Row i.
pub fn row<const R: usize>(v: &[u16], i: usize) -> &[u16; R]
    requires { (i < most_packets) × Array R v.now }
    ensures { result.now ≡ get_or (rows_of R v.now) i [] }
{
    &v.as_chunks().0[i]
}

// A row by itself put at row k.
pub fn put_row<const R: usize>(w: &mut [u16], k: usize, p: &[u16; R])
    requires { (k < most_packets) × Array R w.old }
    ensures { Stored R w.new w.old k p.now }
{
    let a = k * R;
    // By value, which is one store: with copy_from_slice here and in copy_rows 4 nested concurrent parts took 7.2 and not 5.3 microseconds.
    for f in 0..R {
        w[a + f] = p[f];
    }
}

// Row j put at row k too.
pub fn move_row<const R: usize>(v: &mut [u16], k: usize, j: usize)
    requires { (k < most_packets) × (j < most_packets) × Array R v.old }
    ensures { Stored R v.new v.old k (get_or (rows_of R v.old) j []) }
{
    let p: [u16; R] = *row(v, j);
    put_row(v, k, &p);
}

// The first n rows of v put at the first n of w.
pub fn copy_rows<const R: usize>(w: &mut [u16], v: &[u16], n: usize)
    requires { (n ≤ most_packets) × Array R w.old × Array R v.now }
    ensures { Copied R w.new w.old v.now n }
{
    // By row, and not all words by one copy_from_slice: see put_row.
    for i in 0..n {
        put_row(w, i, row::<R>(v, i));
    }
}

// Zeros for rows k to n - 1.
pub fn clear_rows<const R: usize>(v: &mut [u16], k: usize, n: usize)
    requires { (k ≤ n) × (n ≤ most_packets) × Array R v.old }
    ensures { Cleared R v.new v.old k n }
{
    v[k * R..n * R].fill(0);
}

// How a row by itself lies to row j.
pub fn order_row<const R: usize>(p: &[u16; R], w: &[u16], j: usize) -> Ordering
    requires { (j < most_packets) × Array R w.now }
    ensures { result ≡ order_of p.now (get_or (rows_of R w.now) j []) }
{
    p.cmp(row(w, j))
}

// Whether a row by itself is one of the first n.
pub fn has_row<const R: usize>(v: &[u16], n: usize, p: &[u16; R]) -> bool
    requires { (n ≤ most_packets) × Array R v.now }
    ensures { result ≡ member p.now (take n (rows_of R v.now)) }
{
    v.as_chunks().0[..n].contains(p)
}

// "test field = value" passes at row i.
pub fn passes_at<const R: usize>(v: &[u16], i: usize, f: usize, x: u16) -> bool
    requires { (i < most_packets) × Array R v.now }
    ensures { result ≡ passes f x (get_or (rows_of R v.now) i []) }
{
    row::<R>(v, i).get(f).copied().unwrap_or(0) == x
}

// "set field to value" at row i.
pub fn put_at<const R: usize>(v: &mut [u16], i: usize, f: usize, x: u16)
    requires { (i < most_packets) × (f < R) × Array R v.old }
    ensures { Stored R v.new v.old i (put f x (get_or (rows_of R v.old) i [])) }
{
    v[i * R + f] = x;
}

// The value of a field: y if the field is in w, else x.
fn pick(w: u16, f: usize, x: u16, y: u16) -> u16
    requires { f < widest }
    ensures { result ≡ cond (has w f) y x }
{
    if (w >> f) % 2 == 1 { y } else { x }
}

// The fields of p, but those of w from q.
pub fn mixed<const R: usize>(w: u16, p: &[u16; R], q: &[u16; R]) -> [u16; R]
    requires { R ≤ widest }
    ensures { result ≡ mix w p.now q.now }
{
    let mut t = *p;
    for f in 0..R {
        t[f] = pick(w, f, p[f], q[f]);
    }
    t
}

// A row by itself, without the fields of w.
pub fn bare<const R: usize>(w: u16, p: &[u16; R]) -> [u16; R]
    requires { R ≤ widest }
    ensures { result ≡ without w p.now }
{
    mixed(w, p, &[0u16; R])
}

// The words of a packet that comes in, and zeros after them.
pub fn padded(packet: &[u16]) -> [u16; 8]
    requires { length packet.now ≤ places }
    ensures { result ≡ padded packet.now }
{
    let mut p = [0u16; 8];
    p[..packet.len()].copy_from_slice(packet);
    p
}

// The first k values of each of the first n rows of v, at the front of a lent slice.
fn put_rows<const R: usize>(v: &[u16], n: usize, k: usize, out: &mut [u16])
    requires { (k ≤ R) × (n ≤ most_packets) × (n * k ≤ length out.old) × Array R v.now }
    ensures { out.new ≡ values_of k (take n (rows_of R v.now)) ++ drop (n * k) out.old }
{
    for i in 0..n {
        let at = i * k;
        // By value: two slices of which LLVM cannot see that they are apart would want a memmove from outside.
        let p: [u16; R] = *row(v, i);
        out[at..at + k].copy_from_slice(&p[..k]);
    }
}

// The first k values of each of the first n rows of v, one row after the other, at the front of a lent slice, if they fit there.
pub fn emit_rows<const R: usize>(v: &[u16], n: usize, k: usize, out: &mut [u16]) -> bool
    requires { (n ≤ most_packets) × Array R v.now }
    ensures { Emitted result (values_of k (take n (rows_of R v.now))) out.old out.new }
{
    let c = k.min(R);
    if out.len() < n * c {
        return false;
    }
    put_rows::<R>(v, n, c, out);
    true
}
