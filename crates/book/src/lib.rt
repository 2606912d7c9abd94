// A book's bytes: numbers, the head of a part and its operands, the place after a part, where a body starts, and the tests 1, 2
// and 4 of its layout. What stands where behind a code byte is known here alone. The public functions ask nothing of the bytes.
#![tactic(auto)]

ghost use Rattle.std.specs.Prelude.{◌≡◌, ◌&&◌, suc, ◌+◌, ◌*◌, ◌≤◌, ◌<◌, leb, get_or, length};
ghost use Rattle.rules.specs.Masks.{in_fields};
ghost use Rattle.rules.specs.Books.{masks_fit, most_fields, most_tables, most_bytes};
ghost use Rattle.rules.specs.Reading.{number_at, length_at, reads_at, writes_at, fields_of, tables_of, body_start, masks_right, head_at, after};
ghost use Rattle.rules.specs.Reading.{field_wrong, masks_wrong, table_wrong, operands_wrong, operands_at, read_operands};
ghost use Rattle.book.specs.Operands.{WrongPlace, Within};

use rules::{BESIDE, Head, ID, MOST_BYTES, MOST_FIELDS, MOST_TABLES, SET, TABLE, TEST};

// The byte at a place, 0 past the end.
pub fn byte_at(s: &[u8], at: usize) -> u8
    ensures { result ≡ get_or s.now at 0 }
{
    s.get(at).copied().unwrap_or(0)
}

// The two-byte number at a place; 0 past the end.
pub fn number_at(s: &[u8], at: usize) -> u16
    ensures { result ≡ number_at s.now at }
{
    if at < s.len() {
        u16::from_be_bytes([s[at], byte_at(s, at + 1)])
    } else {
        0
    }
}

// The head of the part at a place, less than four bytes from the end. Apart from head_at for speed: by one path of get for
// both, room 3's evaluate takes 13.1 µs instead of 11.4.
fn cut_head(s: &[u8], at: usize) -> Head
    requires { at < length s.now }
    ensures { result ≡ head_at s.now at }
{
    let code = s[at];
    let first = byte_at(s, at + 1);
    let shape = rules::shape_of(code);
    Head {
        code,
        field: first,
        value: number_at(s, at + 2),
        left: first,
        right: byte_at(s, at + 2),
        table: first,
        from: at + 1 + shape.operands,
    }
}

// The head of the part at a place; past the end that of id, and what would follow begins there too.
pub fn head_at(s: &[u8], at: usize) -> Head
    ensures { result ≡ head_at s.now at }
{
    if s.len() <= at {
        return Head {
            code: ID,
            field: 0,
            value: 0,
            left: 0,
            right: 0,
            table: 0,
            from: at,
        };
    }
    if s.len() - at < 4 {
        return cut_head(s, at);
    }
    let code = s[at];
    let first = s[at + 1];
    let second = s[at + 2];
    let shape = rules::shape_of(code);
    Head {
        code,
        field: first,
        value: u16::from_be_bytes([second, s[at + 3]]),
        left: first,
        right: second,
        table: first,
        from: at + 1 + shape.operands,
    }
}

// ---- operands: the place of the first that is there and cannot stand. That a part stands there is tested once, in `read_operands`.

// A field of k or more.
fn field_wrong(s: &[u8], at: usize) -> Option<usize>
    requires { at < length s.now }
    ensures { WrongPlace s.now at (field_wrong (fields_of s.now) (operands_at s.now 2 at)) result }
{
    if at + 1 < s.len() && s[0] <= s[at + 1] {
        Some(at + 1)
    } else {
        None
    }
}

// A mask with a bit at k or above; one that is not there has no bit.
fn masks_wrong(s: &[u8], at: usize) -> Option<usize>
    requires { at < length s.now }
    ensures { WrongPlace s.now at (masks_wrong (fields_of s.now) (operands_at s.now 7 at)) result }
{
    if !small_mask(byte_at(s, at + 1), s[0]) {
        return Some(at + 1);
    }
    if small_mask(byte_at(s, at + 2), s[0]) {
        None
    } else {
        Some(at + 2)
    }
}

// A table number outside 1 to m.
fn table_wrong(s: &[u8], at: usize) -> Option<usize>
    requires { at < length s.now }
    ensures { WrongPlace s.now at (table_wrong (tables_of s.now) (operands_at s.now 8 at)) result }
{
    if at + 1 < s.len() && !(1..=s[1]).contains(&s[at + 1]) {
        Some(at + 1)
    } else {
        None
    }
}

fn operand_wrong(s: &[u8], code: u8, at: usize) -> Option<usize>
    requires { at < length s.now }
    ensures { WrongPlace s.now at
        (operands_wrong (fields_of s.now) (tables_of s.now) code (operands_at s.now code at)) result }
{
    match code {
        TEST | SET => field_wrong(s, at),
        BESIDE => masks_wrong(s, at),
        TABLE => table_wrong(s, at),
        _ => None,
    }
}

// The operands of a code that stands at a place, judged together: where they end, the place of the first that cannot stand, or the
// end of the bytes where they are cut.
pub fn read_operands(s: &[u8], code: u8, at: usize) -> Result<usize, usize>
    ensures read { result ≡ read_operands s.now (fields_of s.now) (tables_of s.now) code at }
    ensures within { Within (length s.now) result }
{
    if s.len() <= at {
        return Err(s.len());
    }
    if let Some(wrong) = operand_wrong(s, code, at) {
        return Err(wrong);
    }
    let end = at + 1 + rules::shape_of(code).operands;
    if s.len() < end { Err(s.len()) } else { Ok(end) }
}

// The place after the part at a place, at most depth deep. Past the end and below the depth stands nothing. The evaluator looks for a table
// and the machine marks ends on the same way down: each with a question of its own, which a closure would put into every clause.
pub fn place_after(s: &[u8], at: usize, depth: usize) -> usize
    ensures { result ≡ after s.now depth at }
{
    if depth == 0 {
        return at;
    }
    let h = head_at(s, at);
    let shape = rules::shape_of(h.code);
    match shape.parts {
        0 => h.from,
        1 => place_after(s, h.from, depth - 1),
        _ => {
            let middle = place_after(s, h.from, depth - 1);
            place_after(s, middle, depth - 1)
        }
    }
}

// The length of the body of entry x, as its contents state it.
pub fn length_of(s: &[u8], x: u8) -> usize
    ensures length { result ≡ length_at s.now x }
    ensures small { result ≤ 65535 }
{
    usize::from(number_at(s, 2 + 4 * usize::from(x)))
}

// The masks R and W of entry x.
pub fn reads_of(s: &[u8], x: u8) -> u8
    ensures { result ≡ reads_at s.now x }
{
    byte_at(s, 4 + 4 * usize::from(x))
}

pub fn writes_of(s: &[u8], x: u8) -> u8
    ensures { result ≡ writes_at s.now x }
{
    byte_at(s, 5 + 4 * usize::from(x))
}

// Where the body of entry x starts, by the stated lengths.
pub fn body_start(s: &[u8], x: u8) -> usize
    ensures place { result ≡ body_start s.now x }
    ensures small { result ≤ 1026 + 65535 * x }
{
    let mut at = 6 + 4 * usize::from(byte_at(s, 1));
    for i in 0..x {
        at += length_of(s, i);
    }
    at
}

// A mask with no bit at k or above.
pub fn small_mask(b: u8, k: u8) -> bool
    ensures { result ≡ in_fields k b }
{
    MOST_FIELDS <= k || b < 1 << k
}

// Have the masks of entry x no common field and no bit at k or above?
fn entry_masks(book: &[u8], x: u8, k: u8) -> bool
    ensures { result ≡ masks_fit k (reads_at book.now x) (writes_at book.now x) }
{
    let r = reads_of(book, x);
    let w = writes_of(book, x);
    r & w == 0 && small_mask(r, k) && small_mask(w, k)
}

// The masks of all entries, populated or not.
pub fn masks_right(book: &[u8]) -> bool
    ensures { result ≡ masks_right book.now (suc (tables_of book.now)) 0 }
{
    let k = byte_at(book, 0);
    for x in 0..=byte_at(book, 1) {
        if !entry_masks(book, x, k) {
            return false;
        }
    }
    true
}

// 2 to 4,096 bytes (1).
pub fn length_right(n: usize) -> bool
    ensures { result ≡ (leb 2 n && leb n most_bytes) }
{
    (2..=MOST_BYTES).contains(&n)
}

// 1 to 8 fields, at most 15 tables (2).
pub fn counts_right(k: u8, m: u8) -> bool
    ensures { result ≡ (leb 1 k && (leb k most_fields && leb m most_tables)) }
{
    (1..=MOST_FIELDS).contains(&k) && m <= MOST_TABLES
}
