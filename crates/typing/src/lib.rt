// One walk over each body: its form, its parts, its concurrent depth, its masks, its first wrong concurrent part and the uses of
// tables, all in one reading from left to right; then the verdict on a book by arithmetic.
#![tactic(auto)]

ghost use Rattle.std.specs.Prelude.{◌≡◌, ◌+◌, ◌*◌, ◌≤◌, ◌<◌, cond, max, suc, eqb, get_or, length, Some, None, Ok, Err, IfOk};
ghost use Rattle.std.specs.Option.{option_or};
ghost use Rattle.rules.specs.Codes.{operands_of};
ghost use Rattle.rules.specs.Parts.{Id};
ghost use Rattle.rules.specs.Masks.{within, apart};
ghost use Rattle.rules.specs.Books.{most_bytes, most_depth};
ghost use Rattle.rules.specs.Typing.{fit_masks};
ghost use Rattle.rules.specs.Reading.{read_operands, fields_of, tables_of, head, built, verdict};
ghost use Rattle.rules.specs.Promises.{AcceptAnswer};
ghost use Rattle.typing.specs.Walking.{state, moved, masked, bare, joined, right_states, begun, body_way, unused, note_use, noting};
ghost use Rattle.typing.specs.Walking.{unpacked, states, answer};
ghost use Rattle.typing.specs.Walking.{tally_of, tallied, fault_after, walked, shut, leafed, leaf_read, leaf_at, Noted};
ghost use Rattle.typing.specs.Walking.{Sound, Kept, Asked, BesideAsked, LeafAsked, Body};
ghost use Rattle.typing.specs.Summing.{Fronted, Cleared, So, Turned, Ends, Ended};

use rules::{
    BESIDE, DROP, ID, MOST_BESIDE, MOST_DEPTH, MOST_PARTS, NOT, Reason, Refusal, SEQUENCE, SET,
    SUM, Sizes, TABLE, TEST,
};

// What stands after a part is one number, so that the walk hands it up in a register: from its low end the place, the parts so far, and T
// and M so far, 16 bits each. A struct of the four goes up through memory: with it accept takes 1.1 times as long on a book of concurrent
// parts.
const WIDTH: u64 = 65536;

// The unit of T, which stands above the place and the parts.
const TESTS: u64 = 4294967296;

// The unit of M, the highest of the four.
const WRITES: u64 = 281474976710656;

// One place and one part more.
const STEP: u64 = 65537;

// How a part stands: whether in a table's body, whether only a predicate may stand there, each asked for by itself, and how many
// concurrent parts are above it.
#[derive(Clone, Copy)]
struct Way {
    in_table: bool,
    predicate: bool,
    level: u16,
}

// How often a table is used, and the deepest concurrent nesting at a use of it. A table that is not used has 0 for both.
#[derive(Clone, Copy)]
struct Use {
    count: u16,
    level: u16,
}

// What a walk notes beside its state: the place of the first concurrent part that is not right, the deepest concurrent nesting, and
// the uses of each table. That there are 16 is in `Kept`, and no ghost field: the specs make notes of their own, and would owe it there.
#[derive(Drop)]
struct Notes {
    fault: Option<usize>,
    deep: u16,
    uses: [Use; 16],
}

// ---- the state

// The place, as an index.
fn place(st: u64) -> usize
    ensures { result ≡ (state st).at }
{
    (st % WIDTH) as usize
}

fn parts(st: u64) -> usize
    ensures { result ≡ (state st).parts }
{
    (st / WIDTH % WIDTH) as usize
}

fn tests(st: u64) -> u64
    ensures { result ≡ (state st).tests }
{
    st / TESTS % WIDTH
}

fn writes(st: u64) -> u64
    ensures { result ≡ (state st).writes }
{
    st / WRITES
}

// Past a code and its operands: one part more.
fn past(st: u64, code: u8) -> u64
    requires { ((state st).at ≤ most_bytes) × ((state st).parts ≤ most_bytes) }
    ensures { state result ≡ moved (operands_of code) (state st) }
{
    let shape = rules::shape_of(code);
    st + STEP + shape.operands as u64
}

// The same with no masks.
fn bare(st: u64) -> u64
    ensures { state result ≡ bare (state st) }
{
    st % TESTS
}

// The same with masks that both fit in 16 bits.
fn with_both(st: u64, t: u64, m: u64) -> u64
    requires { (t < 65536) × (m < 65536) }
    ensures { state result ≡ record { at = (state st).at; parts = (state st).parts; tests = t; writes = m } }
{
    st % TESTS + TESTS * (t + WIDTH * m)
}

// With further fields tested and written.
fn with_masks(st: u64, t: u8, m: u8) -> u64
    ensures { state result ≡ masked t m (state st) }
{
    with_both(st, tests(st) | u64::from(t), writes(st) | u64::from(m))
}

// Both sides' states joined to the state before them.
fn joined(st: u64, l: u64, r: u64, wp: u8, wq: u8) -> u64
    ensures { state result ≡ joined wp wq (state st) (state l) (state r) }
{
    let t = tests(st) | (tests(l) | tests(r));
    with_both(r, t, writes(st) | u64::from(wp | wq))
}

// ---- an answer: a state, or the place of the first byte that cannot stand there

// The place of a refusal stands where a state has its parts, and 0 where a state has its place, which is never 0.
fn refusal(at: usize) -> u64
    requires { at ≤ most_bytes }
    ensures { answer result ≡ Err at }
{
    at as u64 * WIDTH
}

// An answer taken apart.
fn opened(r: u64) -> Result<u64, usize>
    ensures { result ≡ unpacked r }
{
    if r % WIDTH == 0 {
        Err((r / WIDTH) as usize)
    } else {
        Ok(r)
    }
}

// ---- masks

// Does a mask lie in another?
fn within(a: u64, b: u64) -> bool
    ensures { result ≡ within a b }
{
    a | b == b
}

// Have two masks no field in common?
fn apart(a: u64, b: u64) -> bool
    ensures { result ≡ apart a b }
{
    a & b == 0
}

// The rule of a concurrent part with masks wp and wq, over the states after its sides.
fn right_states(wp: u8, wq: u8, p: u64, q: u64) -> bool
    ensures { result ≡ right_states wp wq (state p) (state q) }
{
    let v = u64::from(wp);
    let w = u64::from(wq);
    within(writes(p), v)
        && within(writes(q), w)
        && apart(v, w)
        && apart(tests(p), w)
        && apart(tests(q), v)
}

// A body fits (R, W) if T lies in R and W together and M lies in W.
fn fit_state(r: u8, w: u8, st: u64) -> bool
    ensures { result ≡ fit_masks r w (state st).tests (state st).writes }
{
    within(tests(st), u64::from(r | w)) && within(writes(st), u64::from(w))
}

// ---- a part with no parts below it

// A mask, where it is asked for.
fn mask_if(asked: bool, mask: u8) -> u8
    ensures { result ≡ cond asked mask 0 }
{
    if asked { mask } else { 0 }
}

// A test or a set of a field, by its code.
fn field_part(s: &[u8], st: u64, code: u8) -> u64
    requires { Sound s.now × ((state st).at < length s.now) × ((state st).parts ≤ (state st).at) × (2 ≤ code) × (code < 4) }
    ensures read { answer result ≡ leafed (state st) (built (head s.now (state st).at) (shut s.now) code Id Id)
        (read_operands s.now (fields_of s.now) (tables_of s.now) code (state st).at) }
    ensures within { IfOk (answer result) (λ r. r.at ≤ length s.now) }
{
    if let Err(wrong) = book::read_operands(s, code, place(st)) {
        return refusal(wrong);
    }
    let bit = 1u8 << book::head_at(s, place(st)).field;
    let t = mask_if(code == TEST, bit);
    past(with_masks(st, t, mask_if(code == SET, bit)), code)
}

// A use of a table. It goes by the masks that the table's entry declares.
fn use_part(s: &[u8], notes: &mut Notes, st: u64, way: Way) -> u64
    requires { LeafAsked s.now notes.old (state st) way }
    ensures read { answer result ≡ leafed (state st) (built (head s.now (state st).at) (shut s.now) 8 Id Id)
        (read_operands s.now (fields_of s.now) (tables_of s.now) 8 (state st).at) }
    ensures within { IfOk (answer result) (λ r. r.at ≤ length s.now) }
    ensures noted { Noted way.level (built (head s.now (state st).at) (shut s.now) 8 Id Id)
        (answer result) notes.old notes.new }
{
    if let Err(wrong) = book::read_operands(s, TABLE, place(st)) {
        return refusal(wrong);
    }
    let x = book::head_at(s, place(st)).table;
    notes.add_use(x, way.level);
    let w = book::writes_of(s, x);
    past(with_masks(st, book::reads_of(s, x) | w, w), TABLE)
}

impl Notes {
    // A use of table x below so many concurrent parts.
    fn add_use(&mut self, x: u8, level: u16)
        requires { (length self.old.uses ≡ 16) × (x < 16) × ((get_or self.old.uses x unused).count ≤ most_bytes) }
        ensures { self.new ≡ noting self.old (note_use x level self.old.uses) }
    {
        let i = usize::from(x);
        let before = self.uses[i];
        self.uses[i] = Use {
            count: before.count + 1,
            level: before.level.max(level),
        };
    }
}

// A part with no parts below it.
fn leaf(s: &[u8], notes: &mut Notes, st: u64, way: Way) -> u64
    requires { LeafAsked s.now notes.old (state st) way }
    ensures read { answer result ≡ leafed (state st) (leaf_at s.now (state st).at) (leaf_read s.now way (state st).at) }
    ensures within { IfOk (answer result) (λ r. r.at ≤ length s.now) }
    ensures noted { Noted way.level (leaf_at s.now (state st).at) (answer result) notes.old notes.new }
{
    let code = s[place(st)];
    match code {
        ID | DROP => past(st, ID),
        TEST => field_part(s, st, TEST),
        // A set is no predicate.
        SET => {
            if way.predicate {
                return refusal(place(st));
            }
            field_part(s, st, SET)
        }
        // A table may be used only in the main body, and is no predicate.
        TABLE => {
            if way.predicate || way.in_table {
                return refusal(place(st));
            }
            use_part(s, notes, st, way)
        }
        // The codes with parts are the walk's, and none is known from 9 on.
        NOT..=BESIDE | 9..=255 => refusal(place(st)),
    }
}

// ---- a part and all below it. The bytes and the notes are lent whole, and state, depth and way are others at each call: so they stay
// apart. What cannot stand is told by its place alone, and goes up through the parts by `let .. else`: document 01's form.

// One side of a sum or a sequence: a part with no parts below it is read here, any other is walked.
#[cycle(walking)]
fn side(s: &[u8], notes: &mut Notes, st: u64, depth: usize, way: Way) -> u64
    requires { Asked s.now notes.old (state st) depth way }
    ensures told { tallied (answer result) notes.new ≡ walked s.now way depth (tally_of (state st) notes.old) }
    ensures kept { IfOk (answer result) (λ r. Kept s.now way.level (tally_of r notes.new)) }
{
    if s.len() <= place(st) {
        return refusal(s.len());
    }
    if depth == 0 {
        return refusal(place(st));
    }
    let code = s[place(st)];
    match code {
        NOT..=BESIDE => walk(s, notes, st, depth, way),
        _ => leaf(s, notes, st, way),
    }
}

// The first fault after the sides of a concurrent part at a place: its own comes before theirs, and after those before it.
fn fault_after(before: Option<usize>, right: bool, at: usize, below: Option<usize>) -> Option<usize>
    ensures { result ≡ fault_after before right at below }
{
    if before.is_none() && !right {
        Some(at)
    } else {
        below
    }
}

// A concurrent part: its sides each begin with no masks, below one concurrent part more.
#[cycle(walking)]
fn beside_part(s: &[u8], notes: &mut Notes, st: u64, depth: usize, way: Way) -> u64
    requires { BesideAsked s.now notes.old (state st) depth way }
    ensures told { tallied (answer result) notes.new ≡ walked s.now way (suc depth) (tally_of (state st) notes.old) }
    ensures kept { IfOk (answer result) (λ r. Kept s.now way.level (tally_of r notes.new)) }
{
    if let Err(wrong) = book::read_operands(s, BESIDE, place(st)) {
        return refusal(wrong);
    }
    let before = notes.fault;
    let below = Way {
        level: way.level + 1,
        ..way
    };
    notes.deep = notes.deep.max(below.level);
    let left = walk(s, notes, past(bare(st), BESIDE), depth, below);
    let Ok(l) = opened(left) else {
        return left;
    };
    let right = walk(s, notes, bare(l), depth, below);
    let Ok(r) = opened(right) else {
        return right;
    };
    let h = book::head_at(s, place(st));
    let apart = right_states(h.left, h.right, l, r);
    notes.fault = fault_after(before, apart, place(st), notes.fault);
    joined(st, l, r, h.left, h.right)
}

// The part at the state's place and all below it, at most depth deep. The last part below a code is walked in the loop.
#[cycle(walking)]
fn walk(s: &[u8], notes: &mut Notes, mut st: u64, mut depth: usize, mut way: Way) -> u64
    requires { Asked s.now notes.old (state st) depth way }
    ensures told { tallied (answer result) notes.new ≡ walked s.now way depth (tally_of (state st) notes.old) }
    ensures kept { IfOk (answer result) (λ r. Kept s.now way.level (tally_of r notes.new)) }
{
    loop {
        if s.len() <= place(st) {
            return refusal(s.len());
        }
        if depth == 0 {
            return refusal(place(st));
        }
        depth -= 1;
        let code = s[place(st)];
        match code {
            NOT => {
                st = past(st, NOT);
                way.predicate = true;
            }
            SUM | SEQUENCE => {
                let left = side(s, notes, past(st, SUM), depth, way);
                let Ok(l) = opened(left) else {
                    return left;
                };
                st = l;
            }
            // A concurrent part is no predicate.
            BESIDE => {
                if way.predicate {
                    return refusal(place(st));
                }
                return beside_part(s, notes, st, depth, way);
            }
            _ => {
                return leaf(s, notes, st, way);
            }
        }
    }
}

// A body that starts at a place and ends where s ends: what stands after it, or its first byte that cannot stand there.
fn whole(s: &[u8], notes: &mut Notes, start: usize, in_table: bool) -> Result<u64, usize>
    requires { Asked s.now notes.old (begun start) most_depth (body_way in_table) }
    ensures { Body s.now in_table start (tally_of (begun start) notes.old) (states result) notes.new }
{
    let way = Way {
        in_table,
        predicate: false,
        level: 0,
    };
    let part = opened(walk(s, notes, start as u64, MOST_DEPTH, way));
    let Ok(st) = part else {
        return part;
    };
    if place(st) == s.len() {
        Ok(st)
    } else {
        Err(place(st))
    }
}

// ---- the bodies of a book

// What stands after some bodies: the place of the next, n and D so far, and the place of the first body that does not fit.
#[derive(Clone, Copy)]
struct Sums {
    at: usize,
    parts: usize,
    deep: usize,
    unfit: Option<usize>,
}

// The first body that does not fit, after one more that starts at a place.
fn first_unfit(unfit: Option<usize>, fits: bool, at: usize) -> Option<usize>
    ensures { result ≡ option_or unfit (cond fits None (Some at)) }
{
    if fits { unfit } else { unfit.or(Some(at)) }
}

// n with the parts of a table's body as often as the table is used.
fn more_parts(before: usize, used: Use, st: u64) -> usize
    requires { before ≤ 68719476736 }
    ensures value { result ≡ before + used.count * (state st).parts }
    ensures small { result ≤ before + 4294967296 }
{
    before + usize::from(used.count) * parts(st)
}

// D with a table's body below its deepest use, if there is one.
fn deeper(deep: usize, used: Use, below: u16) -> usize
    ensures { result ≡ max deep (cond (eqb used.count 0) 0 (used.level + below)) }
{
    if used.count == 0 {
        deep
    } else {
        deep.max(usize::from(used.level) + usize::from(below))
    }
}

// The body of the main policy.
fn main_body(book: &[u8], notes: &mut Notes) -> Result<Sums, usize>
    requires { Fronted book.now × Cleared notes.old }
    ensures { Turned book.now 0 result notes.new }
{
    let at = book::body_start(book, 0);
    let end = at + book::length_of(book, 0);
    let st = whole(&book[..end], notes, at, false)?;
    let fits = fit_state(book::reads_of(book, 0), book::writes_of(book, 0), st);
    Ok(Sums {
        at: end,
        parts: parts(st),
        deep: usize::from(notes.deep),
        unfit: first_unfit(None, fits, at),
    })
}

// The body of table y, if it is populated.
fn table_body(book: &[u8], notes: &mut Notes, y: u8, z: Sums) -> Result<Sums, usize>
    requires { Fronted book.now × So book.now y z notes.old × (1 ≤ y) × (y ≤ tables_of book.now) }
    ensures { Turned book.now y result notes.new }
{
    let size = book::length_of(book, y);
    if size == 0 {
        return Ok(z);
    }
    let at = z.at;
    let end = at + size;
    notes.deep = 0;
    let st = whole(&book[..end], notes, at, true)?;
    let fits = fit_state(book::reads_of(book, y), book::writes_of(book, y), st);
    let used = notes.uses[usize::from(y)];
    Ok(Sums {
        at: end,
        parts: more_parts(z.parts, used, st),
        deep: deeper(z.deep, used, notes.deep),
        unfit: first_unfit(z.unfit, fits, at),
    })
}

// All bodies, in order.
fn all_bodies(book: &[u8], notes: &mut Notes) -> Result<Sums, usize>
    requires { Fronted book.now × Cleared notes.old }
    ensures { Ended book.now result notes.new }
{
    let mut z = main_body(book, notes)?;
    for y in 1..=book::byte_at(book, 1) {
        z = table_body(book, notes, y, z)?;
    }
    Ok(z)
}

// ---- the verdict

// The numbers 6 and 7 of a book whose bodies are read.
fn sentence(book: &[u8], z: Sums, fault: Option<usize>) -> Result<Sizes, Refusal>
    requires { Fronted book.now × Ends book.now z fault }
    ensures { result ≡ verdict book.now }
{
    if MOST_PARTS < z.parts || MOST_BESIDE < z.deep {
        return Err(Reason::Limits.into());
    }
    if let Some(place) = fault.or(z.unfit) {
        return Err(Refusal {
            reason: Reason::Typing,
            place,
        });
    }
    Ok(Sizes {
        fields: usize::from(book::byte_at(book, 0)),
        tables: usize::from(book::byte_at(book, 1)),
        parts: z.parts,
        deep: z.deep,
    })
}

// The numbers 5 to 7 of a book whose contents are right.
fn bodies(book: &[u8]) -> Result<Sizes, Refusal>
    requires { Fronted book.now }
    ensures { result ≡ verdict book.now }
{
    let none = Use { count: 0, level: 0 };
    let mut notes = Notes {
        fault: None,
        deep: 0,
        uses: [none; 16],
    };
    match all_bodies(book, &mut notes) {
        Ok(z) => sentence(book, z, notes.fault),
        Err(place) => Err(Refusal {
            reason: Reason::Form,
            place,
        }),
    }
}

// A check of a book, and why it is turned away where the check fails.
fn check(holds: bool, reason: Reason) -> Result<(), Reason>
    ensures { result ≡ cond holds (Ok tt) (Err reason) }
{
    if holds { Ok(()) } else { Err(reason) }
}

// The verdict on a book: the numbers 1 to 7 in their order, or its sizes.
pub fn accept(book: &[u8]) -> Result<Sizes, Refusal>
    ensures { AcceptAnswer book.now result }
{
    check(book::length_right(book.len()), Reason::BookLength)?;
    let m = book::byte_at(book, 1);
    check(
        book::counts_right(book::byte_at(book, 0), m),
        Reason::Counts,
    )?;
    check(book::body_start(book, m + 1) == book.len(), Reason::Lengths)?;
    check(book::masks_right(book), Reason::EntryMasks)?;
    bodies(book)
}
