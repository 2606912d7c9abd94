// The evaluator: one packet through a book (document 01, "Meaning", "Steps" and the numbers 8, 12, 9, 10).
// evaluate_part and the functions of the codes call each other; all that they combine is done by functions outside that cycle. Lent down
// the cycle is one PacketSet, which holds the packets that come to a part and then those that it gives. The book and the kind of the body
// stay two parameters: in a struct of both, a clause would have to say body.entry.book.now where it says book.now. Fair is said of another
// part in each function, so that no type can keep it.
#![tactic(auto)]

ghost use Rattle.std.specs.Prelude.{◌≡◌, true, false, [], ◌∷◌, ◌+◌, ◌≤◌, max, drop, Ok};
ghost use Rattle.rules.specs.Packets.{keep, lacks};
ghost use Rattle.rules.specs.Parts.{Drop, Test, Set, names_open};
ghost use Rattle.rules.specs.Reading.{after, use_at, part_at, main_of, verdict};
ghost use Rattle.rules.specs.Answers.{start_set};
ghost use Rattle.rules.specs.Promises.{EvaluateAnswer};
ghost use Rattle.sets.specs.Whole.{packets};
ghost use Rattle.evaluator.specs.Work.{named_in, part_in, not_from, sum_from, seq_from, beside_of};
ghost use Rattle.evaluator.specs.Work.{after_two, Fair, NotWide, Did, Small, Sees, IsAccepted, Populated, worked};
ghost use Rattle.evaluator.specs.Passing.{Passable, Passes, Weighs};

use rows::MOST;
use rules::{
    BESIDE, DROP, Head, MOST_DEPTH, NOT, Outcome, Reason, Refusal, SEQUENCE, SET, SUM, Sizes,
    TABLE, TEST,
};
use sets::{PacketSet, Row, TooWide};

// Where a part stands: in the body of the main policy, or in a table's, where no table is used.
#[derive(Clone, Copy, Debug, PartialEq, Eq)]
enum Body {
    Main,
    Table,
}

// What a part comes to beside the packets: its steps, its room, and the place after it. That the numbers are Small is no fact of the type:
// of a union's it follows from the part, and not from the numbers of the two below.
#[derive(Clone, Copy)]
struct Worked {
    steps: u64,
    room: u64,
    next: usize,
}

// How a packet comes through an accepted book: the number of packets, N and the room.
#[derive(Clone, Copy)]
pub struct Weight {
    pub count: usize,
    pub steps: u64,
    pub room: u64,
}

// A position with none below it, after so many steps.
fn leaf(steps: u64, next: usize) -> Worked
    ensures { result ≡ worked steps 1 next }
{
    Worked {
        steps,
        room: 1,
        next,
    }
}

// Code 1.
fn drop_of(set: &mut PacketSet, next: usize) -> Worked
    ensures { NotWide Drop (packets set.old) next (packets set.new) result }
{
    set.clear();
    leaf(1, next)
}

// Codes 2 and 3.
fn test_of(field: u8, value: u16, set: &mut PacketSet, next: usize) -> Worked
    ensures { NotWide (Test field value) (packets set.old) next (packets set.new) result }
{
    set.keep(field, value);
    leaf(1, next)
}

fn set_of(field: u8, value: u16, set: &mut PacketSet, next: usize) -> Worked
    ensures { NotWide (Set field value) (packets set.old) next (packets set.new) result }
{
    set.set(field, value);
    leaf(1, next)
}

// Without the packets given: packet by packet, not by whether there are any. A function of its own, for the edit that goes by whether.
fn not_given(set: &mut PacketSet, given: &PacketSet)
    ensures { packets set.new ≡ keep (lacks (packets given.now)) (packets set.old) }
{
    set.remove(given);
}

// The negation of a part that comes to this.
fn not_of(part: Worked) -> Worked
    requires { Small part }
    ensures { result ≡ worked (part.steps + 2) (1 + part.room) part.next }
{
    Worked {
        steps: part.steps + 2,
        room: 1 + part.room,
        next: part.next,
    }
}

// The union or the pairing of what two parts come to.
fn joined(first: Worked, second: Worked) -> Worked
    requires first_small { Small first }
    requires second_small { Small second }
    ensures { result ≡ worked (first.steps + second.steps + 2) (1 + (first.room + second.room)) second.next }
{
    Worked {
        steps: first.steps + second.steps + 2,
        room: 1 + (first.room + second.room),
        next: second.next,
    }
}

// What the second part comes to, after the first.
fn seq_of(first: Worked, second: Worked) -> Worked
    requires first_small { Small first }
    requires second_small { Small second }
    ensures { result ≡ worked (first.steps + second.steps + 1) (max (1 + first.room) second.room) second.next }
{
    Worked {
        steps: first.steps + second.steps + 1,
        room: (1 + first.room).max(second.room),
        next: second.next,
    }
}

// What a table's body comes to; the use of the table ends before next.
fn table_of(part: Worked, next: usize) -> Worked
    requires { Small part }
    ensures { result ≡ worked (1 + part.steps) part.room next }
{
    Worked {
        steps: 1 + part.steps,
        room: part.room,
        next,
    }
}

// A concurrent part on no packet, the parts below it from a place on.
fn none_at(book: &[u8], from: usize, depth: usize) -> Worked
    ensures { result ≡ worked 1 1 (after_two book.now depth from) }
{
    let middle = book::place_after(book, from, depth);
    let end = book::place_after(book, middle, depth);
    leaf(1, end)
}

// Code 4, the part below it at a place.
#[cycle(evaluating)]
fn not_at(
    book: &[u8],
    body: Body,
    from: usize,
    depth: usize,
    set: &mut PacketSet,
) -> Result<Worked, TooWide>
    requires { Fair (not_from book.now body depth from) }
    ensures { Did (not_from book.now body depth from)
        (packets set.old) (after book.now depth from) (packets set.new) result }
{
    let mut given = set.copied();
    let part = evaluate_part(book, body, from, depth, &mut given)?;
    not_given(set, &given);
    Ok(not_of(part))
}

// Code 5, the parts below it from a place on.
#[cycle(evaluating)]
fn sum_at(
    book: &[u8],
    body: Body,
    from: usize,
    depth: usize,
    set: &mut PacketSet,
) -> Result<Worked, TooWide>
    requires { Fair (sum_from book.now body depth from) }
    ensures { Did (sum_from book.now body depth from)
        (packets set.old) (after_two book.now depth from) (packets set.new) result }
{
    let mut other = set.copied();
    let first = evaluate_part(book, body, from, depth, set)?;
    let second = evaluate_part(book, body, first.next, depth, &mut other)?;
    set.join(&other)?;
    Ok(joined(first, second))
}

// Code 6, the parts below it from a place on.
#[cycle(evaluating)]
fn seq_at(
    book: &[u8],
    body: Body,
    from: usize,
    depth: usize,
    set: &mut PacketSet,
) -> Result<Worked, TooWide>
    requires { Fair (seq_from book.now body depth from) }
    ensures { Did (seq_from book.now body depth from)
        (packets set.old) (after_two book.now depth from) (packets set.new) result }
{
    let first = evaluate_part(book, body, from, depth, set)?;
    let second = evaluate_part(book, body, first.next, depth, set)?;
    Ok(seq_of(first, second))
}

// Code 7 by its head, on one packet, a row by itself: each side without the fields that the other writes. Put into a set with none.
#[cycle(evaluating)]
fn one_packet(
    book: &[u8],
    body: Body,
    head: Head,
    depth: usize,
    row: &Row,
    out: &mut PacketSet,
) -> Result<Worked, TooWide>
    requires none_yet { packets out.old ≡ [] }
    requires fair { Fair (beside_of book.now body depth head) }
    ensures { Did (beside_of book.now body depth head)
        (row.now ∷ []) (after_two book.now depth head.from) (packets out.new) result }
{
    let mut left = PacketSet::alone(row, head.right, out.mask);
    let first = evaluate_part(book, body, head.from, depth, &mut left)?;
    let mut right = PacketSet::alone(row, head.left, out.mask);
    let second = evaluate_part(book, body, first.next, depth, &mut right)?;
    out.pair(&left, &right, head.right)?;
    Ok(joined(first, second))
}

// Code 7 by its head, on the packets of a set from number i on: one alone, or the lowest and the rest joined. Put into a set with none.
#[cycle(evaluating)]
fn walk_packets(
    book: &[u8],
    body: Body,
    head: Head,
    depth: usize,
    set: &PacketSet,
    i: usize,
    out: &mut PacketSet,
) -> Result<Worked, TooWide>
    requires within { i ≤ set.now.count }
    requires none_yet { packets out.old ≡ [] }
    requires fair { Fair (beside_of book.now body depth head) }
    ensures { Did (beside_of book.now body depth head)
        (drop i (packets set.now)) (after_two book.now depth head.from) (packets out.new) result }
{
    if i == set.count {
        return Ok(none_at(book, head.from, depth));
    }
    let row = set.packet(i);
    let first = one_packet(book, body, head, depth, row, out)?;
    if i + 1 == set.count {
        return Ok(first);
    }
    let mut rest = PacketSet::empty(out.mask);
    let second = walk_packets(book, body, head, depth, set, i + 1, &mut rest)?;
    out.join(&rest)?;
    Ok(joined(first, second))
}

// Code 7 by its head: one packet by itself, more packet by packet from a copy of the set, into the set.
#[cycle(evaluating)]
fn beside_at(
    book: &[u8],
    body: Body,
    head: Head,
    depth: usize,
    set: &mut PacketSet,
) -> Result<Worked, TooWide>
    requires { Fair (beside_of book.now body depth head) }
    ensures { Did (beside_of book.now body depth head)
        (packets set.old) (after_two book.now depth head.from) (packets set.new) result }
{
    if set.count == 1 {
        let row = *set.packet(0);
        set.clear();
        return one_packet(book, body, head, depth, &row, set);
    }
    let whole = set.copied();
    set.clear();
    walk_packets(book, body, head, depth, &whole, 0, set)
}

// Code 8, a use of a table: the table's body in the main body, nothing in a table's.
#[cycle(evaluating)]
fn table_at(
    book: &[u8],
    body: Body,
    table: u8,
    next: usize,
    set: &mut PacketSet,
) -> Result<Worked, TooWide>
    requires { Fair (named_in book.now body table) }
    ensures { Did (named_in book.now body table)
        (packets set.old) next (packets set.new) result }
{
    match body {
        Body::Table => Ok(leaf(0, next)),
        Body::Main => {
            let start = book::body_start(book, table);
            let part = evaluate_part(book, Body::Table, start, MOST_DEPTH, set)?;
            Ok(table_of(part, next))
        }
    }
}

// The part at a place, in the main body or in a table's, on the packets of a set. Past the end, and below the depth, stands id.
#[cycle(evaluating)]
fn evaluate_part(
    book: &[u8],
    body: Body,
    at: usize,
    depth: usize,
    set: &mut PacketSet,
) -> Result<Worked, TooWide>
    requires { Fair (part_in book.now body depth at) }
    ensures { Did (part_in book.now body depth at)
        (packets set.old) (after book.now depth at) (packets set.new) result }
{
    if depth == 0 {
        return Ok(leaf(0, at));
    }
    let head = book::head_at(book, at);
    let below = depth - 1;
    match head.code {
        DROP => Ok(drop_of(set, head.from)),
        TEST => Ok(test_of(head.field, head.value, set, head.from)),
        SET => Ok(set_of(head.field, head.value, set, head.from)),
        NOT => not_at(book, body, head.from, below, set),
        SUM => sum_at(book, body, head.from, below, set),
        SEQUENCE => seq_at(book, body, head.from, below, set),
        BESIDE => beside_at(book, body, head, below, set),
        TABLE => table_at(book, body, head.table, head.from, set),
        _ => Ok(leaf(0, head.from)),
    }
}

// Where a use of a table ends, which is next; None where the table is not populated.
fn look_table(book: &[u8], table: u8, next: usize) -> Option<usize>
    ensures { Sees (use_at book.now table) next result }
{
    if book::length_of(book, table) == 0 {
        return None;
    }
    Some(next)
}

// The place after the part at a place of the main body; None where the part names an unpopulated table.
fn look_part(book: &[u8], at: usize, depth: usize) -> Option<usize>
    ensures { Sees (part_at book.now (use_at book.now) depth at) (after book.now depth at) result }
{
    if depth == 0 {
        return Some(at);
    }
    let head = book::head_at(book, at);
    if head.code == TABLE {
        return look_table(book, head.table, head.from);
    }
    match rules::shape_of(head.code).parts {
        0 => Some(head.from),
        1 => look_part(book, head.from, depth - 1),
        _ => {
            let middle = look_part(book, head.from, depth - 1)?;
            look_part(book, middle, depth - 1)
        }
    }
}

// Whether every table is populated.
fn all_populated(book: &[u8]) -> bool
    ensures { result ≡ true → Populated book.now }
{
    for x in 1..=book::byte_at(book, 1) {
        if book::length_of(book, x) == 0 {
            return false;
        }
    }
    true
}

// Whether the main policy names an unpopulated table (9). Its parts are looked through only where there is such a table.
fn names_open(book: &[u8]) -> bool
    requires { IsAccepted book.now }
    ensures { result ≡ names_open (main_of book.now) }
{
    !all_populated(book) && look_part(book, book::body_start(book, 0), MOST_DEPTH).is_none()
}

// One packet through the main policy of an accepted book, in a set that has it alone: the packets that it gives are left there.
fn pass(book: &[u8], packet: &[u16], set: &mut PacketSet) -> Result<Weight, Reason>
    requires passable { Passable book.now packet.now }
    requires alone { packets set.old ≡ start_set packet.now }
    ensures { Passes book.now packet.now result (packets set.new) }
{
    if names_open(book) {
        return Err(Reason::Unpopulated);
    }
    let start = book::body_start(book, 0);
    let w = evaluate_part(book, Body::Main, start, MOST_DEPTH, set)?;
    Ok(Weight {
        count: set.count,
        steps: w.steps,
        room: w.room,
    })
}

// The same for a caller that wants no packets: 9, 10 or the room.
pub fn weigh(book: &[u8], packet: &[u16]) -> Result<Weight, Reason>
    requires { Passable book.now packet.now }
    ensures { Weighs book.now packet.now result }
{
    pass(book, packet, &mut PacketSet::of(packet))
}

// One packet through an accepted book: 8, 12, 9, 10 in this order, or the packets in the result.
fn evaluate_accepted(
    book: &[u8],
    packet: &[u16],
    res: &mut [u16],
    z: Sizes,
) -> Result<Outcome, Refusal>
    requires { verdict book.now ≡ Ok z }
    ensures { EvaluateAnswer book.now packet.now res.old result res.new }
{
    let k = z.fields;
    if packet.len() != k {
        return Err(Reason::PacketLength.into());
    }
    if res.len() < MOST * k {
        return Err(Reason::BufferLength.into());
    }
    let mut set = PacketSet::of(packet);
    let weight = pass(book, packet, &mut set)?;
    let _fits = set.emit(k, res);
    Ok(Outcome {
        count: weight.count,
        steps: weight.steps,
        parts: z.parts,
        deep: z.deep,
        room: weight.room,
    })
}

// One packet through a book: why it is turned away, or the count, N, n, D and the room, and the packets in the result.
pub fn evaluate(book: &[u8], packet: &[u16], res: &mut [u16]) -> Result<Outcome, Refusal>
    ensures { EvaluateAnswer book.now packet.now res.old result res.new }
{
    let sizes = typing::accept(book)?;
    evaluate_accepted(book, packet, res, sizes)
}
