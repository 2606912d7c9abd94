// A book with a table of the places where its parts end, filled in one pass from its last byte: so no part is walked again at a step.
ghost use Rattle.std.specs.Prelude.{◌≡◌, ◌<◌, ◌≤◌, length, get_or};
ghost use Rattle.rules.specs.Books.{most_bytes, most_depth};
ghost use Rattle.rules.specs.Reading.{head_at, after, body_start};
ghost use Rattle.steps.specs.Standing.{Runnable, Readable, Marked, end_by};

use rules::{Head, MOST_BYTES};
use std::marker::Model;

// A readable book whose parts' ends are marked: at the place of a part, the place after it. In clauses it is its bytes.
#[derive(Drop)]
pub struct MarkedBook<'a> {
    bytes: &'a [u8],
    ends: &'a [u16],
}

impl<'a> Model for MarkedBook<'a> {
    ghost use Rattle.std.specs.Prelude.{ℕ, List};
    ghost use Rattle.steps.specs.Standing.{Readable, Marked};

    ghost Value = { List ℕ };

    ghost view = { λ b. b.bytes.now };

    ghost invariant = { λ b. Readable b.bytes.now × Marked b.bytes.now b.ends.now };
}

impl<'a> MarkedBook<'a> {
    // The book of these bytes, marked in a table.
    pub fn new(bytes: &'a [u8], ends: &'a mut [u16; MOST_BYTES]) -> MarkedBook<'a>
        requires { Readable bytes.now }
        ensures { result ≡ bytes.now }
    {
        crate::mark(bytes, ends);
        MarkedBook { bytes, ends }
    }

    // Its bytes.
    pub fn bytes(&self) -> &[u8]
        ensures { result.now ≡ self.now }
    {
        self.bytes
    }

    // The head of the part at a place, which a word of the area can hold.
    pub fn head_at(&self, at: usize) -> Head
        ensures head { result ≡ head_at self.now at }
        ensures near { at < length self.now → at < most_bytes }
    {
        book::head_at(self.bytes, at)
    }

    // The place after the part at a place.
    pub fn end_at(&self, at: usize) -> u16
        requires { Runnable self.now at }
        ensures { result ≡ after self.now most_depth at }
    {
        crate::end_at(self.ends, at)
    }

    // Where the body of entry x starts.
    pub fn body_start(&self, x: u8) -> usize
        ensures start { result ≡ body_start self.now x }
        ensures readable { Readable self.now }
    {
        book::body_start(self.bytes, x)
    }
}

// The table of a book, from its last place on.
pub fn mark(bytes: &[u8], ends: &mut [u16])
    requires { (length bytes.now ≤ most_bytes) × (length bytes.now ≤ length ends.old) }
    ensures { Marked bytes.now ends.new }
{
    for at in (0..bytes.len()).rev() {
        ends[at] = end_by(bytes, ends, at);
    }
}

// The word of the table at a place; 0 past its end.
pub fn end_at(ends: &[u16], at: usize) -> u16
    ensures { result ≡ get_or ends.now at 0 }
{
    ends.get(at).copied().unwrap_or(0)
}

// The place after the part at a place, where the table has those of the parts below it.
fn end_by(bytes: &[u8], ends: &[u16], at: usize) -> u16
    requires { (at < length bytes.now) × (length bytes.now ≤ most_bytes) }
    ensures { result ≡ end_by bytes.now ends.now at }
{
    let p = book::head_at(bytes, at);
    let shape = rules::shape_of(p.code);
    match shape.parts {
        0 => p.from as u16,
        1 => end_at(ends, p.from),
        _ => {
            let middle = end_at(ends, p.from);
            end_at(ends, middle as usize)
        }
    }
}
