// The types that every layer's answers are made of, the limits, and the one table of codes of document 01.
// What the words mean stands under specs/, and what is shown of it under proofs/.
#![tactic(auto)]

ghost use Rattle.std.specs.Prelude.{◌≡◌};
ghost use Rattle.rules.specs.Codes.{shape_at};
ghost use Rattle.rules.specs.Checks.{no_place, number_of};

// The nine codes. Bytes, and no enum: document 01's form is a match over codes 0 to 8 with a range of unknown ones, and `shape_of`
// answers for any byte.
pub const ID: u8 = 0;

pub const DROP: u8 = 1;

pub const TEST: u8 = 2;

pub const SET: u8 = 3;

pub const NOT: u8 = 4;

pub const SUM: u8 = 5;

pub const SEQUENCE: u8 = 6;

pub const BESIDE: u8 = 7;

pub const TABLE: u8 = 8;

// The limits: a book's bytes, fields and tables, the depth within a body, and the parts and concurrent parts of number 6.
pub const MOST_BYTES: usize = 4096;

pub const MOST_FIELDS: u8 = 8;

pub const MOST_TABLES: u8 = 15;

pub const MOST_DEPTH: usize = 32;

pub const MOST_PARTS: usize = 1023;

pub const MOST_BESIDE: usize = 4;

// Operand bytes of a code, and how many parts stand below it.
#[derive(Clone, Copy, Debug, PartialEq, Eq)]
pub struct Shape {
    pub operands: usize,
    pub parts: usize,
}

// The head of a part: its code, its operands by what each code takes them for (field and value of a test or set, the fields that
// each side of a concurrent part may write, the table that is used), and where the parts below it begin. One struct, and no enum with each
// code's operands: each reader takes the fields of its own code.
#[derive(Clone, Copy, Debug, PartialEq, Eq)]
pub struct Head {
    pub code: u8,
    pub field: u8,
    pub value: u16,
    pub left: u8,
    pub right: u8,
    pub table: u8,
    pub from: usize,
}

// Why a call is turned away, by document 01's number: "Numbers that turn a call away".
#[derive(Clone, Copy, Debug, PartialEq, Eq)]
pub enum Reason {
    BookLength = 1,
    Counts = 2,
    Lengths = 3,
    EntryMasks = 4,
    Form = 5,
    Limits = 6,
    Typing = 7,
    PacketLength = 8,
    Unpopulated = 9,
    TooWide = 10,
    Positions = 11,
    BufferLength = 12,
    Stuck = 13,
    Input = 14,
}

// Why, and where in the book: 0 but for three reasons.
#[derive(Clone, Copy, Debug, PartialEq, Eq)]
pub struct Refusal {
    pub reason: Reason,
    pub place: usize,
}

impl Refusal {
    // The number of a refusal, 1 to 14.
    pub fn number(self) -> usize
        ensures { result ≡ number_of self }
    {
        self.reason as usize
    }
}

// A refusal with no place.
impl From<Reason> for Refusal {
    ghost from_gives = { λ reason refusal. refusal ≡ no_place reason };

    fn from(reason: Reason) -> Refusal {
        Refusal { reason, place: 0 }
    }
}

// What an accepted book says of itself: k, m, n and D.
#[derive(Clone, Copy, Debug, PartialEq, Eq)]
pub struct Sizes {
    pub fields: usize,
    pub tables: usize,
    pub parts: usize,
    pub deep: usize,
}

// What the evaluator answers beside the packets: their count, N, n, D and the room.
#[derive(Clone, Copy, Debug, PartialEq, Eq)]
pub struct Outcome {
    pub count: usize,
    pub steps: u64,
    pub parts: usize,
    pub deep: usize,
    pub room: u64,
}

// A finished run: steps made and packets; an unfinished one: steps made, live and ready positions.
#[derive(Clone, Copy, Debug, PartialEq, Eq)]
pub struct Finish {
    pub steps: usize,
    pub count: usize,
}

#[derive(Clone, Copy, Debug, PartialEq, Eq)]
pub struct Progress {
    pub steps: usize,
    pub live: usize,
    pub ready: usize,
}

#[derive(Clone, Copy, Debug, PartialEq, Eq)]
pub enum Ran {
    Finished(Finish),
    Running(Progress),
}

// The one table of the nine codes: id, drop, test, set, not, sum, sequence, beside, table.
static SHAPES: [Shape; 9] = [
    Shape {
        operands: 0,
        parts: 0,
    },
    Shape {
        operands: 0,
        parts: 0,
    },
    Shape {
        operands: 3,
        parts: 0,
    },
    Shape {
        operands: 3,
        parts: 0,
    },
    Shape {
        operands: 0,
        parts: 1,
    },
    Shape {
        operands: 0,
        parts: 2,
    },
    Shape {
        operands: 0,
        parts: 2,
    },
    Shape {
        operands: 2,
        parts: 2,
    },
    Shape {
        operands: 1,
        parts: 0,
    },
];

// A code's row of the table; that of id for an unknown code.
pub fn shape_of(code: u8) -> Shape
    ensures { result ≡ shape_at code }
{
    let row = usize::from(code);
    if row < SHAPES.len() {
        SHAPES[row]
    } else {
        SHAPES[0]
    }
}
