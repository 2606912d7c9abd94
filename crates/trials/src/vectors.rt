// Reading a vector: its numbers, words and parts. All is total: past the end of the bytes there are zeros.
ghost use Rattle.std.specs.Prelude.{◌≤◌, ◌<◌, ◌≡◌, take, drop};
ghost use Rattle.rules.specs.Reading.{number_at};
ghost use Rattle.trials.specs.Vectors.{answer_place, long_at, words_in, numbers_at, marker, marks};

use arrayvec::ArrayVec;
use std::array;

// More than a length of two bytes can say.
pub const MOST_WORDS: usize = 65536;

pub type Words = ArrayVec<u16, MOST_WORDS>;

// The calls that a vector states answers of.
#[derive(Clone, Copy, Debug, PartialEq, Eq)]
pub enum Call {
    Accept,
    Evaluate,
    Run,
}

impl Call {
    // Where the six numbers of its answer stand.
    pub fn answer_place(self) -> usize
        ensures place { result ≡ answer_place self }
        ensures in_head { result ≤ 66 }
    {
        match self {
            Call::Accept => 18,
            Call::Evaluate => 42,
            Call::Run => 66,
        }
    }
}

// The number in two bytes, high byte first.
pub fn word_at(s: &[u8], at: usize) -> usize
    ensures { (result ≡ number_at s.now at) × (result ≤ 65535) }
{
    usize::from(book::number_at(s, at))
}

// The number in four bytes. By no from_be_bytes: where fewer than four are left, zeros stand for the others.
pub fn long_at(s: &[u8], at: usize) -> u64
    requires { at < 65536 }
    ensures { result ≡ long_at s.now at }
{
    u64::from(book::number_at(s, at)) * 65536 + u64::from(book::number_at(s, at + 2))
}

// The six numbers of an answer.
pub fn numbers_at(s: &[u8], at: usize) -> [u64; 6]
    requires { at < 1024 }
    ensures { result ≡ numbers_at s.now at }
{
    array::from_fn(|i| long_at(s, at + 4 * i))
}

// What follows a place.
pub fn from<T>(s: &[T], at: usize) -> &[T]
    ensures { result.now ≡ drop at s.now }
{
    &s[at.min(s.len())..]
}

// At most n bytes of the front.
pub fn front(s: &[u8], n: usize) -> &[u8]
    ensures { result.now ≡ take n s.now }
{
    &s[..n.min(s.len())]
}

// The first n words.
pub fn words_of(s: &[u8], n: usize) -> Words
    requires { n ≤ 65536 }
    ensures { result.items ≡ words_in n s.now }
{
    let mut words = Words::new();
    for i in 0..n {
        words.push(book::number_at(s, 2 * i));
    }
    words
}

// The word that a buffer holds at a place before each call.
fn marker_at(seed: usize, i: usize) -> u16
    requires { (seed ≤ 65535) × (i < 65536) }
    ensures { result ≡ marker seed i }
{
    ((40503 * i + 257 * seed + 1) % 65536) as u16
}

// What the longest buffer holds before each call.
pub fn marked(seed: usize) -> [u16; MOST_WORDS]
    requires { seed ≤ 65535 }
    ensures { result ≡ marks seed 65536 }
{
    array::from_fn(|i| marker_at(seed, i))
}
