// A set of vectors: one after the other, each behind its length in two bytes.
ghost use Rattle.std.specs.Iterator.{item_count, YieldsFirstRef};
ghost use Rattle.trials.specs.Sets.{vectors_of};

use crate::vectors::{from, front, word_at};

// Gives the vectors of a set; the last may be cut short.
#[derive(Drop)]
pub struct Vectors<'a>(pub &'a [u8]);

impl<'a> Iterator for Vectors<'a> {
    type Item = &'a [u8];

    ghost next_gives = { YieldsFirstRef (λ s. vectors_of s.0.now) };

    ghost remaining = { item_count (λ s. vectors_of s.0.now) };

    fn next(&mut self) -> Option<&'a [u8]> {
        let set = self.0;
        if set.is_empty() {
            return None;
        }
        let length = word_at(set, 0);
        self.0 = from(set, 2 + length);
        Some(front(from(set, 2), length))
    }
}
