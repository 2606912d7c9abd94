// A set of packets by value, and what is done to it: kept, set, put in, taken away, joined and paired. Its packets stand in a flat array.
#![tactic(auto)]

ghost use Rattle.std.specs.Prelude.{◌≡◌, ◌≤◌};
ghost use Rattle.rules.specs.Masks.{all_fields};
ghost use Rattle.rules.specs.Packets.{places};
ghost use Rattle.rows.specs.Chunks.{Packed};
ghost use Rattle.sets.specs.Packing.{Packed-prop};

use crate::{PLACES, Row, Values, WORDS, all_fields};
use rules::Reason;

// Document 01's form: a flat array, a count and a mask. Packet i has the values 8 i to 8 i + 7, and all after the last packet are 0. Bit f of the mask: the packets have field f.
#[derive(Clone, Copy)]
pub struct PacketSet {
    pub values: Values,
    pub count: usize,
    pub mask: u8,
    pub ghost packed: { Packed places values count } by { Packed-prop places values count },
}

// The packets would be more than 16.
#[derive(Clone, Copy, Debug, PartialEq, Eq)]
pub struct TooWide;

impl PacketSet {
    ghost use Rattle.std.specs.Prelude.{[], ◌∷◌, map, length, take, get_or, ◌<◌, OnOk, OnErr};
    ghost use Rattle.rules.specs.Masks.{less};
    ghost use Rattle.rules.specs.Packets.{most_packets, padded, passes, put, keep, gathered, lacks, union, pairs, without, values_of};
    ghost use Rattle.rows.specs.Arrays.{Emitted};
    ghost use Rattle.sets.specs.Whole.{packets, Is};

    // The set with no packet.
    pub fn empty(mask: u8) -> PacketSet
        ensures { Is result mask [] }
    {
        PacketSet {
            values: [0u16; WORDS],
            count: 0,
            mask,
        }
    }

    // The set of the packet that comes in.
    pub fn of(packet: &[u16]) -> PacketSet
        requires { length packet.now ≤ places }
        ensures { Is result (all_fields (length packet.now)) (padded packet.now ∷ []) }
    {
        let mut values = [0u16; WORDS];
        rows::put_row(&mut values, 0, &rows::padded(packet));
        PacketSet {
            values,
            count: 1,
            mask: all_fields(packet.len()),
        }
    }

    // The set of one packet, the first values of a slice, without the fields of w.
    pub fn alone(row: &[u16], w: u8, mask: u8) -> PacketSet
        requires { places ≤ length row.now }
        ensures { Is result (less mask w) (without w (take places row.now) ∷ []) }
    {
        let row: &Row = row.first_chunk().unwrap();
        let bare = rows::bare(u16::from(w), row);
        let mut values = [0u16; WORDS];
        rows::put_row(&mut values, 0, &bare);
        PacketSet {
            values,
            count: 1,
            mask: (mask | w) ^ w,
        }
    }

    // A copy, of all rows at once: to copy those in use alone, into zeros, takes longer.
    pub fn copied(&self) -> PacketSet
        ensures { Is result self.now.mask (packets self.now) }
    {
        *self
    }

    // Packet i, a row by itself.
    pub fn packet(&self, i: usize) -> &Row
        requires { i < self.now.count }
        ensures { result.now ≡ get_or (packets self.now) i [] }
    {
        rows::row(&self.values, i)
    }

    // The first k values of each packet, one packet after the other, at the front of a lent slice, if they fit there.
    pub fn emit(&self, k: usize, out: &mut [u16]) -> bool
        ensures { Emitted result (values_of k (packets self.now)) out.old out.new }
    {
        rows::emit_rows::<PLACES>(&self.values, self.count, k, out)
    }

    pub fn clear(&mut self)
        ensures { Is self.new self.old.mask [] }
    {
        rows::clear_rows::<PLACES>(&mut self.values, 0, self.count);
        self.count = 0;
    }

    // Only the packets that a test passes.
    pub fn keep(&mut self, f: u8, x: u16)
        ensures { Is self.new self.old.mask (keep (passes f x) (packets self.old)) }
    {
        self.count = crate::keep_in::<PLACES>(&mut self.values, self.count, usize::from(f), x);
    }

    // The packets with a field set; what becomes equal is one.
    pub fn set(&mut self, f: u8, x: u16)
        ensures { Is self.new self.old.mask (gathered (map (put f x) (packets self.old))) }
    {
        self.count = crate::set_in::<PLACES>(&mut self.values, self.count, usize::from(f), x);
    }

    // Only the packets that are not in the other.
    pub fn remove(&mut self, other: &PacketSet)
        ensures { Is self.new self.old.mask (keep (lacks (packets other.now)) (packets self.old)) }
    {
        self.count = crate::difference_in::<PLACES>(
            &mut self.values,
            self.count,
            &other.values,
            other.count,
        );
    }

    // The packets of both; none, where they would be more than 16.
    pub fn join(&mut self, other: &PacketSet) -> Result<(), TooWide>
        ensures joined { OnOk result (Is self.new self.old.mask (union (packets self.old) (packets other.now))) }
        ensures wide { OnErr result (most_packets < length (union (packets self.old) (packets other.now))) }
    {
        let joined = crate::union_in::<PLACES>(
            &mut self.values,
            self.count,
            &other.values,
            other.count,
        );
        let Some(count) = joined else {
            self.count = 0;
            return Err(TooWide);
        };
        self.count = count;
        Ok(())
    }

    // Every pairing of a packet of left and one of right, put into a set that has none: the fields w from right's, all others from left's.
    pub fn pair(&mut self, left: &PacketSet, right: &PacketSet, w: u8) -> Result<(), TooWide>
        requires { packets self.old ≡ [] }
        ensures paired { OnOk result (Is self.new self.old.mask (pairs w (packets left.now) (packets right.now))) }
        ensures wide { OnErr result (most_packets < length (pairs w (packets left.now) (packets right.now))) }
    {
        let paired = crate::pairs_into::<PLACES>(
            &mut self.values,
            &left.values,
            left.count,
            &right.values,
            right.count,
            u16::from(w),
        );
        let Some(count) = paired else {
            self.count = 0;
            return Err(TooWide);
        };
        self.count = count;
        Ok(())
    }
}

impl From<TooWide> for Reason {
    ghost use Rattle.rules.specs.declared.Reason.TheVariants.{TooWide};

    ghost from_gives = { λ _ e. e ≡ TooWide };

    fn from(_wide: TooWide) -> Reason {
        Reason::TooWide
    }
}
