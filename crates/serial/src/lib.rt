// Sequence numbers and octet counts, kept apart: place minus place is a count, place plus or minus count is a place, and nothing
// adds two places.
#![tactic(auto)]

ghost use Rattle.std.specs.Prelude.{◌≡◌, ◌+◌, ◌^◌};
ghost use Rattle.serial.specs.Ring.{nearest};
ghost use Rattle.serial.specs.Serial.{seq_plus, seq_back, seq_minus, further, one_to, within};

use std::ops::{Add, Sub};

// A sequence or acknowledgement number: document 01's "place" on the ring of 2^32.
#[derive(Clone, Copy, Debug, Default, PartialEq, Eq)]
pub struct SeqNum(pub u32);

// A length or a window: document 01's "count of octets".
#[derive(Clone, Copy, Debug, Default, PartialEq, Eq, PartialOrd, Ord)]
pub struct OctetCount(pub u32);

// The place n octets after this one.
impl Add<OctetCount> for SeqNum {
    type Output = SeqNum;

    ghost add_gives = { λ a n r. r ≡ seq_plus a n };

    #[tactic(auto, unfolding(crate::specs::Ring::ring_plus))]
    fn add(self, n: OctetCount) -> SeqNum {
        SeqNum(self.0.wrapping_add(n.0))
    }
}

// The place n octets before this one.
impl Sub<OctetCount> for SeqNum {
    type Output = SeqNum;

    ghost sub_gives = { λ a n r. r ≡ seq_back a n };

    #[tactic(auto, unfolding(crate::specs::Ring::ring_minus))]
    fn sub(self, n: OctetCount) -> SeqNum {
        SeqNum(self.0.wrapping_sub(n.0))
    }
}

// The octets from the other place up to this one.
impl Sub for SeqNum {
    type Output = OctetCount;

    ghost sub_gives = { λ a b r. r ≡ seq_minus a b };

    #[tactic(auto, unfolding(crate::specs::Ring::ring_minus))]
    fn sub(self, other: SeqNum) -> OctetCount {
        OctetCount(self.0.wrapping_sub(other.0))
    }
}

impl SeqNum {
    // The further of a and b on the unwrapped line, where each stands at the whole number nearest this place's.
    #[tactic(auto, using(crate::proofs::Serial::further_is))]
    pub fn further(self, a: SeqNum, b: SeqNum) -> SeqNum
        ensures { result ≡ further self a b }
    {
        if standing(self, a) < standing(self, b) {
            b
        } else {
            a
        }
    }
}

// Where x stands on the line, counted from half a turn below base.
#[tactic(auto, using(crate::proofs::Ring::nearest_ring_minus))]
fn standing(base: SeqNum, x: SeqNum) -> u32
    ensures { nearest (base.0 + 2 ^ 32) x.0 ≡ base.0 + 2 ^ 31 + result }
{
    (x - base).0.wrapping_add(1 << 31)
}

impl OctetCount {
    // Whether this count is from 1 to limit.
    pub fn one_to(self, limit: OctetCount) -> bool
        ensures { result ≡ one_to self limit }
    {
        (1..=limit.0).contains(&self.0)
    }

    // Whether this count and n more, summed as whole numbers, are at most limit.
    pub fn within(self, n: OctetCount, limit: OctetCount) -> bool
        ensures { result ≡ within self n limit }
    {
        u64::from(self.0) + u64::from(n.0) <= u64::from(limit.0)
    }
}
