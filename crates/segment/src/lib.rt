// One TCP segment as the filter sees it, whatever IP version carried it.
#![tactic(auto)]

ghost use Rattle.std.specs.Prelude.{◌≡◌};
ghost use Rattle.choice.specs.Choice.{◌=ᵇ◌};
ghost use Rattle.segment.specs.Flags.{flag_bit};

use serial::{OctetCount, SeqNum};

// The control bits that the rules name, each with its place among a segment's flags.
#[derive(Clone, Copy, Debug, PartialEq, Eq)]
pub enum Flag {
    Fin = 1,
    Syn = 2,
    Rst = 4,
    Ack = 16,
}

#[derive(Clone, Copy, Debug, PartialEq, Eq)]
pub struct Segment {
    // Document 01: s.
    pub seq: SeqNum,
    // Document 01: a, which has a meaning only with ACK set.
    pub ack: SeqNum,
    // Document 01: w.
    pub window: OctetCount,
    // FIN 1, SYN 2, RST 4, ACK 16; every other bit is 0. They stay one number: document 01 has a match over flags, and whoever calls
    // may give any bits.
    pub flags: u8,
    // Document 01: n, payload octets plus one each for SYN and FIN.
    pub octets: OctetCount,
}

impl Segment {
    #[tactic(auto, using(crate::proofs::Flags::fin_and, crate::proofs::Flags::syn_and, crate::proofs::Flags::rst_and, crate::proofs::Flags::ack_and))]
    pub fn has(self, flag: Flag) -> bool
        ensures { result ≡ (flag_bit flag self.flags =ᵇ 1) }
    {
        self.flags & flag as u8 != 0
    }
}
