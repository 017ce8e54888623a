// Numbers in lent bytes, at an offset: big-endian ones, and a word of four octets as a little-endian machine loads it.
#![tactic(auto)]

mod characters;

ghost use Rattle.std.specs.Prelude.{◌≡◌, ℕ, ◌+◌, ◌≤◌, length};
ghost use Rattle.octets.specs.BigEndian.{big_endian, octets_of};
ghost use Rattle.octets.specs.LittleEndian.{little_endian, FourOctets};
ghost use Rattle.octets.specs.Overwrite.{overwrite};

pub use characters::write_digits;

// A number that is read and written as so many octets, the highest first. In the impls' forms the compiler makes one load of a read and one
// store of a write, each with one instruction that turns the octets round.
pub trait BigEndianNumber {
    ghost octets: { ℕ };

    ghost number: { Self → ℕ };

    fn read_be(s: &[u8], at: usize) -> Self
        requires { at + octets ≤ length s.now }
        ensures { number result ≡ big_endian octets s.now at };

    fn write_be(self, s: &mut [u8], at: usize)
        requires { at + octets ≤ length s.old }
        ensures { s.new ≡ overwrite s.old at (octets_of octets (number self)) };
}

#[tactic(auto, using(crate::proofs::Library::copied_octets), unfolding(crate::specs::BigEndian::big_endian, crate::specs::Digits::number))]
impl BigEndianNumber for u16 {
    ghost octets = { 2 };

    ghost number = { λ v. v };

    fn read_be(s: &[u8], at: usize) -> u16 {
        u16::from_be_bytes([s[at], s[at + 1]])
    }

    fn write_be(self, s: &mut [u8], at: usize) {
        s[at..at + 2].copy_from_slice(&self.to_be_bytes());
    }
}

#[tactic(auto, using(crate::proofs::Library::copied_octets), unfolding(crate::specs::BigEndian::big_endian, crate::specs::Digits::number))]
impl BigEndianNumber for u32 {
    ghost octets = { 4 };

    ghost number = { λ v. v };

    fn read_be(s: &[u8], at: usize) -> u32 {
        u32::from_be_bytes([s[at], s[at + 1], s[at + 2], s[at + 3]])
    }

    fn write_be(self, s: &mut [u8], at: usize) {
        s[at..at + 4].copy_from_slice(&self.to_be_bytes());
    }
}

#[tactic(auto, using(crate::proofs::Library::copied_octets), unfolding(crate::specs::BigEndian::big_endian, crate::specs::Digits::number))]
impl BigEndianNumber for u64 {
    ghost octets = { 8 };

    ghost number = { λ v. v };

    fn read_be(s: &[u8], at: usize) -> u64 {
        u64::from_be_bytes([
            s[at],
            s[at + 1],
            s[at + 2],
            s[at + 3],
            s[at + 4],
            s[at + 5],
            s[at + 6],
            s[at + 7],
        ])
    }

    fn write_be(self, s: &mut [u8], at: usize) {
        s[at..at + 8].copy_from_slice(&self.to_be_bytes());
    }
}

// Four octets with the first one lowest: one load.
pub fn little32(s: &[u8], at: usize) -> u32
    requires { at + 4 ≤ length s.now }
    ensures value { result ≡ little_endian s.now at }
    ensures octets { FourOctets s.now at }
{
    u32::from_le_bytes([s[at], s[at + 1], s[at + 2], s[at + 3]])
}
