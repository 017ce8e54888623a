// Reads a packet with one TCP segment: answers 5 to 10 and 16 of the documents with the byte offset at which it broke, or the flow and the
// segment. The IP version decides rows 5 to 8 and where the addresses stand; rows 9, 16 and 10 are TCP's. There is a reader of IPv4.
#![tactic(auto)]

ghost use Rattle.std.specs.Prelude.{◌≡◌, ◌+◌, ◌-◌, ◌^◌, ◌≤◌, ◌<◌, length};
ghost use Rattle.octets.specs.Octets.{Octets};
ghost use Rattle.address.specs.Address.{address_size};
ghost use Rattle.segment.specs.Flags.{control};
ghost use Rattle.packet.specs.TcpSum.{halves_added, address_added, fields_added};
ghost use Rattle.packet.specs.Read.{cause_number, row10, read_ipv4, answer_and_offset};

use address::{Address, Flow, Version, read_flow};
use checksum::{carries_added, ones_sum};
use octets::BigEndianNumber;
use segment::{Flag, Segment};
use serial::{OctetCount, SeqNum};

// IPv4's field of more-fragments and fragment offset, without the two bits above them.
const FRAGMENT: u16 = 0x3fff;

// Where an IPv4 header has its source address; the destination's follows it.
const IPV4_ADDRESSES: usize = 12;

// FIN, SYN, RST and ACK, which a segment keeps.
const CONTROL: u8 = Flag::Fin as u8 | Flag::Syn as u8 | Flag::Rst as u8 | Flag::Ack as u8;

// The protocol number of TCP.
const TCP: u8 = 6;

// Why a packet is refused.
#[derive(Clone, Copy, Debug, PartialEq, Eq)]
pub enum Cause {
    // 5: under 20 bytes.
    Short,
    // 5: version not 4.
    OtherVersion,
    // 5: header length under 20.
    HeaderLength,
    // 5: total length below header length.
    TotalBelowHeader,
    // 5: total length above the bytes given.
    TotalAboveGiven,
    // 6: the header's ones' complement 16-bit sum is not ffff.
    HeaderSum,
    // 7: more-fragments set or fragment offset not 0.
    Fragment,
    // 8: protocol is not 6.
    Protocol,
    // 9: under 20 bytes follow the IP header within total length.
    TcpShort,
    // 9: TCP data offset under 5 words.
    DataOffsetBelowFive,
    // 9: TCP data offset past total length.
    DataOffsetPastTotal,
    // 16: the sum of the pseudo-header and the segment is not ffff.
    TcpSum,
    // 10: SYN with FIN or RST.
    SynFinRst,
    // 10: none of SYN, ACK, RST.
    NoSynAckRst,
    // 10: SYN with payload.
    SynPayload,
}

// Why a packet is refused, and at which byte it broke.
#[derive(Clone, Copy, Debug, PartialEq, Eq)]
pub struct PacketError {
    pub cause: Cause,
    pub offset: usize,
}

// What a packet brings, or why it is refused.
pub type PacketRead = Result<(Flow, Segment), PacketError>;

// TCP's header and payload behind an IP header, where there is room for TCP's header: from one byte of the packet to another, behind the addresses
// that the IP header has where its version has them.
#[derive(Clone, Copy)]
struct TcpBytes<'a> {
    version: Version,
    addresses: usize,
    packet: &'a [u8],
    begin: usize,
    end: usize,
    // Of a field a proof knows this only by this line.
    ghost octets: { Octets packet.now },
    ghost behind_addresses: { addresses + address_size version + address_size version ≤ begin },
    ghost header: { begin + 20 ≤ end },
    ghost given: { end ≤ length packet.now },
    // Total length is a field of 16 bits.
    ghost short: { end - begin < 2 ^ 16 },
}

impl Cause {
    // The answer that the documents number. Causes share one, so it isn't their discriminant.
    pub fn number(self) -> u32
        ensures { result ≡ cause_number self }
    {
        match self {
            Cause::Short
            | Cause::OtherVersion
            | Cause::HeaderLength
            | Cause::TotalBelowHeader
            | Cause::TotalAboveGiven => 5,
            Cause::HeaderSum => 6,
            Cause::Fragment => 7,
            Cause::Protocol => 8,
            Cause::TcpShort | Cause::DataOffsetBelowFive | Cause::DataOffsetPastTotal => 9,
            Cause::SynFinRst | Cause::NoSynAckRst | Cause::SynPayload => 10,
            Cause::TcpSum => 16,
        }
    }

    // A refusal by this cause, of a packet that broke at an offset.
    fn at(self, offset: usize) -> PacketError
        ensures { result ≡ record { cause = self; offset = offset } }
    {
        PacketError {
            cause: self,
            offset,
        }
    }
}

// Row 10 for a segment with n payload octets.
#[tactic(auto, using(choice::proofs::Choice::when_cond, segment::proofs::Flags::ack_and), unfolding(crate::specs::Read::row10))]
fn check_flags(flags: u8, n: usize) -> Result<(), Cause>
    ensures { result ≡ row10 flags n }
{
    // RST, SYN and FIN, from the highest bit down. Document 01 names a match with ranges over flags.
    match flags % 8 {
        0..=1 if flags & Flag::Ack as u8 == 0 => Err(Cause::NoSynAckRst),
        2 if n != 0 => Err(Cause::SynPayload),
        3 | 6..=7 => Err(Cause::SynFinRst),
        _ => Ok(()),
    }
}

// FIN, SYN, RST and ACK alone.
fn control_bits(flags: u8) -> u8
    ensures { result ≡ control flags }
{
    flags & CONTROL
}

// The upper and the lower 32 bits, added: 2^32 is 1 modulo 65,535, so both count alike in the sum.
#[tactic(auto, unfolding(crate::specs::TcpSum::halves_added))]
fn halves_added(n: u64) -> u64
    ensures { (result ≡ halves_added n) × (result < 2 ^ 33) }
{
    (n & 0xffff_ffff) + (n >> 32)
}

// The four groups of 32 bits that an address has, of which an IPv4 address has one.
fn address_added(address: Address) -> u64
    ensures { (result ≡ address_added address) × (result < 2 ^ 34) }
{
    halves_added(address.high) + halves_added(address.low)
}

// The fields of the pseudo-header before a segment of n octets, added: addresses, protocol and length.
fn fields_added(flow: Flow, n: usize) -> u64
    requires { n < 2 ^ 16 }
    ensures { (result ≡ fields_added flow n) × (result < 2 ^ 36) }
{
    address_added(flow.from.address) + address_added(flow.to.address) + u64::from(TCP) + n as u64
}

impl<'a> TcpBytes<'a> {
    ghost use Rattle.packet.specs.Header.{data_offset};
    ghost use Rattle.packet.specs.Read.{segment_of, rows6to8, tcp_rows, on_header, ipv4_addresses};
    ghost use Rattle.packet.specs.TcpBytes.{flow_in, sum_of, tcp_read, read_on};

    // Rows 5 to 8 of an IPv4 packet, and the first cause of row 9.
    #[tactic(auto, using(choice::proofs::Choice::when_cond), unfolding(crate::specs::Read::ipv4_header))]
    fn of_ipv4(s: &'a [u8]) -> Result<Self, PacketError>
        ensures { read_on result ≡ read_ipv4 s.now }
    {
        if s.len() < 20 {
            return Err(Cause::Short.at(0));
        }
        let first = s[0] as usize;
        if first / 16 != 4 {
            return Err(Cause::OtherVersion.at(0));
        }
        let h = first % 16 * 4;
        if h < 20 {
            return Err(Cause::HeaderLength.at(0));
        }
        let t = u16::read_be(s, 2) as usize;
        if t < h {
            return Err(Cause::TotalBelowHeader.at(2));
        }
        if s.len() < t {
            return Err(Cause::TotalAboveGiven.at(2));
        }
        Self::of_ipv4_header(s, h, t)
    }

    // Rows 6 to 8 and the first cause of row 9, for an IPv4 header of h bytes whose total length is t.
    #[tactic(auto, using(choice::proofs::Choice::when_cond, crate::proofs::Fragment::fragment_bits), unfolding(crate::specs::Read::rows6to8))]
    fn of_ipv4_header(s: &'a [u8], h: usize, t: usize) -> Result<Self, PacketError>
        requires { (20 ≤ h) × (h ≤ 60) × (h ≤ t) × (t ≤ length s.now) × (t < 2 ^ 16) }
        ensures { read_on result ≡ on_header Version.V4 ipv4_addresses s.now (rows6to8 s.now h t) }
    {
        if ones_sum(&s[..h]) != 0xffff {
            return Err(Cause::HeaderSum.at(10));
        }
        if u16::read_be(s, 6) & FRAGMENT != 0 {
            return Err(Cause::Fragment.at(6));
        }
        if s[9] != TCP {
            return Err(Cause::Protocol.at(9));
        }
        Self::behind(Version::V4, IPV4_ADDRESSES, s, h, t)
    }

    // The first cause of row 9, behind an IP header.
    #[tactic(auto, using(choice::proofs::Choice::when_cond), unfolding(crate::specs::Read::tcp_rows))]
    fn behind(
        version: Version,
        addresses: usize,
        packet: &'a [u8],
        begin: usize,
        end: usize,
    ) -> Result<Self, PacketError>
        requires { (addresses + address_size version + address_size version ≤ begin) × (begin ≤ end) × (end ≤ length packet.now) × (end - begin < 2 ^ 16) }
        ensures { read_on result ≡ tcp_rows version addresses packet.now begin end }
    {
        if end - begin < 20 {
            return Err(Cause::TcpShort.at(begin));
        }
        Ok(TcpBytes {
            version,
            addresses,
            packet,
            begin,
            end,
        })
    }

    // The rest of row 9, then 16 and 10, or what the packet brings.
    #[tactic(auto, using(choice::proofs::Choice::when_cond), unfolding(crate::specs::Read::tcp_rows))]
    fn read(self) -> PacketRead
        ensures { result ≡ tcp_read self.entry }
    {
        let data_offset_at = self.begin + 12;
        let flags_at = self.begin + 13;
        let checksum_at = self.begin + 16;
        let data_offset = self.data_offset();
        if data_offset < 20 {
            return Err(Cause::DataOffsetBelowFive.at(data_offset_at));
        }
        if self.len() < data_offset {
            return Err(Cause::DataOffsetPastTotal.at(data_offset_at));
        }
        if self.sum() != 0xffff {
            return Err(Cause::TcpSum.at(checksum_at));
        }
        let payload = self.len() - data_offset;
        check_flags(self.packet[flags_at], payload).map_err(|cause| cause.at(flags_at))?;
        Ok((self.flow(), self.segment()))
    }

    // TCP length: the octets of the header and the payload.
    fn len(self) -> usize
        ensures { result ≡ self.entry.end - self.entry.begin }
    {
        self.end - self.begin
    }

    // In bytes.
    fn data_offset(self) -> usize
        ensures { result ≡ data_offset self.entry.packet.now self.entry.begin }
    {
        self.packet[self.begin + 12] as usize / 16 * 4
    }

    // The ones' complement sum of the pseudo-header and the segment. The addresses are read after the segment was summed, so that none is kept
    // meanwhile.
    fn sum(self) -> u16
        ensures { result ≡ sum_of self.entry }
    {
        let segment = u64::from(ones_sum(&self.packet[self.begin..self.end]));
        carries_added(fields_added(self.flow(), self.len()) + segment)
    }

    // Inlined as `segment` is: else the compiler hands each of them the whole struct, and a call takes a fifth longer.
    #[inline(always)]
    fn flow(self) -> Flow
        ensures { result ≡ flow_in self.entry }
    {
        read_flow(self.version, self.packet, self.addresses, self.begin)
    }

    #[inline(always)]
    fn segment(self) -> Segment
        requires { self.begin + data_offset self.packet.now self.begin ≤ self.end }
        ensures { result ≡ segment_of self.entry.packet.now self.entry.begin self.entry.end }
    {
        let flags = self.packet[self.begin + 13];
        let payload = (self.len() - self.data_offset()) as u32;
        // As numbers, since they are counted: the clause adds `syn` and `fin`.
        let syn = u32::from(flags / 2 % 2);
        let fin = u32::from(flags % 2);
        Segment {
            seq: SeqNum(u32::read_be(self.packet, self.begin + 4)),
            ack: SeqNum(u32::read_be(self.packet, self.begin + 8)),
            window: OctetCount(u32::from(u16::read_be(self.packet, self.begin + 14))),
            flags: control_bits(flags),
            octets: OctetCount(payload + syn + fin),
        }
    }
}

// Reads an IPv4 packet; bytes past its total length are ignored.
pub fn read_ipv4(s: &[u8]) -> PacketRead
    ensures { (result ≡ read_ipv4 s.now) × (answer_and_offset result ≡ answer_and_offset (read_ipv4 s.now)) }
{
    TcpBytes::of_ipv4(s)?.read()
}
