// Addresses of both IP versions as one type, in lent bytes at an offset. An address is the big-endian number of its 4 or 16 octets.
#![tactic(auto)]

ghost use Rattle.std.specs.Prelude.{◌≡◌, ◌+◌, ◌≤◌, length};
ghost use Rattle.octets.specs.Overwrite.{overwrite};
ghost use Rattle.address.specs.Address.{address_size, address_at, address_octets, flow_at};
ghost use Rattle.address.specs.Flows.{reversed, same_flow};

use octets::BigEndianNumber;

#[derive(Clone, Copy, Debug, PartialEq, Eq)]
pub enum Version {
    V4,
    V6,
}

impl Version {
    pub fn address_size(self) -> usize
        ensures { result ≡ address_size self }
    {
        match self {
            Version::V4 => 4,
            Version::V6 => 16,
        }
    }
}

// The number high·2^64 + low: an IPv4 address has high 0. Low first, as `==` compares in this order, and low parts differ nearly always.
#[derive(Clone, Copy, Debug, Default, PartialEq, Eq)]
pub struct Address {
    pub low: u64,
    pub high: u64,
}

// One end's address and port.
#[derive(Clone, Copy, Debug, Default, PartialEq, Eq)]
pub struct Endpoint {
    pub address: Address,
    pub port: u16,
}

// Addresses and ports, the sender's first; in an entry, the opener's first.
#[derive(Clone, Copy, Debug, Default, PartialEq, Eq)]
pub struct Flow {
    pub from: Endpoint,
    pub to: Endpoint,
}

impl Flow {
    pub fn reversed(self) -> Flow
        ensures { result ≡ reversed self }
    {
        Flow {
            from: self.to,
            to: self.from,
        }
    }
}

fn read_address(version: Version, s: &[u8], at: usize) -> Address
    requires { at + address_size version ≤ length s.now }
    ensures { result ≡ address_at version s.now at }
{
    match version {
        Version::V4 => Address {
            high: 0,
            low: u64::from(u32::read_be(s, at)),
        },
        Version::V6 => Address {
            high: u64::read_be(s, at),
            low: u64::read_be(s, at + 8),
        },
    }
}

// Two addresses in a row, and their two ports in a row.
pub fn read_flow(version: Version, s: &[u8], addresses: usize, ports: usize) -> Flow
    requires { (addresses + address_size version + address_size version ≤ length s.now) × (ports + 4 ≤ length s.now) }
    ensures { result ≡ flow_at version s.now addresses ports }
{
    let next = addresses + version.address_size();
    Flow {
        from: Endpoint {
            address: read_address(version, s, addresses),
            port: u16::read_be(s, ports),
        },
        to: Endpoint {
            address: read_address(version, s, next),
            port: u16::read_be(s, ports + 2),
        },
    }
}

// Addresses and ports are those at two offsets, each read only if those before it agree: as flow == read_flow(..) all four would be read
// first, and a call that searches 512 live places takes 1.17 times as long.
#[tactic(auto, unfolding(crate::specs::Flows::same_flow))]
pub fn flow_is(version: Version, s: &[u8], addresses: usize, ports: usize, flow: Flow) -> bool
    requires { (addresses + address_size version + address_size version ≤ length s.now) × (ports + 4 ≤ length s.now) }
    ensures { result ≡ same_flow flow (flow_at version s.now addresses ports) }
{
    let next = addresses + version.address_size();
    flow.from.address == read_address(version, s, addresses)
        && flow.to.address == read_address(version, s, next)
        && flow.from.port == u16::read_be(s, ports)
        && flow.to.port == u16::read_be(s, ports + 2)
}

pub fn write_address(version: Version, s: &mut [u8], at: usize, address: Address)
    requires { at + address_size version ≤ length s.old }
    ensures { s.new ≡ overwrite s.old at (address_octets version address) }
{
    match version {
        Version::V4 => ((address.low % 4294967296) as u32).write_be(s, at),
        Version::V6 => {
            address.high.write_be(s, at);
            address.low.write_be(s, at + 8);
        }
    }
}
