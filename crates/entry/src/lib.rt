// One entry of the table by value: loaded from its place in lent bytes, and stored there (document 01, "The table"), in the layout of
// either IP version.
#![tactic(auto)]

ghost use Rattle.std.specs.Prelude.{◌≡◌, ◌+◌, ◌%◌, ◌^◌, ◌≤◌, ◌<◌, length, replicate, take, drop};
ghost use Rattle.octets.specs.BigEndian.{big_endian};
ghost use Rattle.octets.specs.Overwrite.{overwrite};
ghost use Rattle.address.specs.Address.{address_size};
ghost use Rattle.address.specs.Flows.{same_flow};
ghost use Rattle.entry.specs.Layout.{addresses_at, ports_at, numbers_at, rest_at, rest_size, entry_size, place_at};
ghost use Rattle.entry.specs.Layout.{marks_bytes, flow_bytes, end_bytes, numbers_bytes, entry_bytes, end_at, connection_at, entry_at};

use address::{Flow, Version, flow_is, read_flow, write_address};
use connection::{Connection, End};
use octets::BigEndianNumber;
use serial::{OctetCount, SeqNum};

// Addresses and ports stand the opener's way round. By default it is free: all zeros.
#[derive(Clone, Copy, Debug, Default, PartialEq, Eq)]
pub struct Entry {
    pub key: Flow,
    pub connection: Connection,
}

// The layout

const HEADER_SIZE: usize = 64;

// An entry begins with its marks: stage, opener's side, FIN bits, zero.
const SIDE: usize = 1;

const FINS: usize = 2;

const BLANK: usize = 3;

// Its numbers are the deadline, the opener's record and the answerer's.
const OPENER: usize = 8;

const ANSWERER: usize = 20;

// A record is end, edge, win.
const EDGE: usize = 4;

const WIN: usize = 8;

pub fn entry_size(version: Version) -> usize
    ensures { result ≡ entry_size version }
{
    match version {
        Version::V4 => 64,
        Version::V6 => 96,
    }
}

// How many zeros end it.
fn rest_size(version: Version) -> usize
    ensures { result ≡ rest_size version }
{
    match version {
        Version::V4 => 16,
        Version::V6 => 24,
    }
}

// Where the entry at a place begins.
#[tactic(auto, using(choice::proofs::Choice::when_cond), unfolding(crate::specs::Layout::place_at))]
pub fn place_at(version: Version, place: usize) -> usize
    requires { place_at version place < 2 ^ 64 }
    ensures { result ≡ place_at version place }
{
    HEADER_SIZE + entry_size(version) * place
}

// Where the addresses of the entry at an offset begin.
fn addresses_at(at: usize) -> usize
    requires { addresses_at at < 2 ^ 64 }
    ensures { result ≡ addresses_at at }
{
    at + 4
}

// Its ports, after both addresses.
fn ports_at(version: Version, at: usize) -> usize
    requires { ports_at version at < 2 ^ 64 }
    ensures { result ≡ ports_at version at }
{
    addresses_at(at) + 2 * version.address_size()
}

// Its deadline and its two records, after both ports.
fn numbers_at(version: Version, at: usize) -> usize
    requires { numbers_at version at < 2 ^ 64 }
    ensures { result ≡ numbers_at version at }
{
    ports_at(version, at) + 4
}

// The zeros that end it.
fn rest_at(version: Version, at: usize) -> usize
    requires { rest_at version at < 2 ^ 64 }
    ensures { result ≡ rest_at version at }
{
    numbers_at(version, at) + 32
}

// One end's record.
fn load_end(table: &[u8], at: usize) -> End
    requires { at + 12 ≤ length table.now }
    ensures { result ≡ end_at table.now at }
{
    End {
        end: SeqNum(u32::read_be(table, at)),
        edge: SeqNum(u32::read_be(table, at + EDGE)),
        win: OctetCount(u32::read_be(table, at + WIN)),
    }
}

// Loading

// Where an entry begins in a table that has all of it.
#[derive(Clone, Copy)]
pub struct Place<'a> {
    pub version: Version,
    pub table: &'a [u8],
    pub at: usize,
    pub ghost inside: { at + entry_size version ≤ length table.now },
}

impl<'a> Place<'a> {
    // The place of this number. It asks for the fact that the type keeps.
    pub fn of(version: Version, table: &'a [u8], place: usize) -> Self
        requires { place_at version place + entry_size version ≤ length table.now }
        ensures version { result.version ≡ version }
        ensures table { result.table.now ≡ table.now }
        ensures at { result.at ≡ place_at version place }
    {
        Place {
            version,
            table,
            at: place_at(version, place),
        }
    }

    // The opener's side.
    #[tactic(auto, unfolding(crate::specs::Layout::entry_at, crate::specs::Layout::connection_at))]
    pub fn side(&self) -> u8
        ensures { result ≡ (entry_at self.now.version self.now.table.now self.now.at).connection.side }
    {
        self.table[self.at + SIDE]
    }

    pub fn deadline(&self) -> u64
        ensures { result ≡ big_endian 8 self.now.table.now (numbers_at self.now.version self.now.at) }
    {
        u64::read_be(self.table, numbers_at(self.version, self.at))
    }

    // Two functions for the two records, as each has its offset in the layout and one line of code.
    pub fn opener(&self) -> End
        ensures { result ≡ end_at self.now.table.now (numbers_at self.now.version self.now.at + 8) }
    {
        load_end(self.table, numbers_at(self.version, self.at) + OPENER)
    }

    pub fn answerer(&self) -> End
        ensures { result ≡ end_at self.now.table.now (numbers_at self.now.version self.now.at + 20) }
    {
        load_end(self.table, numbers_at(self.version, self.at) + ANSWERER)
    }

    // Whether it has these addresses and ports, the opener's first.
    #[tactic(auto, using(choice::proofs::Choice::when_cond), unfolding(address::specs::Flows::same_flow, crate::specs::Layout::entry_at))]
    pub fn key_is(&self, flow: Flow) -> bool
        ensures { result ≡ same_flow flow (entry_at self.now.version self.now.table.now self.now.at).key }
    {
        flow_is(
            self.version,
            self.table,
            addresses_at(self.at),
            ports_at(self.version, self.at),
            flow,
        )
    }

    // The entry without its addresses and ports.
    #[tactic(auto, unfolding(crate::specs::Layout::entry_at, crate::specs::Layout::connection_at))]
    fn connection(&self) -> Connection
        ensures { result ≡ connection_at self.now.table.now self.now.at (numbers_at self.now.version self.now.at) }
    {
        Connection {
            stage: self.table[self.at],
            side: self.side(),
            fins: self.table[self.at + FINS],
            deadline: self.deadline(),
            ends: [self.opener(), self.answerer()],
        }
    }

    // All its octets, in whole words of eight.
    pub fn octets(&self) -> &'a [u8]
        ensures octets { result.now ≡ take (entry_size self.now.version) (drop self.now.at self.now.table.now) }
        ensures words { length result.now % 8 ≡ 0 }
    {
        &self.table[self.at..self.at + entry_size(self.version)]
    }

    // The zeros that end it, in whole words too.
    pub fn rest(&self) -> &'a [u8]
        ensures octets { result.now ≡ take (rest_size self.now.version) (drop (rest_at self.now.version self.now.at) self.now.table.now) }
        ensures words { length result.now % 8 ≡ 0 }
    {
        let rest = rest_at(self.version, self.at);
        &self.table[rest..rest + rest_size(self.version)]
    }

    #[tactic(auto, unfolding(crate::specs::Layout::entry_at))]
    pub fn entry(&self) -> Entry
        ensures { result ≡ entry_at self.now.version self.now.table.now self.now.at }
    {
        Entry {
            key: read_flow(
                self.version,
                self.table,
                addresses_at(self.at),
                ports_at(self.version, self.at),
            ),
            connection: self.connection(),
        }
    }
}

// The entry at a place. The Place is made for this call, so that its fact is asked for.
pub fn load(version: Version, table: &[u8], place: usize) -> Entry
    requires { place_at version place + entry_size version ≤ length table.now }
    ensures { result ≡ entry_at version table.now (place_at version place) }
{
    Place::of(version, table, place).entry()
}

// Storing. Table and offset are given apart: a struct that lends the table would be made for each part that is stored.

// One end's record.
fn store_end(table: &mut [u8], at: usize, end: End)
    requires { at + 12 ≤ length table.old }
    ensures { table.new ≡ overwrite table.old at (end_bytes end) }
{
    end.end.0.write_be(table, at);
    end.edge.0.write_be(table, at + EDGE);
    end.win.0.write_be(table, at + WIN);
}

// Stage, opener's side, FIN bits and the zero byte after them.
#[tactic(auto, using(octets::proofs::Library::copied_part), unfolding(crate::specs::Layout::marks_bytes))]
fn store_marks(table: &mut [u8], at: usize, connection: Connection)
    requires { at + 4 ≤ length table.old }
    ensures { table.new ≡ overwrite table.old at (marks_bytes connection) }
{
    table[at..at + 4].copy_from_slice(&[connection.stage, connection.side, connection.fins, 0]);
}

// Both addresses, then both ports.
fn store_flow(version: Version, table: &mut [u8], at: usize, flow: Flow)
    requires { at + address_size version + address_size version + 4 ≤ length table.old }
    ensures { table.new ≡ overwrite table.old at (flow_bytes version flow) }
{
    let next = at + version.address_size();
    let ports = next + version.address_size();
    write_address(version, table, at, flow.from.address);
    write_address(version, table, next, flow.to.address);
    flow.from.port.write_be(table, ports);
    flow.to.port.write_be(table, ports + 2);
}

// The deadline and the two records.
fn store_numbers(table: &mut [u8], at: usize, connection: Connection)
    requires { at + 32 ≤ length table.old }
    ensures { table.new ≡ overwrite table.old at (numbers_bytes connection) }
{
    let [opener, answerer] = connection.ends;
    connection.deadline.write_be(table, at);
    store_end(table, at + OPENER, opener);
    store_end(table, at + ANSWERER, answerer);
}

// The zeros that end an entry.
fn store_rest(version: Version, table: &mut [u8], at: usize)
    requires { at + rest_size version ≤ length table.old }
    ensures { table.new ≡ overwrite table.old at (replicate (rest_size version) 0) }
{
    table[at..at + rest_size(version)].fill(0);
}

// All bytes of the place are written, the zero ones too. The table is lent to be written, which no Place is.
pub fn store(version: Version, table: &mut [u8], place: usize, entry: Entry)
    requires { place_at version place + entry_size version ≤ length table.old }
    ensures { table.new ≡ overwrite table.old (place_at version place) (entry_bytes version entry) }
{
    let at = place_at(version, place);
    store_marks(table, at, entry.connection);
    store_flow(version, table, addresses_at(at), entry.key);
    store_numbers(table, numbers_at(version, at), entry.connection);
    store_rest(version, table, rest_at(version, at));
}
