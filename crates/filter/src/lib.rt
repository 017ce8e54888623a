// One call of the filter: the rows of document 01, with 16 of document 02, item 5, on a table of either IP version; and the filter of IPv4.
#![tactic(auto)]

ghost use Rattle.std.specs.Prelude.{◌≡◌, ◌+◌, ◌≤◌, length};
ghost use Rattle.address.specs.declared.Version.{Version};
ghost use Rattle.entry.specs.Layout.{header_size, entry_size, place_at};
ghost use Rattle.entry.specs.Viewed.{viewed, stored};
ghost use Rattle.rows.specs.Rows.{entry_with, sender_of, on_entry, opening_entry, unmatched, on_segment};
ghost use Rattle.rows.specs.Connections.{connections};
ghost use Rattle.connection.specs.Ends.{end_of};
ghost use Rattle.packet.specs.Read.{PacketRead};
ghost use Rattle.table.specs.Table.{view_of};
ghost use Rattle.filter.specs.Length.{legal_length, places_for};
ghost use Rattle.filter.specs.Call.{outcome_of, ipv4_outcome, reply_of, with_entry, table_after};
ghost use Rattle.filter.specs.Decision.{reason_number, reason_place, outcome_of_result, outcome_on};
ghost use Rattle.filter.specs.declared.BlockReason.TheVariants.{Packet, Segment};

use address::{Flow, Version};
use connection::{Clock, Connection, SegmentError, Sender};
use entry::{Entry, entry_size, place_at, store};
use packet::{PacketError, PacketRead, read_ipv4};
use segment::{Flag, Segment};
use table::{Table, set_clock};

// The first clock in ms that is too large.
const CLOCK_LIMIT: u64 = 1 << 48;

// The place of every answer but the packet reader's and a pass.
const NOWHERE: usize = 65_535;

// SYN without ACK, which opens a connection; the packet reader has refused SYN with FIN or RST.
const SYN: u8 = Flag::Syn as u8;

// Answer and place as the documents number them: so they go to C and into what the trace program prints.
#[derive(Clone, Copy, Debug, PartialEq, Eq)]
pub struct Reply {
    pub answer: u32,
    pub place: usize,
}

// Why a call is blocked.
#[derive(Clone, Copy, Debug, PartialEq, Eq)]
enum BlockReason {
    // 1: side is not 0 or 1.
    UnknownSide,
    // 2: clock is 2^48 ms or more.
    ClockTooLarge,
    // 3: table length is not that of a header and 1 to 512 entries.
    TableLength,
    // 4: table is unsound.
    UnsoundTable,
    // 5 to 10 and 16.
    Packet(PacketError),
    // 11: no live connection matches, and it is not SYN without ACK from side 0.
    Unmatched,
    // 12: such a SYN, but no place is free or expired.
    TableFull,
    // 13 to 15.
    Segment(SegmentError),
}

// What a pass stores: the clock used, and the entry that it leaves at a place.
#[derive(Clone, Copy)]
struct Pass {
    place: usize,
    clock: Clock,
    entry: Entry,
}

// What rows 1 to 4 let through: a sound table, the clock used and the packet's side.
#[derive(Clone, Copy)]
struct Call<'a> {
    table: Table<'a>,
    clock: Clock,
    side: u8,
}

// A segment with its addresses and ports, the side that it comes from, and the clock used.
#[derive(Clone, Copy)]
struct Arrival {
    clock: Clock,
    side: u8,
    flow: Flow,
    segment: Segment,
}

impl BlockReason {
    // The answer that the documents number; by a match, as some reasons have the number of what they carry.
    fn number(self) -> u32
        ensures { result ≡ reason_number self }
    {
        match self {
            BlockReason::UnknownSide => 1,
            BlockReason::ClockTooLarge => 2,
            BlockReason::TableLength => 3,
            BlockReason::UnsoundTable => 4,
            BlockReason::Packet(error) => error.cause.number(),
            BlockReason::Unmatched => 11,
            BlockReason::TableFull => 12,
            BlockReason::Segment(error) => error.number(),
        }
    }

    // The place of the answer: where the packet broke, or none.
    fn place(self) -> usize
        ensures { result ≡ reason_place self }
    {
        match self {
            BlockReason::Packet(error) => error.offset,
            _ => NOWHERE,
        }
    }
}

impl From<PacketError> for BlockReason {
    ghost from_gives = { λ error reason. reason ≡ Packet error };

    fn from(error: PacketError) -> BlockReason {
        BlockReason::Packet(error)
    }
}

impl From<SegmentError> for BlockReason {
    ghost from_gives = { λ error reason. reason ≡ Segment error };

    fn from(error: SegmentError) -> BlockReason {
        BlockReason::Segment(error)
    }
}

// The end that sent a matching segment, by its side.
#[tactic(auto, using(choice::proofs::Choice::when_cond), unfolding(rows::specs::Rows::sender_of))]
fn sender(entry: Entry, side: u8) -> Sender
    ensures { end_of result ≡ sender_of connections (viewed entry) side }
{
    if side == entry.connection.side {
        Sender::Opener
    } else {
        Sender::Answerer
    }
}

// An entry by its connection after a pass: free, if the pass has freed that.
#[tactic(auto, using(choice::proofs::Choice::when_cond, crate::proofs::Free::entry_by_default), unfolding(rows::specs::Rows::entry_with))]
fn entry_after(entry: Entry, after: Connection) -> Entry
    ensures { result ≡ stored (entry_with connections (viewed entry) after) }
{
    match after.stage {
        0 => Entry::default(),
        _ => Entry {
            connection: after,
            ..entry
        },
    }
}

impl Arrival {
    // Rows 11 to 15 and 0, on a sound table.
    #[tactic(auto, using(choice::proofs::Choice::when_cond), unfolding(rows::specs::Rows::on_segment))]
    fn on_table(self, table: &Table) -> Result<Pass, BlockReason>
        ensures { let w = view_of table.now.version table.now.bytes.now table.now.places in
            outcome_of_result result ≡ on_segment connections w self.clock.ms self.side self.flow self.segment }
    {
        match table.find(self.clock.ms, self.side, self.flow) {
            Some(place) => self.on_entry(place, table.load(place)),
            None => self.unmatched(table),
        }
    }

    // Rows 13 to 15 and 0, for a match at a place.
    #[tactic(auto, using(choice::proofs::Choice::when_cond), unfolding(rows::specs::Rows::on_entry, connection::specs::Decision::decided))]
    fn on_entry(self, place: usize, entry: Entry) -> Result<Pass, BlockReason>
        ensures { outcome_of_result result ≡ on_entry connections (viewed entry) place self.clock.ms self.side self.segment }
    {
        let sender = sender(entry, self.side);
        let after = entry.connection.decide(sender, self.segment, self.clock)?;
        Ok(Pass {
            place,
            clock: self.clock,
            entry: entry_after(entry, after),
        })
    }

    // Rows 11, 12 and 0, for a segment that no live connection matches.
    #[tactic(auto, using(choice::proofs::Choice::when_cond), unfolding(rows::specs::Rows::unmatched))]
    fn unmatched(self, table: &Table) -> Result<Pass, BlockReason>
        ensures { let w = view_of table.now.version table.now.bytes.now table.now.places in
            outcome_of_result result ≡ unmatched connections w self.clock.ms self.side self.flow self.segment }
    {
        if self.side != 0 || self.segment.flags != SYN {
            return Err(BlockReason::Unmatched);
        }
        let place = table.vacant(self.clock.ms).ok_or(BlockReason::TableFull)?;
        Ok(Pass {
            place,
            clock: self.clock,
            entry: self.opening_entry(),
        })
    }

    // The entry that an opening SYN makes.
    #[tactic(auto, unfolding(rows::specs::Rows::opening_entry))]
    fn opening_entry(self) -> Entry
        ensures { result ≡ stored (opening_entry connections self.clock.ms self.side self.flow self.segment) }
    {
        Entry {
            key: self.flow,
            connection: Connection::opened(self.side, self.segment, self.clock),
        }
    }
}

impl Pass {
    // Writes the clock used and the entry. The table is lent to be written here, which no Table or Place is.
    fn store(self, version: Version, table: &mut [u8])
        requires { place_at version self.place + entry_size version ≤ length table.old }
        ensures { table.new ≡ with_entry version table.old self.place self.clock.ms self.entry }
    {
        set_clock(table, self.clock.ms);
        store(version, table, self.place, self.entry);
    }
}

// Row 3: a header and n entries with n from 1 to 512.
#[tactic(auto, using(crate::proofs::Rows::offsets), unfolding(crate::specs::Length::legal_length))]
fn legal_length(version: Version, n: usize) -> bool
    ensures { result ≡ legal_length version n }
{
    place_at(version, 1) <= n
        && (n - place_at(version, 0)) % entry_size(version) == 0
        && n <= place_at(version, 512)
}

// How many entries a table of n bytes has. Divided by literals: by `entry_size` the compiler makes a slower loop of the scan.
#[tactic(auto, using(crate::proofs::Rows::offsets), unfolding(crate::specs::Length::places_for))]
fn places_for(version: Version, n: usize) -> usize
    requires { header_size ≤ n }
    ensures { result ≡ places_for version n }
{
    let entries = n - place_at(version, 0);
    match version {
        Version::V4 => entries / 64,
        Version::V6 => entries / 96,
    }
}

impl<'a> Call<'a> {
    // Rows 1 to 4.
    #[tactic(auto, using(choice::proofs::Choice::when_cond, crate::proofs::Rows::lengths), unfolding(crate::specs::Call::outcome_of))]
    fn of(version: Version, side: u32, clock: u64, bytes: &'a [u8]) -> Result<Self, BlockReason>
        ensures { (read : PacketRead) → outcome_on result read ≡ outcome_of version side clock bytes.now read }
    {
        if 1 < side {
            return Err(BlockReason::UnknownSide);
        }
        if CLOCK_LIMIT <= clock {
            return Err(BlockReason::ClockTooLarge);
        }
        if !legal_length(version, bytes.len()) {
            return Err(BlockReason::TableLength);
        }
        let places = places_for(version, bytes.len());
        let table = Table {
            version,
            bytes,
            places,
        };
        if !table.is_sound() {
            return Err(BlockReason::UnsoundTable);
        }
        Ok(Call {
            table,
            clock: Clock {
                ms: clock.max(table.clock()),
            },
            side: side as u8,
        })
    }

    // Rows 5 to 16 and 0, by what was read of the packet.
    fn on_read(self, read: PacketRead) -> Result<Pass, BlockReason>
        ensures { outcome_of_result result ≡ outcome_on (Ok self.entry) read }
    {
        let (flow, segment) = read?;
        let arrival = Arrival {
            clock: self.clock,
            side: self.side,
            flow,
            segment,
        };
        arrival.on_table(&self.table)
    }
}

// What a call comes to. The packet is read after rows 1 to 4, in the list's order; read before them, a scan of one place takes 1.1 times as long.
fn decide_ipv4(side: u32, clock: u64, table: &[u8], packet: &[u8]) -> Result<Pass, BlockReason>
    ensures { outcome_of_result result ≡ ipv4_outcome side clock table.now packet.now }
{
    let call = Call::of(Version::V4, side, clock, table)?;
    call.on_read(read_ipv4(packet))
}

// One call of the IPv4 filter: the answer and the place, and the table that it leaves.
pub fn filter_ipv4(side: u32, clock: u64, table: &mut [u8], packet: &[u8]) -> Reply
    ensures { let o = ipv4_outcome side clock table.old packet.now in
        (result ≡ reply_of o) × (table.new ≡ table_after Version.V4 table.old o) }
{
    match decide_ipv4(side, clock, table, packet) {
        Ok(pass) => {
            pass.store(Version::V4, table);
            Reply {
                answer: 0,
                place: pass.place,
            }
        }
        Err(reason) => Reply {
            answer: reason.number(),
            place: reason.place(),
        },
    }
}
