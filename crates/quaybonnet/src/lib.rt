// The library for programs in C and Rust: include/quaybonnet.h says how each function is called.
#![tactic(auto)]

ghost use Rattle.std.specs.Prelude.{◌≡◌, ◌+◌, ◌*◌, ◌≤◌};
ghost use Rattle.filter.specs.Call.{ipv4_outcome, reply_of, table_after};
ghost use Rattle.trace.specs.Read.{packet_after_reading, reading};
ghost use Rattle.trace.specs.Write.{line_after_writing, writing};
ghost use Rattle.quaybonnet.specs.Packed.{packed};

use address::Version;
use trace::{ReadAnswer, WriteAnswer};

// The answer and the place as one number.
fn pack(answer: u32, place: usize) -> u32
    requires { (answer ≤ 16) × (place ≤ 65535) }
    ensures { result ≡ answer * 65536 + place }
{
    answer * 65536 + (place as u32)
}

// One call of the filter: answer·65,536 + place.
#[unsafe(no_mangle)]
pub extern "C" fn qb_filter(side: u32, clock: u64, table: &mut [u8], packet: &[u8]) -> u32
    ensures { let o = ipv4_outcome side clock table.old packet.now in
        (result ≡ packed (reply_of o)) × (table.new ≡ table_after Version.V4 table.old o) }
{
    let reply = filter::filter_ipv4(side, clock, table, packet);
    pack(reply.answer, reply.place)
}

// Reads a trace line: 0, 21, 22 or 23. The four numbers are stored on every answer.
#[unsafe(no_mangle)]
pub extern "C" fn qb_read_line(
    line: &[u8],
    packet: &mut [u8],
    side: &mut u8,
    clock: &mut u64,
    length: &mut usize,
    offset: &mut usize,
) -> u32
    ensures { let a = reading line.now packet.old in
        (result ≡ a.number)
        × (side.new ≡ a.side)
        × (clock.new ≡ a.clock)
        × (length.new ≡ a.length)
        × (offset.new ≡ a.offset)
        × (packet.new ≡ packet_after_reading line.now packet.old) }
{
    let read = ReadAnswer::from(trace::read_line(line, packet));
    *side = read.side;
    *clock = read.clock;
    *length = read.length;
    *offset = read.offset;
    read.number
}

// Writes a packet as a trace line: 0, 1, 2, 24 or 23. The length is stored on every answer.
#[unsafe(no_mangle)]
pub extern "C" fn qb_write_line(
    side: u32,
    clock: u64,
    packet: &[u8],
    line: &mut [u8],
    length: &mut usize,
) -> u32
    ensures { let a = writing side clock packet.now line.old in
        (result ≡ a.number)
        × (length.new ≡ a.length)
        × (line.new ≡ line_after_writing side clock packet.now line.old) }
{
    let written = WriteAnswer::from(trace::write_line(side, clock, packet, line));
    *length = written.length;
    written.number
}
