// Runs a script over the packet reader, the reader and the writer of trace lines, and the ones' complement sum. Each line of the script is
// one of
//   # TEXT                          echo this line
//   b HEX                           append these bytes, at most 2,000, to the buffer
//   f BB NNNNN                      append NNNNN copies of the byte BB
//   p                               read the buffer as a packet
//   r NNNNN                         read the buffer as a trace line into NNNNN bytes
//   w SS CCCCCCCCCCCCCCCC NNNNN     write the buffer as a trace line into NNNNN bytes, with this side and clock
//   s                               sum the buffer, of at most 65,535 bytes
// and p, r, w and s empty the buffer and print one of
//   ANSWER OFFSET                   p, refused
//   0 SOURCE DESTINATION SPORT DPORT SEQ ACK WINDOW FLAGS OCTETS
//   ANSWER SIDE CLOCK LENGTH OFFSET HEX
//   ANSWER LENGTH TEXT
//   SUM                             four hex digits
// where HEX and TEXT are all NNNNN bytes, each '.' before, or '-' where there are none.
#![tactic(auto, using(script::proofs::Growth::growth))]

ghost use Rattle.std.specs.Prelude.{◌<◌, ◌≤◌, OnOk};
ghost use Rattle.script.specs.Output.{all_put};
ghost use Rattle.script.specs.Steps.{Grows};

use address::Flow;
use script::{Output, Script};
use segment::Segment;
use std::io;
use std::io::Write;
use trace::{ReadAnswer, WriteAnswer};

// The bytes that the next p, r, w or s is on: the first `used` bytes of an array, with room for more than the longest packet. No ArrayVec,
// which writes zeroes over all that it held whenever it is cleared.
#[derive(Drop)]
struct Vectors {
    buffer: [u8; 66000],
    used: usize,
    ghost inside: { used ≤ 66000 },
}

// The byte that two hex digits stand for.
fn hex_pair(line: &[u8], at: usize) -> u8
    requires { at < 4096 }
{
    trace::hex_value(script::character(line, at)) * 16
        + trace::hex_value(script::character(line, at + 1))
}

// The number that 16 hex digits stand for. Not the reader's of trace lines, which has all its digits: here those past the line's end are 0.
fn hex_number(line: &[u8], at: usize) -> u64
    requires { at < 4096 }
{
    (at..at + 16).fold(0, |v: u64, i| {
        v << 4 | u64::from(trace::hex_value(script::character(line, i)))
    })
}

// A decimal field, which has at most five digits.
fn decimal_number(line: &[u8], at: usize) -> usize
    ensures { result < 100000 }
{
    (script::decimal_field(line, at) % 100_000) as usize
}

impl Vectors {
    // The bytes.
    fn bytes(&self) -> &[u8] {
        &self.buffer[..self.used]
    }

    // Appends n copies of b, as far as the buffer has room for them.
    fn append(&mut self, b: u8, n: usize) {
        let end = self.used + n.min(66000 - self.used);
        self.buffer[self.used..end].fill(b);
        self.used = end;
    }

    // Appends the bytes of a b line.
    fn append_hex(&mut self, line: &[u8]) {
        if let Some(digits) = line.get(2..) {
            for pair in digits.chunks(2) {
                self.append(hex_pair(pair, 0), 1);
            }
        }
    }
}

// Puts each byte as two hex digits.
fn put_hex<W: Write>(bytes: &[u8], out: &mut Output<W>) -> io::Result<()>
    ensures { OnOk result (Grows (all_put W.contents out.old) (all_put W.contents out.new)) }
{
    for &b in bytes {
        out.put_bytes(&[trace::hex_digit(b / 16), trace::hex_digit(b % 16)])?;
    }
    Ok(())
}

fn put_segment<W: Write>(flow: Flow, segment: Segment, out: &mut Output<W>) -> io::Result<()>
    ensures { OnOk result (Grows (all_put W.contents out.old) (all_put W.contents out.new)) }
{
    let fields = [
        flow.from.address.low,
        flow.to.address.low,
        u64::from(flow.from.port),
        u64::from(flow.to.port),
        u64::from(segment.seq.0),
        u64::from(segment.ack.0),
        u64::from(segment.window.0),
        u64::from(segment.flags),
        u64::from(segment.octets.0),
    ];
    out.put_fields(0, &fields)
}

// The command p.
fn read_packet<W: Write>(bytes: &[u8], out: &mut Output<W>) -> io::Result<()>
    ensures { OnOk result (Grows (all_put W.contents out.old) (all_put W.contents out.new)) }
{
    match packet::read_ipv4(bytes) {
        Ok((flow, segment)) => put_segment(flow, segment, out),
        Err(refused) => out.put_fields(u64::from(refused.cause.number()), &[refused.offset as u64]),
    }
}

// Puts what stands before bytes: a space, and a dash where there are none.
fn put_gap<W: Write>(bytes: &[u8], out: &mut Output<W>) -> io::Result<()>
    ensures { OnOk result (Grows (all_put W.contents out.old) (all_put W.contents out.new)) }
{
    let gap: &[u8] = if bytes.is_empty() { b" -" } else { b" " };
    out.put_bytes(gap)
}

// Reads bytes as a trace line into packet, and puts the answer and all of packet.
fn show_read<W: Write>(bytes: &[u8], packet: &mut [u8], out: &mut Output<W>) -> io::Result<()>
    ensures { OnOk result (Grows (all_put W.contents out.old) (all_put W.contents out.new)) }
{
    let answer = ReadAnswer::from(trace::read_line(bytes, packet));
    let fields = [
        u64::from(answer.side),
        answer.clock,
        answer.length as u64,
        answer.offset as u64,
    ];
    out.put_fields(u64::from(answer.number), &fields)?;
    put_gap(packet, out)?;
    put_hex(packet, out)
}

// The command r.
fn read_line<W: Write>(line: &[u8], bytes: &[u8], out: &mut Output<W>) -> io::Result<()>
    ensures { OnOk result (Grows (all_put W.contents out.old) (all_put W.contents out.new)) }
{
    let mut packet = [b'.'; 2100];
    let n = decimal_number(line, 1).min(2100);
    show_read(bytes, &mut packet[..n], out)
}

// Writes bytes as a trace line into text, and puts the answer and all of text.
fn show_written<W: Write>(
    line: &[u8],
    bytes: &[u8],
    text: &mut [u8],
    out: &mut Output<W>,
) -> io::Result<()>
    ensures { OnOk result (Grows (all_put W.contents out.old) (all_put W.contents out.new)) }
{
    let side = u32::from(hex_pair(line, 2));
    let answer = WriteAnswer::from(trace::write_line(side, hex_number(line, 5), bytes, text));
    out.put_fields(u64::from(answer.number), &[answer.length as u64])?;
    put_gap(text, out)?;
    out.put_bytes(text)
}

// The command w.
fn write_line<W: Write>(line: &[u8], bytes: &[u8], out: &mut Output<W>) -> io::Result<()>
    ensures { OnOk result (Grows (all_put W.contents out.old) (all_put W.contents out.new)) }
{
    let mut text = [b'.'; 4200];
    let n = decimal_number(line, 3).min(4200);
    show_written(line, bytes, &mut text[..n], out)
}

// The command s; what is past 65,535 bytes is left out.
fn sum<W: Write>(bytes: &[u8], out: &mut Output<W>) -> io::Result<()>
    ensures { OnOk result (Grows (all_put W.contents out.old) (all_put W.contents out.new)) }
{
    let n = bytes.len().min(65535);
    let sum = checksum::ones_sum(&bytes[..n]);
    put_hex(&sum.to_be_bytes(), out)
}

impl Script for Vectors {
    fn step<W: Write>(&mut self, line: &[u8], out: &mut Output<W>) -> io::Result<()> {
        // By one match: closures in a table, one for each letter, would be no plainer.
        match script::character(line, 0) {
            b'b' => {
                self.append_hex(line);
                return Ok(());
            }
            b'f' => {
                self.append(hex_pair(line, 2), decimal_number(line, 2));
                return Ok(());
            }
            b'p' => read_packet(self.bytes(), out)?,
            b'r' => read_line(line, self.bytes(), out)?,
            b's' => sum(self.bytes(), out)?,
            b'w' => write_line(line, self.bytes(), out)?,
            _ => {
                out.put_bytes(line)?;
                return out.put(b'\n');
            }
        }
        self.used = 0;
        out.put(b'\n')
    }
}

fn main(rt: HostRuntime) -> io::Result<()> {
    let vectors = Vectors {
        buffer: [0; 66000],
        used: 0,
    };
    let _writer = script::run(rt.stdin(), rt.stdout(), vectors)?;
    Ok(())
}
