// Trace lines: document 01, "Trace lines". One line holds one packet with its side and clock.
#![tactic(auto)]

ghost use Rattle.std.specs.Prelude.{◌≡◌, ℕ, true, cond, not, ◌+◌, ◌*◌, ◌^◌, ◌≤◌, ◌<◌, length, position};
ghost use Rattle.std.specs.List.{enumerate_from};
ghost use Rattle.trace.specs.Hex.{is_hex, hex_value, hex_digit, hex_number, hex_digits, hex_pairs};
ghost use Rattle.trace.specs.Line.{may_stand, line_packet, line_of};
ghost use Rattle.trace.specs.Read.{illegal_from, first_illegal, HexFrom, read_line, packet_after_reading, read_answer, reading};
ghost use Rattle.trace.specs.Write.{write_line, line_after_writing, write_answer, writing};

use octets::write_digits;

// What a legal line says of its packet.
#[derive(Clone, Copy, Debug, PartialEq, Eq)]
pub struct Frame {
    pub side: u8,
    pub clock: u64,
    // How many bytes of the output are the packet's.
    pub length: usize,
}

// Why a line is not read.
#[derive(Clone, Copy, Debug, PartialEq, Eq)]
pub enum ReadLineError {
    // 21: over 4,111 characters.
    TooLong,
    // 22: the offset of the first byte that no legal line has there, or the length of a line that stops early.
    Malformed(usize),
    // 23: the packet does not fit the output.
    NoRoom,
}

// Why a line is not written.
#[derive(Clone, Copy, Debug, PartialEq, Eq)]
pub enum WriteLineError {
    // 1: a side that is not 0 or 1.
    UnknownSide,
    // 2: a clock of 2^48 ms or more.
    ClockTooLarge,
    // 24: a packet that is empty or over 2,048 bytes.
    PacketLength,
    // 23: the line does not fit the output.
    NoRoom,
}

// The reader's answer in document 01's numbers, as C and the tests have it.
#[derive(Clone, Copy, Debug, Default, PartialEq, Eq)]
pub struct ReadAnswer {
    pub number: u32,
    pub side: u8,
    pub clock: u64,
    pub length: usize,
    pub offset: usize,
}

// The writer's answer in document 01's numbers, as C and the tests have it.
#[derive(Clone, Copy, Debug, Default, PartialEq, Eq)]
pub struct WriteAnswer {
    pub number: u32,
    pub length: usize,
}

impl From<Result<Frame, ReadLineError>> for ReadAnswer {
    ghost from_gives = { λ read answer. answer ≡ read_answer read };

    #[tactic(auto, unfolding(crate::specs::Read::read_answer))]
    fn from(read: Result<Frame, ReadLineError>) -> ReadAnswer {
        match read {
            Ok(frame) => ReadAnswer {
                side: frame.side,
                clock: frame.clock,
                length: frame.length,
                ..ReadAnswer::default()
            },
            Err(ReadLineError::TooLong) => ReadAnswer {
                number: 21,
                ..ReadAnswer::default()
            },
            Err(ReadLineError::Malformed(offset)) => ReadAnswer {
                number: 22,
                offset,
                ..ReadAnswer::default()
            },
            Err(ReadLineError::NoRoom) => ReadAnswer {
                number: 23,
                ..ReadAnswer::default()
            },
        }
    }
}

impl From<Result<usize, WriteLineError>> for WriteAnswer {
    ghost from_gives = { λ written answer. answer ≡ write_answer written };

    #[tactic(auto, unfolding(crate::specs::Write::write_answer))]
    fn from(written: Result<usize, WriteLineError>) -> WriteAnswer {
        let (number, length) = match written {
            Ok(length) => (0, length),
            Err(WriteLineError::UnknownSide) => (1, 0),
            Err(WriteLineError::ClockTooLarge) => (2, 0),
            Err(WriteLineError::PacketLength) => (24, 0),
            Err(WriteLineError::NoRoom) => (23, 0),
        };
        WriteAnswer { number, length }
    }
}

#[tactic(auto, unfolding(crate::specs::Hex::is_decimal, crate::specs::Hex::is_letter, crate::specs::Hex::is_hex))]
fn is_hex(b: u8) -> bool
    ensures { result ≡ is_hex b }
{
    matches!(b, b'0'..=b'9' | b'a'..=b'f')
}

// What a hex digit is worth; 0 for any other byte and no Option, as the definition of the same name has it.
#[tactic(auto, using(choice::proofs::Choice::when_cond), unfolding(crate::specs::Hex::is_decimal, crate::specs::Hex::is_letter, crate::specs::Hex::hex_value))]
pub fn hex_value(b: u8) -> u8
    ensures { (result ≡ hex_value b) × (result < 16) }
{
    match b {
        b'0'..=b'9' => b - b'0',
        b'a'..=b'f' => b - 87,
        _ => 0,
    }
}

// The hex digit that is worth d.
#[tactic(auto, using(choice::proofs::Choice::when_cond), unfolding(crate::specs::Hex::hex_digit))]
pub fn hex_digit(d: u8) -> u8
    requires { d < 16 }
    ensures { result ≡ hex_digit d }
{
    if d < 10 { 48 + d } else { 87 + d }
}

// May byte b stand at position i of a line?
#[tactic(auto, using(choice::proofs::Choice::when_cond), unfolding(crate::specs::Line::may_stand))]
fn may_stand(i: usize, b: u8) -> bool
    ensures { result ≡ may_stand i b }
{
    match i {
        0 => b == b'0' || b == b'1',
        1 | 14 => b == b' ',
        _ => is_hex(b),
    }
}

// The first position whose byte may not stand there.
fn first_that_may_not_stand(line: &[u8]) -> Option<usize>
    ensures { result ≡ position (λ (p : ℕ × ℕ). not (may_stand p.0 p.1)) (enumerate_from 0 line.now) }
{
    line.iter().enumerate().position(|(i, b)| !may_stand(i, *b))
}

// 0 for a hex digit, 1 for any other byte: a number of its own, as `u8::from(!is_hex(..))` in the fold is not taken many at a time, and
// reading lines then takes 1.3 to 2.4 times as long.
fn not_hex(b: u8) -> u8
    ensures { result ≡ cond (is_hex b) 0 1 }
{
    if is_hex(b) { 0 } else { 1 }
}

// Not so only if a byte is no hex digit. It has no early return, so that many bytes are tested at a time.
fn all_hex(bytes: &[u8]) -> bool
    ensures { result ≡ true → HexFrom bytes.now 0 (length bytes.now) }
{
    let worst = bytes.iter().fold(0, |worst: u8, b| worst.max(not_hex(*b)));
    worst == 0
}

// An illegal byte is rare: past the head all bytes are tested at once, and only if one is no hex digit is it looked for.
// The length where all may stand, as the definition has it.
fn first_illegal(line: &[u8]) -> usize
    ensures { result ≡ first_illegal line.now }
{
    let len = line.len();
    let head = len.min(15);
    if let Some(i) = first_that_may_not_stand(&line[..head]) {
        return i;
    }
    if all_hex(&line[head..]) {
        return len;
    }
    first_that_may_not_stand(line).unwrap_or(len)
}

// The number that hex digits stand for. A `for`: that v stays small enough for the next digit is more than a fold's closure can say.
fn hex_number(digits: &[u8]) -> u64
    requires { length digits.now ≤ 12 }
    ensures { (result ≡ hex_number digits.now 0 (length digits.now)) × (result < 16 ^ length digits.now) }
{
    let mut v: u64 = 0;
    for b in digits {
        v = v * 16 + u64::from(hex_value(*b));
    }
    v
}

// The packet bytes of a line. By index: of what `zip` lends of an `iter_mut` a proof knows nothing afterwards.
fn read_packet(line: &[u8], packet: &mut [u8])
    requires { length line.now ≡ 15 + 2 * length packet.old }
    ensures { packet.new ≡ line_packet line.now }
{
    for (i, byte) in packet.iter_mut().enumerate() {
        let at = 15 + 2 * i;
        *byte = hex_number(&line[at..at + 2]) as u8;
    }
}

// Reads a line into packet. Document 01 leaves the offset free where the line is read: it is 0 here.
#[tactic(auto, using(choice::proofs::Choice::when_cond), unfolding(octets::specs::Overwrite::overwrite, crate::specs::Line::line_side, crate::specs::Line::line_clock, crate::specs::Line::packet_length, crate::specs::Read::well_formed, crate::specs::Read::read_line, crate::specs::Read::packet_after))]
pub fn read_line(line: &[u8], packet: &mut [u8]) -> Result<Frame, ReadLineError>
    ensures { (result ≡ read_line line.now (length packet.old))
        × (packet.new ≡ packet_after_reading line.now packet.old)
        × (read_answer result ≡ reading line.now packet.old) }
{
    let len = line.len();
    if 4111 < len {
        return Err(ReadLineError::TooLong);
    }
    let offset = first_illegal(line);
    if offset != len {
        return Err(ReadLineError::Malformed(offset));
    }
    // It stops before its first packet byte, or at an odd digit.
    if len < 17 || len % 2 != 1 {
        return Err(ReadLineError::Malformed(len));
    }
    let n = (len - 15) / 2;
    if packet.len() < n {
        return Err(ReadLineError::NoRoom);
    }
    let side = line[0] - b'0';
    let clock = hex_number(&line[2..14]);
    read_packet(line, &mut packet[..n]);
    Ok(Frame {
        side,
        clock,
        length: n,
    })
}

// Fills a text with the last hex digits of v.
fn write_hex(text: &mut [u8], v: u64)
    ensures { text.new ≡ hex_digits (length text.old) v }
{
    write_digits::<16, _>(text, v, hex_digit);
}

// Writes a packet's bytes as hex pairs. By index: of what `chunks_exact_mut` lends a proof knows nothing afterwards.
fn write_packet(packet: &[u8], text: &mut [u8])
    requires { length text.old ≡ 2 * length packet.now }
    ensures { text.new ≡ hex_pairs packet.now }
{
    for (i, byte) in packet.iter().enumerate() {
        let at = 2 * i;
        write_hex(&mut text[at..at + 2], u64::from(*byte));
    }
}

// Writes all of a line that fits.
fn write_fields(side: u8, clock: u64, packet: &[u8], line: &mut [u8])
    requires { (side < 2) × (length line.old ≡ 15 + 2 * length packet.now) }
    ensures { line.new ≡ line_of side clock packet.now }
{
    line[0] = b'0' + side;
    line[1] = b' ';
    write_hex(&mut line[2..14], clock);
    line[14] = b' ';
    write_packet(packet, &mut line[15..]);
}

// Writes the line of a packet.
#[tactic(auto, using(choice::proofs::Choice::when_cond), unfolding(octets::specs::Overwrite::overwrite, crate::specs::Write::write_line, crate::specs::Write::line_after))]
pub fn write_line(
    side: u32,
    clock: u64,
    packet: &[u8],
    line: &mut [u8],
) -> Result<usize, WriteLineError>
    ensures { (result ≡ write_line side clock (length packet.now) (length line.old))
        × (line.new ≡ line_after_writing side clock packet.now line.old)
        × (write_answer result ≡ writing side clock packet.now line.old) }
{
    let n = packet.len();
    if 1 < side {
        return Err(WriteLineError::UnknownSide);
    }
    if 1 << 48 <= clock {
        return Err(WriteLineError::ClockTooLarge);
    }
    if n == 0 || 2048 < n {
        return Err(WriteLineError::PacketLength);
    }
    let whole = 15 + 2 * n;
    if line.len() < whole {
        return Err(WriteLineError::NoRoom);
    }
    write_fields(side as u8, clock, packet, &mut line[..whole]);
    Ok(whole)
}
