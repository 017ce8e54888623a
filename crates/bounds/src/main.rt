// Runs a script over one connection, which is free at first. Each line of the script is one of
//   # TEXT                                        echo this line
//   c STAGE SIDE FINS DEADLINE OEND OEDGE OWIN AEND AEDGE AWIN
//                                                 hold this connection: the opener's record, then the answerer's
//   o SIDE SEQ WINDOW CLOCK                       hold the connection that this SYN opens
//   g SENDER FLAGS SEQ ACK WINDOW OCTETS CLOCK    decide on this segment, and hold what a pass leaves
// with decimal numbers. o prints the ten fields of the connection as c has them; g prints 0 and the ten fields after a
// pass, or else the verdict's number alone.
#![tactic(auto, using(script::proofs::Growth::growth))]

ghost use Rattle.std.specs.Prelude.{◌<◌, OnOk};
ghost use Rattle.script.specs.Output.{all_put};
ghost use Rattle.script.specs.Steps.{Grows};

use connection::{Clock, Connection, End, Sender};
use script::{Output, Script};
use segment::{Flag, Segment};
use serial::{OctetCount, SeqNum};
use std::io;
use std::io::Write;

// The held connection, which is free at first.
#[derive(Default, Drop)]
struct Bounds {
    held: Connection,
}

// The number in a line's field, with the bits that its type has; a function for each of the two types, as one line each.
fn octet(line: &[u8], at: usize) -> u8 {
    (script::decimal_field(line, at) % 256) as u8
}

fn word(line: &[u8], at: usize) -> u32 {
    (script::decimal_field(line, at) % 4294967296) as u32
}

fn seq_num(line: &[u8], at: usize) -> SeqNum {
    SeqNum(word(line, at))
}

fn octet_count(line: &[u8], at: usize) -> OctetCount {
    OctetCount(word(line, at))
}

fn clock(line: &[u8], at: usize) -> Clock {
    Clock {
        ms: script::decimal_field(line, at) % (1 << 48),
    }
}

// The sender of a g line: 0 the opener, 1 the answerer.
fn sender(line: &[u8]) -> Sender {
    if script::decimal_field(line, 1) % 2 == 0 {
        Sender::Opener
    } else {
        Sender::Answerer
    }
}

// The record that three fields give.
fn record(line: &[u8], at: usize) -> End
    requires { at < 10 }
{
    End {
        end: seq_num(line, at),
        edge: seq_num(line, at + 1),
        win: octet_count(line, at + 2),
    }
}

// The connection of a c line.
fn given(line: &[u8]) -> Connection {
    Connection {
        stage: octet(line, 1),
        side: octet(line, 2),
        fins: octet(line, 3),
        deadline: script::decimal_field(line, 4),
        ends: [record(line, 5), record(line, 8)],
    }
}

// The connection that the SYN of an o line opens.
fn opened(line: &[u8]) -> Connection {
    let syn = Segment {
        seq: seq_num(line, 2),
        ack: SeqNum(0),
        window: octet_count(line, 3),
        flags: Flag::Syn as u8,
        octets: OctetCount(1),
    };
    Connection::opened(octet(line, 1), syn, clock(line, 4))
}

// The segment of a g line.
fn segment(line: &[u8]) -> Segment {
    Segment {
        seq: seq_num(line, 3),
        ack: seq_num(line, 4),
        window: octet_count(line, 5),
        flags: octet(line, 2),
        octets: octet_count(line, 6),
    }
}

fn put_connection<W: Write>(connection: Connection, out: &mut Output<W>) -> io::Result<()>
    ensures { OnOk result (Grows (all_put W.contents out.old) (all_put W.contents out.new)) }
{
    let [opener, answerer] = connection.ends;
    let rest = [
        u64::from(connection.side),
        u64::from(connection.fins),
        connection.deadline,
        u64::from(opener.end.0),
        u64::from(opener.edge.0),
        u64::from(opener.win.0),
        u64::from(answerer.end.0),
        u64::from(answerer.edge.0),
        u64::from(answerer.win.0),
    ];
    out.put_fields(u64::from(connection.stage), &rest)
}

impl Bounds {
    // The command g.
    fn judge<W: Write>(&mut self, line: &[u8], out: &mut Output<W>) -> io::Result<()>
        ensures { OnOk result (Grows (all_put W.contents out.old) (all_put W.contents out.new)) }
    {
        match self
            .held
            .decide(sender(line), segment(line), clock(line, 7))
        {
            Ok(after) => {
                self.held = after;
                out.put_bytes(b"0 ")?;
                put_connection(after, out)
            }
            Err(refused) => out.put_decimal(u64::from(refused.number())),
        }
    }
}

impl Script for Bounds {
    fn step<W: Write>(&mut self, line: &[u8], out: &mut Output<W>) -> io::Result<()> {
        // By one match: closures in a table, one for each letter, would be no plainer.
        match script::character(line, 0) {
            b'c' => {
                self.held = given(line);
                return Ok(());
            }
            b'o' => {
                self.held = opened(line);
                put_connection(self.held, out)?;
            }
            b'g' => self.judge(line, out)?,
            _ => out.put_bytes(line)?,
        }
        out.put(b'\n')
    }
}

fn main(rt: HostRuntime) -> io::Result<()> {
    let _writer = script::run(rt.stdin(), rt.stdout(), Bounds::default())?;
    Ok(())
}
