// Runs a trace whose input comes in pieces: document 01, "Trace lines". A program adds the reading and the writing.
#![tactic(auto)]

ghost use Rattle.std.specs.Prelude.{◌≡◌, ◌+◌, ◌*◌, ◌≤◌, length, take};
ghost use Rattle.report.specs.Text.{result_text};
ghost use Rattle.trace.specs.Read.{read_line, packet_after_reading};
ghost use Rattle.replay.specs.Printed.{shown_offset, result_of};
ghost use Rattle.replay.specs.Feed.{with_table, with_fitting, with_result, with_line, after_piece, at_end, with_total, before_newline};
ghost use Rattle.replay.specs.Written.{line_room, result_room, total_room};

use memchr::memchr;
use trace::{Frame, ReadAnswer, ReadLineError};

// The longest packet of a line.
type Packet = [u8; 2048];

// How far a run is.
#[derive(Clone, Copy, Debug, Default, PartialEq, Eq)]
pub struct Progress {
    // Bytes of the line that has not ended yet.
    pub kept: usize,
    // Bytes of the output that are to be written.
    pub used: usize,
    // Answers 0 so far.
    pub passed: u64,
    pub lines: u64,
}

// How many bytes stand before the first newline, all where there is none, as the definition has it.
fn before_newline(bytes: &[u8]) -> usize
    ensures { (result ≡ before_newline bytes.now) × (result ≤ length bytes.now) }
{
    match bytes {
        // An empty line needs no search.
        [b'\n', ..] => 0,
        _ => memchr(b'\n', bytes).unwrap_or(bytes.len()),
    }
}

// What is shown of a line that is not read: where it is malformed.
fn shown_offset(error: ReadLineError) -> Option<usize>
    ensures { result ≡ shown_offset error }
{
    match error {
        ReadLineError::Malformed(offset) => Some(offset),
        ReadLineError::TooLong | ReadLineError::NoRoom => None,
    }
}

// A run over a trace. `line` and `out` stay lent buffers with `kept` and `used` beside them: the theorems on what is written
// (WritesPrinted, ProgramWritesPrinted) speak of both whole.
#[derive(Drop)]
pub struct TraceRun<'a> {
    pub table: &'a mut [u8],
    // The beginning of the line that has not ended yet.
    pub line: &'a mut [u8],
    // Text that is to be written. How much room it needs differs from call to call, so that their clauses ask for it.
    pub out: &'a mut [u8],
    pub progress: Progress,
    // Room for one byte more than the longest line tells an over-long line.
    pub ghost whole_line: { length line.now ≡ line_room },
    pub ghost kept_inside: { progress.kept ≤ line_room },
}

impl<'a> TraceRun<'a> {
    ghost use Rattle.replay.specs.Feed.{memory};
    ghost use Rattle.replay.specs.Run.{memory_of};
    ghost use Rattle.replay.specs.Written.{at_start, emptied};

    // A run before the first piece, on a table as it is lent.
    pub fn start(table: &'a mut [u8], line: &'a mut [u8], out: &'a mut [u8]) -> TraceRun<'a>
        requires { length line.old ≡ line_room }
        ensures { memory_of result ≡ memory table.old line.old out.old at_start }
    {
        TraceRun {
            table,
            line,
            out,
            progress: Progress::default(),
        }
    }

    // The output has been written.
    pub fn emptied(&mut self)
        ensures { memory_of self.new ≡ emptied (memory_of self.old) }
    {
        self.progress.used = 0;
    }

    // Takes in a piece of the input: each line that ends in it is answered and its text added to the output; what follows the
    // last newline is kept.
    pub fn feed(&mut self, piece: &[u8])
        requires { self.old.progress.used + result_room * length piece.now ≤ length self.old.out.now }
        ensures result_after { memory_of self.new ≡ after_piece (memory_of self.old) piece.now }
        ensures kept_in_bounds { (self.new.progress.kept ≤ length self.new.line.now)
            × (self.new.progress.used ≤ length self.new.out.now) }
        ensures same_room { length self.new.out.now ≡ length self.old.out.now }
    {
        let mut packet = [0u8; 2048];
        let mut rest = piece;
        // Over what is left of the piece; no index is counted.
        loop {
            let end = before_newline(rest);
            self.keep(&rest[..end]);
            if end == rest.len() {
                return;
            }
            self.end_line(&mut packet);
            rest = &rest[end + 1..];
        }
    }

    // Ends the run: a last line without a newline, and the totals.
    pub fn finish(&mut self)
        requires { self.old.progress.used + result_room + total_room ≤ length self.old.out.now }
        ensures result_after { memory_of self.new ≡ with_total (at_end (memory_of self.old)) }
        ensures used_in_bounds { self.new.progress.used ≤ length self.new.out.now }
        ensures same_room { length self.new.out.now ≡ length self.old.out.now }
    {
        self.end_input();
        let Progress {
            used,
            passed,
            lines,
            ..
        } = self.progress;
        self.progress.used = report::put_total(self.out, used, passed, lines);
    }

    // Keeps further bytes of a line; what there is no room for is dropped.
    fn keep(&mut self, bytes: &[u8])
        ensures result_after { memory_of self.new ≡ with_fitting (memory_of self.old) bytes.now }
        ensures kept_in_bounds { self.new.progress.kept ≤ length self.new.line.now }
    {
        let kept = self.progress.kept;
        let n = bytes.len().min(self.line.len() - kept);
        self.progress.kept = report::put_text(self.line, kept, &bytes[..n]);
    }

    // The line that is kept has ended.
    fn end_line(&mut self, packet: &mut Packet)
        requires { self.old.progress.used + result_room ≤ length self.old.out.now }
        ensures result_after { memory_of self.new ≡ with_line (memory_of self.old) }
        ensures kept_value { (self.new.progress.kept ≡ 0) × (self.new.progress.used ≤ self.old.progress.used + result_room) }
        ensures same_room { length self.new.out.now ≡ length self.old.out.now }
    {
        let (answer, shown) = self.answer_line(packet);
        self.put_answer(answer, shown);
    }

    // Reads the line that is kept. By `&self`, as of a field lent through a `&mut self` a proof does not know that it came back the same.
    fn read_kept(&self, packet: &mut Packet) -> Result<Frame, ReadLineError>
        ensures { let text = take self.now.progress.kept self.now.line.now in
            (result ≡ read_line text (length packet.old)) × (packet.new ≡ packet_after_reading text packet.old) }
    {
        let kept = self.progress.kept;
        let line = &*self.line;
        trace::read_line(&line[..kept], packet)
    }

    // The answer to the line that is kept, and what is shown after it; a line that the reader refuses is not shown to the filter.
    #[tactic(auto, unfolding(crate::specs::Printed::result_of))]
    fn answer_line(&mut self, packet: &mut Packet) -> (u32, Option<usize>)
        ensures answered { record { answer = result.0; shown = result.1; table = self.new.table.now }
            ≡ result_of (take self.old.progress.kept self.old.line.now) self.old.table.now }
        ensures same { memory_of self.new ≡ with_table (memory_of self.old) self.new.table.now }
    {
        match self.read_kept(packet) {
            Ok(frame) => {
                let side = u32::from(frame.side);
                let reply = filter::filter_ipv4(
                    side,
                    frame.clock,
                    self.table,
                    &packet[..frame.length],
                );
                (reply.answer, report::shown_place(reply.place))
            }
            Err(error) => (ReadAnswer::from(Err(error)).number, shown_offset(error)),
        }
    }

    // Adds the text of an answer to the output, and counts it. Answer and what is shown are given apart, as `result_text` takes them.
    #[tactic(auto, using(choice::proofs::Choice::when_cond))]
    fn put_answer(&mut self, answer: u32, shown: Option<usize>)
        requires { self.old.progress.used + length (result_text answer shown) ≤ length self.old.out.now }
        ensures { memory_of self.new ≡ with_result (memory_of self.old) (record { answer = answer; shown = shown; table = self.old.table.now }) }
    {
        let Progress {
            used,
            passed,
            lines,
            ..
        } = self.progress;
        self.progress = Progress {
            // The next line begins.
            kept: 0,
            used: report::put_result(self.out, used, answer, shown),
            passed: passed.wrapping_add(u64::from(answer == 0)),
            lines: lines.wrapping_add(1),
        };
    }

    // A last line without a newline is a line if it has any byte.
    fn end_input(&mut self)
        requires { self.old.progress.used + result_room ≤ length self.old.out.now }
        ensures result_after { memory_of self.new ≡ at_end (memory_of self.old) }
        ensures used_bound { self.new.progress.used ≤ self.old.progress.used + result_room }
        ensures same_room { length self.new.out.now ≡ length self.old.out.now }
    {
        if self.progress.kept != 0 {
            let mut packet = [0u8; 2048];
            self.end_line(&mut packet);
        }
    }
}
