// Reads a script by lines and collects the output, for the programs that run one.
#![tactic(auto)]

ghost use Rattle.std.specs.Prelude.{ℕ, true, false, Ok, Some, None, IsOk, IfOk, IfSome, OnOk, OnErr, ◌≡◌, ◌+◌, ◌-◌, ◌*◌, ◌%◌, ◌^◌, ◌<◌, ◌≤◌, List, length, slice_index, [], ◌∷◌, ⊤};
ghost use Rattle.std.specs.Io.KnownBytes.{Appends};
ghost use Rattle.arrayvec.specs.ArrayVec.{array_vec_len};
ghost use Rattle.report.specs.Text.{decimal_text};
ghost use Rattle.script.specs.Output.{with_byte, with_bytes, all_put};
ghost use Rattle.script.specs.Fields.{decimal_value, decimal_field, fields_text};
ghost use Rattle.script.specs.Lines.{AreLines};
ghost use Rattle.script.specs.Steps.{Runs};

use arrayvec::ArrayVec;
use std::io;
use std::io::{Read, Write};

// A line of the script; what is longer is cut.
pub type Line = ArrayVec<u8, 4096>;

// The lines of an input, which is read in pieces. Of the latest piece the bytes from at on are still to be given.
// The piece is an array with its length beside: a reader writes bytes that are lent, and a vector lends none that it does not hold yet.
#[derive(Drop)]
pub struct Lines<R> {
    reader: R,
    piece: [u8; 65536],
    at: usize,
    have: usize,
    ghost inside: { (at ≤ have) × (have ≤ 65536) },
}

impl<R: Read> Lines<R> {
    ghost use Rattle.std.specs.Option.{option_to_list};
    ghost use Rattle.std.specs.Io.KnownBytes.{Keeps, Consumes, IsAtEnd};
    ghost use Rattle.script.specs.Lines.{TakesLine};
    ghost use Rattle.script.specs.Unread.{unread};

    // Nothing is read yet.
    pub fn new(reader: R) -> Lines<R>
        ensures { (result.reader ≡ reader) × (result.at ≡ 0) × (result.have ≡ 0) }
    {
        Lines {
            reader,
            piece: [0; 65536],
            at: 0,
            have: 0,
        }
    }

    // Reads the next piece, and gives how many bytes it has: none at the end of the input. The latest piece has all been given.
    fn refill(&mut self) -> io::Result<usize>
        ensures piece { IfOk result (λ n. (n ≡ self.new.have) × (self.new.at ≡ 0)) }
        ensures kept { self.old.at ≡ self.old.have → IfOk result (λ n.
            Keeps (unread R.remaining self.old) (unread R.remaining self.new)
            × (n ≡ 0 → IsAtEnd (unread R.remaining self.new))) }
    {
        let n = self.reader.read(&mut self.piece)?;
        self.at = 0;
        self.have = n;
        Ok(n)
    }

    // The next byte of the piece.
    fn take_held(&mut self) -> u8
        requires { self.old.at < self.old.have }
        ensures value { result ≡ slice_index self.old.piece self.old.at }
        ensures left { (self.new.at ≡ self.old.at + 1) × (self.new.have ≡ self.old.have) × (self.new.piece ≡ self.old.piece) }
        ensures taken { Consumes (unread R.remaining self.old) (unread R.remaining self.new) (result ∷ []) }
    {
        let b = self.piece[self.at];
        self.at += 1;
        b
    }

    // The next byte of the input. One that the piece holds is given without a read, so that no error comes then.
    fn next_byte(&mut self) -> io::Result<Option<u8>>
        ensures held { self.old.at < self.old.have →
            (result ≡ Ok (Some (slice_index self.old.piece self.old.at)))
            × (self.new.at ≡ self.old.at + 1)
            × (self.new.have ≡ self.old.have)
            × (self.new.piece ≡ self.old.piece) }
        ensures taken { IfOk result (λ b.
            Consumes (unread R.remaining self.old) (unread R.remaining self.new) (option_to_list b)
            × (b ≡ None → IsAtEnd (unread R.remaining self.new))) }
    {
        if self.at == self.have && self.refill()? == 0 {
            return Ok(None);
        }
        Ok(Some(self.take_held()))
    }

    // The next line, up to its newline or to the end of the input, or None at the end; what a line cannot hold is dropped. Of standard
    // input nothing is known, so that the line is open; where the reader's bytes are known it is their first. A line has at most 4,096
    // characters, and no read is needed, and no error comes, while the piece holds a newline.
    pub fn next_line(&mut self) -> io::Result<Option<Line>>
        ensures length_bound { IfOk result (λ found. IfSome found (λ line. array_vec_len line ≤ 4096)) }
        ensures held { (i : ℕ) → self.old.at ≤ i → i < self.old.have → slice_index self.old.piece i ≡ 10 → IsOk result }
        ensures taken { IfOk result (TakesLine (unread R.remaining self.old) (unread R.remaining self.new)) }
    {
        let mut line = Line::new();
        if self.next_line_into(&mut line)? {
            Ok(Some(line))
        } else {
            Ok(None)
        }
    }

    // The next line as next_line gives it, but in a line that is lent, and whether there was one; where there was none it is empty. What
    // the lent line held is gone. To make a line writes 4,096 zeroes, and so whoever reads many lends one.
    pub fn next_line_into(&mut self, line: &mut Line) -> io::Result<bool>
        ensures length_bound { array_vec_len line.new ≤ 4096 }
        ensures held { (i : ℕ) → self.old.at ≤ i → i < self.old.have → slice_index self.old.piece i ≡ 10 → IsOk result }
        ensures taken { IfOk result (λ found.
            (found ≡ true → TakesLine (unread R.remaining self.old) (unread R.remaining self.new) (Some line.new))
            × (found ≡ false → TakesLine (unread R.remaining self.old) (unread R.remaining self.new) None)) }
        ensures emptied { IfOk result (λ found. found ≡ false → line.new.items ≡ []) }
    {
        line.clear();
        // A proved loop has to end, and nothing says that the input does.
        for _ in 0..u64::MAX {
            match self.next_byte()? {
                Some(b'\n') => return Ok(true),
                Some(b) => {
                    let _cut = line.try_push(b);
                }
                None => break,
            }
        }
        // A last line without a newline is a line if it has any character.
        Ok(!line.is_empty())
    }
}

// The character at a place of a line, 0 past its end and no Option, as the clause has it that the laws of fields cite.
pub fn character(line: &[u8], at: usize) -> u8
    ensures { result ≡ slice_index line.now at }
{
    line.get(at).copied().unwrap_or(0)
}

// What a decimal digit is worth; 0 for any other character and no Option, as the definition has it.
#[tactic(auto, using(choice::proofs::Choice::when_cond), unfolding(crate::specs::Fields::decimal_value))]
fn decimal_value(c: u8) -> u64
    ensures { (result ≡ decimal_value c) × (result < 10) }
{
    match c {
        b'0'..=b'9' => u64::from(c - b'0'),
        _ => 0,
    }
}

// A number with one more digit, modulo 2^64.
fn with_digit(v: u64, c: u8) -> u64
    ensures { result ≡ (v * 10 + decimal_value c) % 2 ^ 64 }
{
    v.wrapping_mul(10).wrapping_add(decimal_value(c))
}

// The decimal number after so many spaces of a line, modulo 2^64; 0 where there is none and no Option, as the definition has it.
pub fn decimal_field(line: &[u8], at: usize) -> u64
    ensures { result ≡ decimal_field line.now at }
{
    let mut v = 0;
    let mut spaces = at;
    for &c in line {
        if c == b' ' {
            if spaces == 0 {
                return v;
            }
            spaces -= 1;
        } else if spaces == 0 {
            v = with_digit(v, c);
        }
    }
    v
}

// Collects what is to be written: as soon as 65,536 bytes are held, the next one has them written first.
#[derive(Drop)]
pub struct Output<W> {
    writer: W,
    held: ArrayVec<u8, 65536>,
}

impl<W: Write> Output<W> {
    // Nothing is put yet.
    pub fn new(writer: W) -> Output<W>
        ensures { (result.writer ≡ writer) × (result.held.items ≡ []) }
    {
        Output {
            writer,
            held: ArrayVec::new(),
        }
    }

    #[tactic(auto, using(choice::proofs::Choice::when_cond), unfolding(crate::specs::Output::with_byte))]
    pub fn put(&mut self, b: u8) -> io::Result<()>
        ensures held_after { OnOk result (self.new.held.items ≡ with_byte self.old.held.items b) }
        ensures written { OnOk result (Appends (all_put W.contents self.old) (all_put W.contents self.new) (b ∷ [])) }
        ensures fits { length self.old.held.items < 65536 → IsOk result }
        ensures unchanged { OnErr result (self.new.held.items ≡ self.old.held.items) }
    {
        if self.held.is_full() {
            self.writer.write_all(self.held.as_slice())?;
            self.held.clear();
        }
        self.held.push(b);
        Ok(())
    }

    pub fn put_bytes(&mut self, bytes: &[u8]) -> io::Result<()>
        ensures held_after { OnOk result (self.new.held.items ≡ with_bytes self.old.held.items bytes.now) }
        ensures written { OnOk result (Appends (all_put W.contents self.old) (all_put W.contents self.new) bytes.now) }
        ensures fits { length self.old.held.items + length bytes.now ≤ 65536 → IsOk result }
    {
        for &b in bytes {
            // put alone would do, but writes an answer of 96 bytes for each byte.
            if self.held.try_push(b).is_err() {
                self.put(b)?;
            }
        }
        Ok(())
    }

    pub fn put_decimal(&mut self, v: u64) -> io::Result<()>
        ensures held_after { OnOk result (self.new.held.items ≡ with_bytes self.old.held.items (decimal_text v)) }
        ensures written { OnOk result (Appends (all_put W.contents self.old) (all_put W.contents self.new) (decimal_text v)) }
        ensures fits { length self.old.held.items + length (decimal_text v) ≤ 65536 → IsOk result }
    {
        let mut digits = [0u8; 20];
        let n = report::put_decimal(&mut digits, 0, v);
        self.put_bytes(&digits[..n])
    }

    // Puts numbers with a space between each two.
    pub fn put_fields(&mut self, first: u64, rest: &[u64]) -> io::Result<()>
        ensures held_after { OnOk result (self.new.held.items ≡ with_bytes self.old.held.items (fields_text first rest.now)) }
        ensures written { OnOk result (Appends (all_put W.contents self.old) (all_put W.contents self.new) (fields_text first rest.now)) }
        ensures fits { length self.old.held.items + length (fields_text first rest.now) ≤ 65536 → IsOk result }
    {
        self.put_decimal(first)?;
        for &v in rest {
            self.put(b' ')?;
            self.put_decimal(v)?;
        }
        Ok(())
    }

    // Writes what is held, and gives the writer back.
    pub fn finish(self) -> io::Result<W>
    where
        W: Drop,
        ensures { IfOk result (λ after. Appends (W.contents self.writer) (W.contents after) self.held.items) }
    {
        let Output { mut writer, held } = self;
        writer.write_all(held.as_slice())?;
        Ok(writer)
    }
}

// A program that runs a script: it does a step on each line.
pub trait Script {
    // A step may begin with this state, on this line put this text, and end with this state.
    ghost steps: { Self → List ℕ → List ℕ → Self → Type 0 } = { λ _ _ _ _. ⊤ };

    fn step<W: Write>(&mut self, line: &[u8], out: &mut Output<W>) -> io::Result<()>
        ensures { OnOk result ((text : List ℕ) × steps self.old line.now text self.new × Appends (all_put W.contents out.old) (all_put W.contents out.new) text) };
}

// Runs the whole script, and gives the writer back.
pub fn run<R: Read + Drop, W: Write + Drop, S: Script + Drop>(
    reader: R,
    writer: W,
    script: S,
) -> io::Result<W>
    ensures { IfOk result (λ after. (lines : List (List ℕ)) × (text : List ℕ) × (end : S)
        × Runs S.steps script lines text end
        × IfSome (R.remaining reader) (λ input. length input < 2 ^ 64 - 1 → AreLines input lines)
        × Appends (W.contents writer) (W.contents after) text) }
{
    let mut lines = Lines::new(reader);
    let mut out = Output::new(writer);
    let mut state = script;
    let mut line = Line::new();
    // A proved loop has to end, and nothing says that the input does.
    for _ in 0..u64::MAX {
        if !lines.next_line_into(&mut line)? {
            break;
        }
        state.step(line.as_slice(), &mut out)?;
    }
    out.finish()
}
