// Runs a trace: document 01, "Trace lines". Here it is only read and written; what is printed is in `replay`.
#![tactic(auto)]

ghost use Rattle.std.specs.Prelude.{◌≡◌, ◌≤◌, IfOk, length};
ghost use Rattle.replay.specs.Written.{at_start};

use replay::TraceRun;
use std::io;
use std::io::{Read, Write};

// Standard input is read in pieces of at most this size.
type Piece = [u8; 65536];

// One character more than the longest line.
type Line = [u8; 4112];

// 64 places.
type Table = [u8; 4160];

// 8 characters for each byte of a piece.
type Output = [u8; 524288];

// A run before the first piece. The program's arrays are its memory, so that nothing is allocated.
fn start<'a>(table: &'a mut Table, line: &'a mut Line, out: &'a mut Output) -> TraceRun<'a>
    ensures { (length result.out.now ≡ 524288) × (result.progress ≡ at_start) }
{
    TraceRun::start(table, line, out)
}

// Tells standard error of a failure.
fn told<T, E: Write>(done: io::Result<T>, errors: &mut E, message: &[u8]) -> io::Result<T>
    ensures { result ≡ done }
{
    if done.is_err() {
        // Nothing is left to do where this fails too.
        let _ = errors.write_all(message);
    }
    done
}

// The bytes that are there, as soon as any are, so that a live input is answered at once; 0 at the end of the input.
fn read_piece<R: Read, E: Write>(
    reader: &mut R,
    errors: &mut E,
    piece: &mut Piece,
) -> io::Result<usize>
    ensures { IfOk result (λ n. n ≤ 65536) }
{
    let got = reader.read(piece);
    told(got, errors, b"trace_filter: standard input can't be read\n")
}

// Writes the text that is to be written. Writer, errors and run are given apart: a struct of the three would be made once and opened in
// each function.
fn write_text<W: Write, E: Write>(
    writer: &mut W,
    errors: &mut E,
    run: &TraceRun<'_>,
) -> io::Result<()>
    requires { run.now.progress.used ≤ length run.now.out.now }
{
    let used = run.progress.used;
    let out = &*run.out;
    let written = writer.write_all(&out[..used]);
    told(
        written,
        errors,
        b"trace_filter: standard output can't be written\n",
    )
}

// Writes what the end of the input adds. That the output has this program's room is asked for here: a TraceRun may have any.
fn finish<W: Write, E: Write>(
    writer: &mut W,
    errors: &mut E,
    run: &mut TraceRun<'_>,
) -> io::Result<()>
    requires { (length run.old.out.now ≡ 524288) × (run.old.progress.used ≡ 0) }
{
    run.finish();
    write_text(writer, errors, run)
}

// Where the input can't be read it ends, and that is the error answered, unless the totals can't be written either.
fn run_trace<R: Read, W: Write, E: Write>(
    reader: &mut R,
    writer: &mut W,
    errors: &mut E,
    piece: &mut Piece,
    run: &mut TraceRun<'_>,
) -> io::Result<()>
    requires { (length run.old.out.now ≡ 524288) × (run.old.progress.used ≡ 0) }
{
    // A proved loop has to end, and nothing says that the input does.
    for _ in 0..u64::MAX {
        match read_piece(reader, errors, piece) {
            Ok(0) => return finish(writer, errors, run),
            Ok(n) => {
                run.feed(&piece[..n]);
                write_text(writer, errors, run)?;
                run.emptied();
            }
            Err(e) => {
                finish(writer, errors, run)?;
                return Err(e);
            }
        }
    }
    Ok(())
}

fn main(rt: HostRuntime) -> io::Result<()> {
    let mut reader = rt.stdin();
    let mut writer = rt.stdout();
    let mut errors = rt.stderr();
    let mut piece = [0u8; 65536];
    let mut line = [0u8; 4112];
    let mut table = [0u8; 4160];
    let mut out = [0u8; 524288];
    let mut run = start(&mut table, &mut line, &mut out);
    run_trace(&mut reader, &mut writer, &mut errors, &mut piece, &mut run)
}
