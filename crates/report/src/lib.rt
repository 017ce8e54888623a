// What the trace program prints: document 01, "Trace lines".
#![tactic(auto)]

ghost use Rattle.std.specs.Prelude.{◌≡◌, ◌+◌, ◌≤◌, length};
ghost use Rattle.octets.specs.Overwrite.{overwrite};
ghost use Rattle.report.specs.Text.{digit_count, decimal_digits, decimal_text, shown_text, shown_place, result_text, total_text};

use octets::write_digits;

// How many decimal digits a number has. Counted here, as the library has no logarithm of integers.
fn digit_count(value: u64) -> usize
    ensures { (result ≡ digit_count value) × (result ≤ 20) }
{
    let mut left = value;
    let mut n = 1;
    while 9 < left {
        left /= 10;
        n += 1;
    }
    n
}

// Writes a number from at on, and gives where it ends. Here and below `out` has its place beside it, and nothing goes through Display: a
// clause says the final content of every byte of `out`.
pub fn put_decimal(out: &mut [u8], at: usize, value: u64) -> usize
    requires { at + length (decimal_text value) ≤ length out.old }
    ensures { (result ≡ at + length (decimal_text value)) × (out.new ≡ overwrite out.old at (decimal_text value)) }
{
    let end = at + digit_count(value);
    write_digits::<10, _>(&mut out[at..end], value, |d| b'0' + d);
    end
}

// Writes a text from at on, and gives where it ends.
#[tactic(auto, unfolding(octets::specs::Overwrite::overwrite))]
pub fn put_text(out: &mut [u8], at: usize, text: &[u8]) -> usize
    requires { at + length text.now ≤ length out.old }
    ensures { (result ≡ at + length text.now) × (out.new ≡ overwrite out.old at text.now) }
{
    let end = at + text.len();
    out[at..end].copy_from_slice(text);
    end
}

// Writes what a result's line shows after the answer, and gives where it ends.
#[tactic(auto, unfolding(crate::specs::Text::shown_text))]
fn put_shown(out: &mut [u8], at: usize, shown: Option<usize>) -> usize
    requires { at + length (shown_text shown) ≤ length out.old }
    ensures { (result ≡ at + length (shown_text shown)) × (out.new ≡ overwrite out.old at (shown_text shown)) }
{
    match shown {
        Some(n) => put_decimal(out, at, n as u64),
        None => put_text(out, at, b"-"),
    }
}

// Writes the line of an answer from at on, and gives where it ends. Answer and what is shown are given apart, as `result_text` takes them.
pub fn put_result(out: &mut [u8], at: usize, answer: u32, shown: Option<usize>) -> usize
    requires { at + length (result_text answer shown) ≤ length out.old }
    ensures { (result ≡ at + length (result_text answer shown)) × (out.new ≡ overwrite out.old at (result_text answer shown)) }
{
    let space = put_decimal(out, at, answer as u64);
    let next = put_text(out, space, b" ");
    let end = put_shown(out, next, shown);
    put_text(out, end, b"\n")
}

// A place as it is shown.
#[tactic(auto, using(choice::proofs::Choice::when_cond), unfolding(crate::specs::Text::shown_place))]
pub fn shown_place(place: usize) -> Option<usize>
    ensures { result ≡ shown_place place }
{
    if place == 65535 { None } else { Some(place) }
}

// Writes the last line from at on, and gives where it ends.
pub fn put_total(out: &mut [u8], at: usize, passed: u64, lines: u64) -> usize
    requires { at + length (total_text passed lines) ≤ length out.old }
    ensures { (result ≡ at + length (total_text passed lines)) × (out.new ≡ overwrite out.old at (total_text passed lines)) }
{
    let first = put_text(out, at, b"passed ");
    let word = put_decimal(out, first, passed);
    let second = put_text(out, word, b" of ");
    let end = put_decimal(out, second, lines);
    put_text(out, end, b"\n")
}
