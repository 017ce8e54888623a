// Numbers as text, a character for each digit.
ghost use Rattle.std.specs.Prelude.{◌≡◌, ℕ, ◌<◌, ◌≤◌, map, length};
ghost use Rattle.octets.specs.Digits.{digits};

// Fills a text with the last digits of a number, the last one first. What `character` does says which base's digits look how.
pub fn write_digits<const BASE: u64, F: Fn(u8) -> u8>(text: &mut [u8], value: u64, character: F)
    requires base { (1 < BASE) × (BASE ≤ 256) }
    requires callable { (d : ℕ) → d < BASE → F.pre character d }
    ensures { (char : ℕ → ℕ) → ((d c : ℕ) → d < BASE → F.post character d c → c ≡ char d)
        → text.new ≡ map char (digits BASE (length text.old) value) }
{
    let mut left = value;
    // By index: of what `iter_mut().rev()` lends a proof knows nothing afterwards.
    for i in (0..text.len()).rev() {
        text[i] = character((left % BASE) as u8);
        left /= BASE;
    }
}
