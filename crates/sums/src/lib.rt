// The ones' complement sum in two ways, for programs that compare and time them: by 32-bit groups, as the packet reader takes it, and by a
// plain loop over 16-bit words.
#![tactic(auto)]

ghost use Rattle.std.specs.Prelude.{◌≡◌, ◌^◌, ◌≤◌, ◌<◌, length};
ghost use Rattle.sums.specs.Sums.{word_sum, sum_or_none};

use checksum::ones_sum;
use octets::BigEndianNumber;

// The sum of the 16-bit words, an odd octet at the end padded by a zero one. The length is asked for as `checksum` asks it, with no type of its own.
fn word_sum(s: &[u8]) -> u32
    requires { length s.now ≤ 65535 }
    ensures { (result ≡ word_sum s.now) × (result < 2 ^ 31) }
{
    let words = s.chunks_exact(2);
    let odd = words.remainder();
    let mut sum = 0;
    for word in words {
        sum += u32::from(u16::read_be(word, 0));
    }
    match odd {
        [a] => sum + u32::from(*a) * 256,
        _ => sum,
    }
}

// The sum by 32-bit groups. A C function gives back no Option, so 65,536, which is no sum, stands for none, of more than 65,535 octets.
#[tactic(auto, using(choice::proofs::Choice::when_cond), unfolding(crate::specs::Sums::sum_or_none))]
#[unsafe(no_mangle)]
pub extern "C" fn sum_by_groups(s: &[u8]) -> u32
    ensures { result ≡ sum_or_none s.now }
{
    if s.len() > 65535 {
        65536
    } else {
        u32::from(ones_sum(s))
    }
}

// The same by 16-bit words: a function of its own, as both are exported under their C names, and each calls another sum. Two rounds of
// carries are enough for what 32 bits hold.
#[tactic(auto, using(choice::proofs::Choice::when_cond), unfolding(crate::specs::Sums::sum_or_none))]
#[unsafe(no_mangle)]
pub extern "C" fn sum_by_words(s: &[u8]) -> u32
    ensures { result ≡ sum_or_none s.now }
{
    if s.len() > 65535 {
        65536
    } else {
        let sum = word_sum(s);
        let once = sum % 65536 + sum / 65536;
        once % 65536 + once / 65536
    }
}
