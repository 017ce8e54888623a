// The ones' complement sum of octets (RFC 1071) by 32-bit groups, added into 64 bits, the carries at the end. Swapping the octets
// of every word swaps those of the sum (RFC 1071, section 2), so groups are read as one load gives them, and the sum is swapped at the end.
#![tactic(auto)]

ghost use Rattle.std.specs.Prelude.{◌≡◌, ◌+◌, ◌^◌, ◌≤◌, ◌<◌, length};
ghost use Rattle.octets.specs.LittleEndian.{little_endian};
ghost use Rattle.checksum.specs.Sum.{ones_sum};
ghost use Rattle.checksum.specs.Groups.{group_sum};
ghost use Rattle.checksum.specs.Reduced.{fold, reduced};

// Four octets with the first one lowest, as one load gives them; as a slice pattern has them, where `little32` takes an offset.
fn group(octets: [u8; 4]) -> u64
    ensures { (result ≡ little_endian octets 0) × (result < 2 ^ 32) }
{
    u64::from(u32::from_le_bytes(octets))
}

// The last group, of which there are 0 to 3 octets; what is missing is zero.
#[tactic(auto, using(crate::proofs::Groups::missing_is_zero))]
fn last_group(octets: &[u8]) -> u64
    requires { length octets.now < 4 }
    ensures { (result ≡ group_sum octets.now) × (result < 2 ^ 24) }
{
    match octets {
        [a] => group([*a, 0, 0, 0]),
        [a, b] => group([*a, *b, 0, 0]),
        [a, b, c] => group([*a, *b, *c, 0]),
        _ => 0,
    }
}

// The sum of the groups, two per iteration (docs/DECISIONS.md has the times). By slice patterns, as a `for` over chunks_exact(8) takes 1.1
// times as long for the 20 octets of a header, and one over as_chunks::<8>() 1.2 times.
fn group_sum(s: &[u8]) -> u64
    requires { length s.now ≤ 65535 }
    ensures { (result ≡ group_sum s.now) × (result < 2 ^ 46) }
{
    let mut sum = 0;
    let mut rest = s;
    while let [a, b, c, d, e, f, g, h, after @ ..] = rest {
        sum += group([*a, *b, *c, *d]) + group([*e, *f, *g, *h]);
        rest = after;
    }
    if let [a, b, c, d, after @ ..] = rest {
        sum += group([*a, *b, *c, *d]);
        rest = after;
    }
    sum + last_group(rest)
}

// A round of carries: what stands above 16 bits is added in at the bottom.
#[tactic(auto, unfolding(crate::specs::Reduced::fold))]
fn folded(sum: u64) -> u64
    ensures { result ≡ fold sum }
{
    sum % 65536 + sum / 65536
}

// A sum with every carry added in. Three rounds are enough for what is below 2^46.
pub fn carries_added(sum: u64) -> u16
    requires { sum < 2 ^ 46 }
    ensures { result ≡ reduced sum }
{
    let once = folded(sum);
    let twice = folded(once);
    folded(twice) as u16
}

// The ones' complement sum of up to 65,535 octets. They are no type of their own: each caller would make one to have it opened here.
pub fn ones_sum(s: &[u8]) -> u16
    requires { length s.now ≤ 65535 }
    ensures { result ≡ ones_sum s.now }
{
    carries_added(group_sum(s)).swap_bytes()
}
