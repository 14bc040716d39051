// What XXH64 does with words alone: rounds, words of the tail, the avalanche. Sums and products
// wrap.
ghost use Rattle.std.specs.Prelude.{◌≡◌, ◌<◌};
ghost use Rattle.xxh64.specs.Checksum.{round as round_of, merge, number, eight, four, one, folded, avalanche as avalanche_of};

pub const PRIME_1: u64 = 0x9E37_79B1_85EB_CA87;

pub const PRIME_2: u64 = 0xC2B2_AE3D_27D4_EB4F;

const PRIME_3: u64 = 0x1656_67B1_9E37_79F9;

const PRIME_4: u64 = 0x85EB_CA77_C2B2_AE63;

pub const PRIME_5: u64 = 0x27D4_EB2F_1656_67C5;

// A lane into an accumulator.
pub fn round(acc: u64, lane: u64) -> u64
    ensures { result ≡ round_of acc lane }
{
    let sum = acc.wrapping_add(lane.wrapping_mul(PRIME_2));
    sum.rotate_left(31).wrapping_mul(PRIME_1)
}

// An accumulator into the sum.
pub fn merged(begun: u64, acc: u64) -> u64
    ensures { result ≡ merge begun acc }
{
    let mixed = begun ^ round(0, acc);
    mixed.wrapping_mul(PRIME_1).wrapping_add(PRIME_4)
}

// Eight bytes of the tail into the sum.
pub fn with_eight(begun: u64, bytes: &[u8; 8]) -> u64
    ensures { result ≡ eight begun (number bytes.now) }
{
    let mixed = begun ^ round(0, u64::from_le_bytes(*bytes));
    let turned = mixed.rotate_left(27);
    turned.wrapping_mul(PRIME_1).wrapping_add(PRIME_4)
}

// Four bytes of the tail into the sum.
pub fn with_four(begun: u64, bytes: &[u8; 4]) -> u64
    ensures { result ≡ four begun (number bytes.now) }
{
    let lane = u64::from(u32::from_le_bytes(*bytes));
    let mixed = begun ^ lane.wrapping_mul(PRIME_1);
    let turned = mixed.rotate_left(23);
    turned.wrapping_mul(PRIME_2).wrapping_add(PRIME_3)
}

// One byte of the tail into the sum.
pub fn with_one(begun: u64, byte: &u8) -> u64
    ensures { result ≡ one begun byte.now }
{
    let mixed = begun ^ u64::from(*byte).wrapping_mul(PRIME_5);
    mixed.rotate_left(11).wrapping_mul(PRIME_1)
}

// x ^ (x >> k).
fn fold(x: u64, k: u32) -> u64
    requires { k < 64 }
    ensures { result ≡ folded x k }
{
    x ^ (x >> k)
}

// The last step, by which each bit of the sum reaches all others.
pub fn avalanche(begun: u64) -> u64
    ensures { result ≡ avalanche_of begun }
{
    let second = fold(begun, 33).wrapping_mul(PRIME_2);
    fold(fold(second, 29).wrapping_mul(PRIME_3), 32)
}
