// Stripes of 32 bytes: each has a lane of eight bytes for each of four accumulators.
ghost use Rattle.std.specs.Prelude.{◌≡◌, ◌-◌, ◌^◌};
ghost use Rattle.xxh64.specs.Checksum.{add, prime1, prime2, round as round_of, word, converge};

use super::mixing::{PRIME_1, PRIME_2, merged, round};

// The bytes of a stripe.
pub const STRIPE: usize = 32;

// The bytes of a lane.
const LANE: usize = 8;

// The accumulators.
#[derive(Clone, Copy)]
pub struct Accumulators {
    pub first: u64,
    pub second: u64,
    pub third: u64,
    pub fourth: u64,
}

impl Accumulators {
    // The accumulators before the first stripe.
    pub fn new(seed: u64) -> Accumulators
        ensures first { result.first ≡ add (add seed prime1) prime2 }
        ensures second { result.second ≡ add seed prime2 }
        ensures third { result.third ≡ seed }
        ensures fourth { result.fourth ≡ add seed (2 ^ 64 - prime1) }
    {
        Accumulators {
            first: seed.wrapping_add(PRIME_1).wrapping_add(PRIME_2),
            second: seed.wrapping_add(PRIME_2),
            third: seed,
            fourth: seed.wrapping_sub(PRIME_1),
        }
    }

    // The accumulators after a stripe more.
    pub fn with(self, stripe: &[u8; STRIPE]) -> Accumulators
        ensures first { result.first ≡ round_of self.first (word 8 0 stripe.now) }
        ensures second { result.second ≡ round_of self.second (word 8 8 stripe.now) }
        ensures third { result.third ≡ round_of self.third (word 8 16 stripe.now) }
        ensures fourth { result.fourth ≡ round_of self.fourth (word 8 24 stripe.now) }
    {
        let (lanes, _) = stripe.as_chunks::<LANE>();
        Accumulators {
            first: round(self.first, u64::from_le_bytes(lanes[0])),
            second: round(self.second, u64::from_le_bytes(lanes[1])),
            third: round(self.third, u64::from_le_bytes(lanes[2])),
            fourth: round(self.fourth, u64::from_le_bytes(lanes[3])),
        }
    }

    // The accumulators as one sum.
    pub fn converged(self) -> u64
        ensures { result ≡ converge self.first self.second self.third self.fourth }
    {
        let left = self
            .first
            .rotate_left(1)
            .wrapping_add(self.second.rotate_left(7));
        let sum = left.wrapping_add(self.third.rotate_left(12));
        let all = sum.wrapping_add(self.fourth.rotate_left(18));
        let two = merged(merged(all, self.first), self.second);
        merged(merged(two, self.third), self.fourth)
    }
}
