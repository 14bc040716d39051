// XXH64, a checksum of 64 bits.
#![tactic(auto)]

ghost use Rattle.std.specs.Prelude.{◌≡◌, ◌/◌, length};
ghost use Rattle.xxh64.specs.Checksum.{start as start_of, rest, xxh64};

mod mixing;
mod stripes;

use mixing::{PRIME_5, with_eight, with_four, with_one};
use stripes::{Accumulators, STRIPE};

// All whole stripes into one sum, or what the sum starts from if there are none.
fn start(bytes: &[u8], seed: u64) -> u64
    ensures { result ≡ start_of (length bytes.now / 32) bytes.now seed }
{
    let (stripes, _) = bytes.as_chunks::<STRIPE>();
    if stripes.is_empty() {
        return seed.wrapping_add(PRIME_5);
    }
    let mut accumulators = Accumulators::new(seed);
    for stripe in stripes {
        accumulators = accumulators.with(stripe);
    }
    accumulators.converged()
}

// The bytes after the last whole stripe into the sum: by eights, a four if there is one, by ones.
fn with_rest(bytes: &[u8], begun: u64) -> u64
    ensures { result ≡ rest (length bytes.now) bytes.now begun }
{
    let (_, tail) = bytes.as_chunks::<STRIPE>();
    let (eights, tail) = tail.as_chunks::<8>();
    let (fours, ones) = tail.as_chunks::<4>();
    let by_eights = eights.iter().fold(begun, with_eight);
    let by_fours = fours.iter().fold(by_eights, with_four);
    ones.iter().fold(by_fours, with_one)
}

// The checksum XXH64 of bytes with a seed.
pub fn hash(bytes: &[u8], seed: u64) -> u64
    ensures { result ≡ xxh64 bytes.now seed }
{
    let begun = start(bytes, seed).wrapping_add(bytes.len() as u64);
    mixing::avalanche(with_rest(bytes, begun))
}
