// Is the XOR of parts of one stretch, 2,048 bytes, zero?
ghost use Rattle.std.specs.Prelude.{◌≡◌, ◌≤◌, length, replicate};
ghost use Rattle.mathematics.specs.Lists.{same};
ghost use Rattle.mathematics.specs.Xor.{xor_l};
ghost use Rattle.xor.specs.Parts.{xor_offsets};
ghost use Rattle.xor.specs.Reach.{Reached};

use super::STRETCH;
use xor::WIDE_BLOCK;

// How many parts the cache keeps the lines of.
const KEPT: usize = 8;

// Is the XOR of the parts and of the 128 bytes of the block zero?
fn sum_block_is_zero(block: &[u8], t: &[u8], at: &[usize]) -> bool
    requires { (length block.now ≡ 128) × Reached 128 (length t.now) at.now }
    ensures { result ≡ same (xor_l (xor_offsets 128 t.now at.now) block.now) (replicate 128 0) }
{
    let mut sum = xor::block_of::<WIDE_BLOCK>(t, at);
    xor::add_one(&mut sum, block, 0);
    xor::all_zero(&sum)
}

// Is the XOR of the parts and of the stretch zero?
fn sum_is_zero(stretch: &[u8], t: &[u8], at: &[usize]) -> bool
    requires { (length stretch.now ≡ 2048) × (2048 ≤ length t.now) × Reached 2048 (length t.now) at.now }
    ensures { result ≡ same (xor_l (xor_offsets 2048 t.now at.now) stretch.now) (replicate 2048 0) }
{
    for b in (0..STRETCH).step_by(WIDE_BLOCK) {
        if !sum_block_is_zero(&stretch[b..b + WIDE_BLOCK], &t[b..], at) {
            return false;
        }
    }
    true
}

// Is the XOR of the parts of 2,048 bytes zero? All but the last eight parts, whose lines the cache
// keeps, are gathered in the stretch; the others are not written there, but tested with it block by
// block: the compiler, which sees their number, unrolls their sum. What the caller's stretch then
// holds is unspecified.
pub fn stretch_is_zero(stretch: &mut [u8], t: &[u8], at: &[usize]) -> bool
    requires { (length stretch.old ≡ 2048) × (2048 ≤ length t.now) × Reached 2048 (length t.now) at.now }
    ensures { result ≡ same (xor_offsets 2048 t.now at.now) (replicate 2048 0) }
{
    let (first, others) = at.split_at(at.len().saturating_sub(KEPT));
    xor::gather(stretch, t, first);
    sum_is_zero(stretch, t, others)
}
