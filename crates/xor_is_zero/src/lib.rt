// Is the XOR of parts of a slice zero? Block by block, or stretch by stretch where many long parts
// are summed.
#![tactic(auto)]

mod blocks;
mod one_stretch;

ghost use Rattle.std.specs.Prelude.{◌≡◌, ◌%◌, ◌≤◌, length, replicate};
ghost use Rattle.mathematics.specs.Lists.{same};
ghost use Rattle.xor.specs.Parts.{xor_offsets};
ghost use Rattle.xor.specs.Reach.{Reached};

pub use blocks::blocks_are_zero;

// The bytes of a stretch.
pub const STRETCH: usize = 2048;

// From so many parts on, stretches are faster.
const MANY_PARTS: usize = 10;

// Is the XOR of the parts of n bytes zero, n a number of stretches? One buffer serves for all of
// them.
fn stretches_are_zero(t: &[u8], n: usize, at: &[usize]) -> bool
    requires { (n % 2048 ≡ 0) × (n ≤ length t.now) × Reached n (length t.now) at.now }
    ensures { result ≡ same (xor_offsets n t.now at.now) (replicate n 0) }
{
    let mut stretch = [0; STRETCH];
    for b in (0..n).step_by(STRETCH) {
        if !one_stretch::stretch_is_zero(&mut stretch, &t[b..], at) {
            return false;
        }
    }
    true
}

// Is the XOR of the parts of n bytes zero? The stretches, then what is left block by block.
pub fn long_is_zero(t: &[u8], n: usize, at: &[usize]) -> bool
    requires { (n ≤ length t.now) × Reached n (length t.now) at.now }
    ensures { result ≡ same (xor_offsets n t.now at.now) (replicate n 0) }
{
    let whole = n - n % STRETCH;
    stretches_are_zero(t, whole, at) && blocks::blocks_are_zero(&t[whole..], n - whole, at)
}

// Is the XOR of the parts of n bytes zero? What is shorter than a stretch goes block by block, and
// so do few parts, which are faster so; of more the cache may keep too few lines, as for a gather.
pub fn is_zero(t: &[u8], n: usize, at: &[usize]) -> bool
    requires { (n ≤ length t.now) × Reached n (length t.now) at.now }
    ensures { result ≡ same (xor_offsets n t.now at.now) (replicate n 0) }
{
    if n < STRETCH || at.len() < MANY_PARTS {
        blocks::blocks_are_zero(t, n, at)
    } else {
        long_is_zero(t, n, at)
    }
}
