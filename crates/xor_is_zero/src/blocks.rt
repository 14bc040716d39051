// Is the XOR of parts of a slice zero? Block by block of 128 and 64 bytes, which stay in registers.
ghost use Rattle.std.specs.Prelude.{◌≡◌, ◌%◌, ◌≤◌, ◌<◌, length, replicate};
ghost use Rattle.mathematics.specs.Lists.{same};
ghost use Rattle.xor.specs.Parts.{xor_offsets};
ghost use Rattle.xor.specs.Reach.{Reached};

use xor::{BLOCK, WIDE_BLOCK};

// Is the XOR of the parts of N bytes zero?
fn block_is_zero<const N: usize>(t: &[u8], at: &[usize]) -> bool
    requires { (N ≤ length t.now) × Reached N (length t.now) at.now }
    ensures { result ≡ same (xor_offsets N t.now at.now) (replicate N 0) }
{
    xor::all_zero(&xor::block_of::<N>(t, at))
}

// Is the XOR of the parts of n bytes zero, n a number of blocks of N bytes?
fn whole_blocks_are_zero<const N: usize>(t: &[u8], n: usize, at: &[usize]) -> bool
    requires { (0 < N) × (n % N ≡ 0) × (n ≤ length t.now) × Reached n (length t.now) at.now }
    ensures { result ≡ same (xor_offsets n t.now at.now) (replicate n 0) }
{
    for b in (0..n).step_by(N) {
        if !block_is_zero::<N>(&t[b..], at) {
            return false;
        }
    }
    true
}

// Is the XOR of the parts of n bytes, at most 64, zero? It is not inlined, so that the loops over
// blocks have all registers.
#[inline(never)]
fn rest_is_zero(t: &[u8], n: usize, at: &[usize]) -> bool
    requires { (n ≤ 64) × Reached n (length t.now) at.now }
    ensures { result ≡ same (xor_offsets n t.now at.now) (replicate n 0) }
{
    let block = xor::rest_of(t, at, n);
    xor::all_zero(&block[..n])
}

// Is the XOR of the parts of n bytes zero? In blocks of 128 bytes, then of 64, then what is left.
pub fn blocks_are_zero(t: &[u8], n: usize, at: &[usize]) -> bool
    requires { (n ≤ length t.now) × Reached n (length t.now) at.now }
    ensures { result ≡ same (xor_offsets n t.now at.now) (replicate n 0) }
{
    let wide = n - n % WIDE_BLOCK;
    let whole = n - n % BLOCK;
    whole_blocks_are_zero::<WIDE_BLOCK>(t, wide, at)
        && whole_blocks_are_zero::<BLOCK>(&t[wide..], whole - wide, at)
        && (whole == n || rest_is_zero(&t[whole..], n - whole, at))
}
