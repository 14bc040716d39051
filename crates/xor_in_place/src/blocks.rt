// Blocks of the gather within one slice: the XOR of the same bytes of parts of the slice, put at
// their place. A block is read before it is written.
ghost use Rattle.std.specs.Prelude.{◌≡◌, ◌+◌, ◌%◌, ◌≤◌, ◌<◌, length};
ghost use Rattle.xor.specs.Parts.{with_part, xor_offsets};
ghost use Rattle.xor.specs.Reach.{Reached};
ghost use Rattle.xor_in_place.specs.Beside.{Beside};

// The N bytes from d on = the XOR of the parts of N bytes at the offsets.
fn put_block<const N: usize>(t: &mut [u8], d: usize, at: &[usize])
    requires { (d + N ≤ length t.old) × Reached N (length t.old) at.now }
    ensures { t.new ≡ with_part N d (xor_offsets N t.old at.now) t.old }
{
    let block = xor::block_of::<N>(t, at);
    t[d..d + N].copy_from_slice(&block);
}

// The same of n bytes, a number of blocks of N bytes, one after the other.
pub fn put_blocks<const N: usize>(t: &mut [u8], d: usize, n: usize, at: &[usize])
    requires { (0 < N) × (n % N ≡ 0) × Beside d n (length t.old) at.now }
    ensures { t.new ≡ with_part n d (xor_offsets n t.old at.now) t.old }
{
    for b in (0..n).step_by(N) {
        put_block::<N>(&mut t[b..], d, at);
    }
}

// The same of n bytes, at most 64. It is not inlined, so that the loops over blocks have all
// registers.
#[inline(never)]
pub fn put_rest(t: &mut [u8], d: usize, n: usize, at: &[usize])
    requires { (n ≤ 64) × (d + n ≤ length t.old) × Reached n (length t.old) at.now }
    ensures { t.new ≡ with_part n d (xor_offsets n t.old at.now) t.old }
{
    let block = xor::rest_of(t, at, n);
    t[d..d + n].copy_from_slice(&block[..n]);
}
