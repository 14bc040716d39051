// A slice becomes the XOR of parts of another slice: block by block of 128 and 64 bytes, which stay
// in registers, or stretch by stretch.
ghost use Rattle.std.specs.Prelude.{◌≡◌, ◌%◌, ◌≤◌, ◌<◌, length};
ghost use Rattle.xor.specs.Parts.{xor_offsets};
ghost use Rattle.xor.specs.Reach.{Reached};

use super::{BLOCK, WIDE_BLOCK, lists};

// The bytes of a stretch.
const STRETCH: usize = 4096;

// dst, of N bytes, = the XOR of the parts of t at the offsets. The length is a constant at the call,
// so that the compiler keeps the block in registers.
fn gather_block<const N: usize>(dst: &mut [u8], t: &[u8], at: &[usize])
    requires { (length dst.old ≡ N) × Reached N (length t.now) at.now }
    ensures { dst.new ≡ xor_offsets (length dst.old) t.now at.now }
{
    dst.copy_from_slice(&super::block_of::<N>(t, at));
}

// The same of a number of blocks of N bytes.
fn gather_blocks<const N: usize>(dst: &mut [u8], t: &[u8], at: &[usize])
    requires { (0 < N) × (length dst.old % N ≡ 0) × (length dst.old ≤ length t.now) × Reached (length dst.old) (length t.now) at.now }
    ensures { dst.new ≡ xor_offsets (length dst.old) t.now at.now }
{
    for b in (0..dst.len()).step_by(N) {
        gather_block::<N>(&mut dst[b..b + N], &t[b..], at);
    }
}

// The same of at most 64 bytes. It is not inlined, so that the loops over blocks have all registers.
#[inline(never)]
fn gather_rest(dst: &mut [u8], t: &[u8], at: &[usize])
    requires { (length dst.old ≤ 64) × Reached (length dst.old) (length t.now) at.now }
    ensures { dst.new ≡ xor_offsets (length dst.old) t.now at.now }
{
    let block = super::rest_of(t, at, dst.len());
    dst.copy_from_slice(&block[..dst.len()]);
}

// The same of any number of bytes: in blocks of 128, then of 64, then what is left.
fn gather_list(dst: &mut [u8], t: &[u8], at: &[usize])
    requires { (length dst.old ≤ length t.now) × Reached (length dst.old) (length t.now) at.now }
    ensures { dst.new ≡ xor_offsets (length dst.old) t.now at.now }
{
    let n = dst.len();
    let wide = n - n % WIDE_BLOCK;
    gather_blocks::<WIDE_BLOCK>(&mut dst[..wide], t, at);
    let whole = n - n % BLOCK;
    gather_blocks::<BLOCK>(&mut dst[wide..whole], &t[wide..], at);
    if whole < n {
        gather_rest(&mut dst[whole..], &t[whole..], at);
    }
}

// dst = the XOR of the parts of t at the offsets: the first list block by block, the others four a
// pass. It is not inlined either: within a long caller the loops would fetch the place of t from
// memory for each part.
#[inline(never)]
pub fn gather(dst: &mut [u8], t: &[u8], at: &[usize])
    requires { (length dst.old ≤ length t.now) × Reached (length dst.old) (length t.now) at.now }
    ensures { dst.new ≡ xor_offsets (length dst.old) t.now at.now }
{
    let (first, others) = at.split_at(at.len().min(lists::list_most(dst.len())));
    gather_list(dst, t, first);
    super::add_all(dst, t, others);
}

// The same of a number of stretches, one after the other, so that a stretch stays in the first
// cache while list after list is added.
fn gather_whole_stretches(dst: &mut [u8], t: &[u8], at: &[usize])
    requires { (length dst.old % 4096 ≡ 0) × (length dst.old ≤ length t.now) × Reached (length dst.old) (length t.now) at.now }
    ensures { dst.new ≡ xor_offsets (length dst.old) t.now at.now }
{
    for b in (0..dst.len()).step_by(STRETCH) {
        gather(&mut dst[b..b + STRETCH], &t[b..], at);
    }
}

// dst = the XOR of the parts of t at the offsets, stretch by stretch.
pub fn gather_stretches(dst: &mut [u8], t: &[u8], at: &[usize])
    requires { (length dst.old ≤ length t.now) × Reached (length dst.old) (length t.now) at.now }
    ensures { dst.new ≡ xor_offsets (length dst.old) t.now at.now }
{
    let n = dst.len();
    let whole = n - n % STRETCH;
    gather_whole_stretches(&mut dst[..whole], t, at);
    gather(&mut dst[whole..], &t[whole..], at);
}
