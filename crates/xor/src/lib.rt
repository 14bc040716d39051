// Sums of bytes: parts of a slice are added to another slice, or make blocks of 128 and 64 bytes
// that stay in registers.
#![tactic(auto)]

mod into_slice;
mod lists;
mod slices;

ghost use Rattle.std.specs.Prelude.{◌≡◌, ◌+◌, ◌≤◌, length, take};
ghost use Rattle.mathematics.specs.Xor.{xor_l};
ghost use Rattle.xor.specs.Parts.{part, xor_offsets};
ghost use Rattle.xor.specs.Reach.{Reached};

pub use into_slice::{gather, gather_stretches};
pub use lists::list_most;
pub use slices::all_zero;

// The bytes of a block.
pub const BLOCK: usize = 64;

// The bytes of a wide block.
pub const WIDE_BLOCK: usize = 128;

// dst ^= the bytes of t from a.
pub fn add_one(dst: &mut [u8], t: &[u8], a: usize)
    requires { a + length dst.old ≤ length t.now }
    ensures { dst.new ≡ xor_l dst.old (part (length dst.old) a t.now) }
{
    for (i, byte) in dst.iter_mut().enumerate() {
        *byte ^= t[a + i];
    }
}

// dst ^= the parts of t at the four offsets. Four a pass, as that reads and writes dst a quarter as
// often; and one by one, as `^=` of their XOR is 3 % slower.
fn add_four(dst: &mut [u8], t: &[u8], at: &[usize])
    requires { (length at.now ≡ 4) × Reached (length dst.old) (length t.now) at.now }
    ensures { dst.new ≡ xor_l dst.old (xor_offsets (length dst.old) t.now at.now) }
{
    let (a, b, c, e) = (at[0], at[1], at[2], at[3]);
    for (i, byte) in dst.iter_mut().enumerate() {
        *byte = *byte ^ t[a + i] ^ t[b + i] ^ t[c + i] ^ t[e + i];
    }
}

// dst ^= the parts of t at the offsets, four a pass. The index is counted by hand: `as_chunks`, which
// has the compiler unroll the rest, is up to 19 % slower for short parts.
fn add_all(dst: &mut [u8], t: &[u8], at: &[usize])
    requires { Reached (length dst.old) (length t.now) at.now }
    ensures { dst.new ≡ xor_l dst.old (xor_offsets (length dst.old) t.now at.now) }
{
    let mut k = 0;
    while k + 4 <= at.len() {
        add_four(dst, t, &at[k..k + 4]);
        k += 4;
    }
    for i in k..at.len() {
        add_one(dst, t, at[i]);
    }
}

// The XOR of the parts of N bytes of t at the offsets; it stays in registers.
pub fn block_of<const N: usize>(t: &[u8], at: &[usize]) -> [u8; N]
    requires { Reached N (length t.now) at.now }
    ensures { result ≡ xor_offsets N t.now at.now }
{
    let mut block = [0; N];
    add_all(&mut block, t, at);
    block
}

// The XOR of the parts of m bytes, at most 64, in the first m of the block.
pub fn rest_of(t: &[u8], at: &[usize], m: usize) -> [u8; BLOCK]
    requires { (m ≤ 64) × Reached m (length t.now) at.now }
    ensures { take m result ≡ xor_offsets m t.now at.now }
{
    let mut block = [0; BLOCK];
    add_all(&mut block[..m], t, at);
    block
}
