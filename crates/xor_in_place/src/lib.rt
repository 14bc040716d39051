// The gather within one slice: a part becomes the XOR of parts of the same slice. A block is read
// before it is written, so the part itself may be among them.
#![tactic(auto)]

mod blocks;
mod lists;

ghost use Rattle.std.specs.Prelude.{◌≡◌, length};
ghost use Rattle.xor.specs.Parts.{with_part, xor_offsets};
ghost use Rattle.xor_in_place.specs.Beside.{Beside};

pub use lists::gather_lists;
use xor::{BLOCK, WIDE_BLOCK};

// The n bytes from d on = the XOR of the parts of n bytes at the offsets: in blocks of 128 bytes,
// then of 64, then what is left.
pub fn gather_within(t: &mut [u8], d: usize, n: usize, at: &[usize])
    requires { Beside d n (length t.old) at.now }
    ensures { t.new ≡ with_part n d (xor_offsets n t.old at.now) t.old }
{
    let wide = n - n % WIDE_BLOCK;
    blocks::put_blocks::<WIDE_BLOCK>(t, d, wide, at);
    let whole = n - n % BLOCK;
    blocks::put_blocks::<BLOCK>(&mut t[wide..], d, whole - wide, at);
    if whole < n {
        blocks::put_rest(&mut t[whole..], d, n - whole, at);
    }
}
