// The lost disks of an array as the bits of a word: one tested, set or cleared, and the refusal of
// a word with a bit past Q.
ghost use Rattle.std.specs.Prelude.{◌≡◌, ◌<◌};
ghost use Rattle.refusals.specs.Refused.{refused};
ghost use Rattle.array_states.specs.Lost.{has_bit, lost_after, lost_refusal};

use refusals::{Array, Refusal};

// Is this disk lost?
pub fn is_lost(lost: u64, disk: usize) -> bool
    requires { disk < 64 }
    ensures { result ≡ has_bit lost disk }
{
    (lost >> disk) & 1 == 1
}

// The word with a disk's bit set, or cleared.
pub fn lost_after(lost: u64, disk: usize, back: bool) -> u64
    requires { disk < 64 }
    ensures { result ≡ lost_after lost disk back }
{
    let bit = 1u64 << disk;
    if back {
        lost ^ (lost & bit)
    } else {
        lost | bit
    }
}

// Is no disk past Q lost? Refusal: 3.
pub fn check_lost(array: Array, lost: u64) -> Result<(), Refusal>
    ensures { refused result ≡ lost_refusal array.disks lost }
{
    if lost >> (array.disks + 2) == 0 {
        return Ok(());
    }
    Err(Refusal::NoSuchDisk)
}
