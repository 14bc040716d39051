// The gather within one slice list by list: a part becomes the XOR of parts of the same slice that
// lie apart from it. The part itself is a source of each list after the first.
ghost use Rattle.std.specs.Prelude.{◌≡◌, ◌≤◌, ◌<◌, length, drop};
ghost use Rattle.mathematics.specs.Xor.{xor_l};
ghost use Rattle.xor.specs.Parts.{part, with_part, xor_offsets};
ghost use Rattle.xor_in_place.specs.Beside.{Apart};

// How many offsets go into a list beside the destination: the cache keeps the lines of eight parts.
const MORE: usize = 7;

// The n bytes from d on ^= the parts at the offsets from index i on, in lists of at most eight: the
// destination is a source of each, in place of an offset before i, or of one that is done. What the
// caller's list then holds is unspecified.
fn add_lists(t: &mut [u8], d: usize, n: usize, at: &mut [usize], from: usize)
    requires { Apart d n (length t.old) at.old × (from ≤ length at.old) × (from < length at.old → 0 < from) }
    ensures { t.new ≡ with_part n d (xor_l (part n d t.old) (xor_offsets n t.old (drop from at.old))) t.old }
{
    for i in (from..at.len()).step_by(MORE) {
        let end = at.len().min(i + MORE);
        at[i - 1] = d;
        super::gather_within(t, d, n, &at[i - 1..end]);
    }
}

// The n bytes from d on = the XOR of the parts of n bytes at the offsets, which lie apart from
// them, list by list. What the caller's list then holds is unspecified.
pub fn gather_lists(t: &mut [u8], d: usize, n: usize, at: &mut [usize])
    requires { Apart d n (length t.old) at.old }
    ensures { t.new ≡ with_part n d (xor_offsets n t.old at.old) t.old }
{
    let first = at.len().min(xor::list_most(n));
    super::gather_within(t, d, n, &at[..first]);
    add_lists(t, d, n, at, first);
}
