// How many offsets go into one list.
ghost use Rattle.std.specs.Prelude.{◌≤◌, ◌<◌};

// From so many bytes on, parts are long.
const LONG_PART: usize = 512;

// How many short parts go into one list: all of a set.
const SHORT_PARTS: usize = 33;

// How many long parts go into one list.
const LONG_PARTS: usize = 20;

// Parts a multiple of so many bytes apart share a few sets of the cache.
const CROWDED: usize = 1024;

// The bits of a number of bytes below that.
const BELOW_CROWDED: usize = CROWDED - 1;

// How many of those go into one list: a core may keep no more than eight lines of a set.
const CROWDED_PARTS: usize = 8;

// How many parts of n bytes go into one list: a second list costs more than it saves where parts
// are short. Parts are cells or columns, an odd number of times n apart. No result depends on it,
// so no more is promised than its users need.
pub fn list_most(n: usize) -> usize
    ensures { (1 < result) × (result ≤ 33) }
{
    if n < LONG_PART {
        return SHORT_PARTS;
    }
    if n & BELOW_CROWDED == 0 {
        CROWDED_PARTS
    } else {
        LONG_PARTS
    }
}
