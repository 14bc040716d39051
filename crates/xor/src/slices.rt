// A slice of bytes tested for zero.
ghost use Rattle.std.specs.Prelude.{◌≡◌, length, replicate};
ghost use Rattle.mathematics.specs.Lists.{same};

// Is every byte 0?
pub fn all_zero(cell: &[u8]) -> bool
    ensures { result ≡ same cell.now (replicate (length cell.now) 0) }
{
    cell.iter().fold(0, |any, byte| any | *byte) == 0
}
