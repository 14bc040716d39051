// Numbers round the width. Each goes round it at most once, so no remainder is taken.
ghost use Rattle.std.specs.Prelude.{◌≡◌, ◌+◌, ◌%◌, ◌≤◌, ◌<◌, eqb};
ghost use Rattle.liberation.specs.Sets.{disk_at, extra_disk};
ghost use Rattle.liberation.specs.Plans.{diagonal_of, second_row};

use refusals::Array;

// The disk of the extra cell of diagonal `number`: the width less twice the number.
pub fn extra_disk(array: Array, number: usize) -> usize
    requires { number < array.width }
    ensures { result ≡ extra_disk array.width number }
{
    let width = array.width;
    let twice = 2 * number;
    if twice < width {
        width - twice
    } else {
        2 * width - twice
    }
}

// The row of a diagonal's cell on the next disk: one more, and 0 at the width.
pub fn next_row(array: Array, row: usize) -> usize
    requires { row < array.width }
    ensures { result ≡ (row + 1) % array.width }
{
    let next = row + 1;
    if next == array.width { 0 } else { next }
}

// The row of diagonal `number` on a data disk.
pub fn row_on(array: Array, number: usize, disk: usize) -> usize
    requires { (number < array.width) × (disk ≤ array.width + 3) }
    ensures { disk ≤ array.width → result ≡ (number + disk) % array.width }
{
    let row = number + disk;
    if row < array.width {
        row
    } else {
        row - array.width
    }
}

// The number of the diagonal that has a data disk's cell of this row as an ordinary cell: the row
// less the disk.
pub fn diagonal_of(array: Array, disk: usize, row: usize) -> usize
    requires { (row < array.width) × (disk ≤ array.width) }
    ensures { (result ≡ diagonal_of array.width disk row) × (result < array.width) }
{
    if disk <= row {
        return row - disk;
    }
    row + array.width - disk
}

// Half of a number, round the width, which is odd: what doubled gives the number again.
pub fn half_of(array: Array, number: usize) -> usize
    requires { number < array.width }
    ensures { (result ≡ second_row array.width number) × (result < array.width) }
{
    let half = number >> 1;
    if half + half == number {
        return half;
    }
    half + ((array.width + 1) >> 1)
}

// Is a cell on this disk? Its column's first cell and the width tell, so no division is made.
pub fn is_on_disk(array: Array, disk: usize, cell: usize) -> bool
    requires { disk ≤ 32 }
    ensures { result ≡ eqb (disk_at array.width cell) disk }
{
    let first = disk * array.width;
    if cell < first {
        return false;
    }
    cell - first < array.width
}
