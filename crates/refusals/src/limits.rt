// The tests of single numbers that calls have in common: width, data disks, size of a cell,
// disk, length of a slice.
ghost use Rattle.std.specs.Prelude.{◌≡◌, not, eqb};
ghost use Rattle.mathematics.specs.Choice.{when};
ghost use Rattle.liberation.specs.Sets.{width_refusal, disks_refusal, size_refusal, disk_refusal};
ghost use Rattle.refusals.specs.Refused.{refused};

use super::Refusal;

// The fewest data disks.
const MIN_DISKS: usize = 2;

// The bytes of the largest cell.
const MAX_CELL_SIZE: usize = 4096;

// Is the width one of the ten? Refusal: 1.
pub fn check_width(width: usize) -> Result<(), Refusal>
    ensures { refused result ≡ width_refusal width }
{
    match width {
        3 | 5 | 7 | 11 | 13 | 17 | 19 | 23 | 29 | 31 => Ok(()),
        _ => Err(Refusal::BadWidth),
    }
}

// Are there from 2 data disks to as many as the width? Refusal: 13.
pub fn check_disks(width: usize, disks: usize) -> Result<(), Refusal>
    ensures { refused result ≡ disks_refusal width disks }
{
    if disks < MIN_DISKS || width < disks {
        return Err(Refusal::BadDisks);
    }
    Ok(())
}

// Has a cell from 1 byte to 4,096? Refusal: 2.
pub fn check_cell_size(size: usize) -> Result<(), Refusal>
    ensures { refused result ≡ size_refusal size }
{
    match size {
        1..=MAX_CELL_SIZE => Ok(()),
        _ => Err(Refusal::BadCellSize),
    }
}

// Is this a data disk, P or Q? Refusal: 3.
pub fn check_disk(disks: usize, disk: usize) -> Result<(), Refusal>
    ensures { refused result ≡ disk_refusal disks disk }
{
    if disk <= disks || disk - disks == 1 {
        return Ok(());
    }
    Err(Refusal::NoSuchDisk)
}

// Is a slice as long as required? Refusal: 5.
pub fn check_length(long: usize, required: usize) -> Result<(), Refusal>
    ensures { refused result ≡ when (not (eqb long required)) 5 }
{
    if long == required {
        Ok(())
    } else {
        Err(Refusal::BadLength)
    }
}
