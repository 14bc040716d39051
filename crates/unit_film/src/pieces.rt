// The pieces that a range of film lies in, compared with their checksums.
ghost use Rattle.std.specs.Prelude.{◌≡◌, ◌+◌, ◌*◌, ◌/◌, ◌^◌, ◌≤◌, ◌<◌, min, not, length};
ghost use Rattle.mathematics.specs.Choice.{when};
ghost use Rattle.liberation.specs.Stripes.Stripes.{stripe_long};
ghost use Rattle.refusals.specs.Refused.{refused};
ghost use Rattle.unit_film.specs.Says.{cell_count, fit_around};

use refusals::Refusal;
use unit_sums::Unit;

// Have `count` data pieces from place `first` on their checksums? After the last data place comes
// the first.
fn are_fit_around(unit: Unit, cells: &[u8], first: usize, count: usize) -> bool
    requires long { length cells.now ≡ stripe_long unit.block.array.width unit.block.array.disks unit.piece_bytes }
    requires range { first + count < 2 ^ 64 }
    ensures { result ≡ fit_around unit.entry.block.array.width unit.entry.block.array.disks unit.entry.piece_bytes unit.entry.block.label.name.now unit.entry.block.label.unit unit.entry.block.bytes.now cells.now
        count first }
{
    let places = unit.block.array.disks * unit.block.array.width;
    for i in 0..count {
        if !unit.is_fit(cells, (first + i) % places) {
            return false;
        }
    }
    true
}

// Have the pieces that `count` bytes of film from byte `from` on lie in their checksums? The film
// goes through cells of `cell_size` bytes. Refusal: 24.
pub fn check_pieces(
    unit: Unit,
    cell_size: usize,
    cells: &[u8],
    from: usize,
    count: usize,
) -> Result<(), Refusal>
    requires long { length cells.now ≡ stripe_long unit.block.array.width unit.block.array.disks unit.piece_bytes }
    requires bytes { 0 < cell_size }
    requires range { from + count ≤ unit.block.array.disks * (unit.block.array.width * unit.piece_bytes) }
    ensures { refused result ≡ when (not (fit_around unit.entry.block.array.width unit.entry.block.array.disks unit.entry.piece_bytes unit.entry.block.label.name.now unit.entry.block.label.unit unit.entry.block.bytes.now cells.now
        (min (cell_count cell_size from count) (unit.entry.block.array.disks * unit.entry.block.array.width)) (from / cell_size))) 24 }
{
    let places = unit.block.array.disks * unit.block.array.width;
    let first = from / cell_size;
    let past = (from + count).div_ceil(cell_size);
    if are_fit_around(unit, cells, first, (past - first).min(places)) {
        return Ok(());
    }
    Err(Refusal::DoesNotFit)
}
