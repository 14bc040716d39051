// A unit opened: missing pieces are found and mended, and what was mended is compared.
ghost use Rattle.std.specs.Prelude.{◌≡◌, true, ℕ, ◌+◌, ◌*◌, ◌<◌, ◌&&◌, not, eqb, length, get_or, take, is_ok};
ghost use Rattle.mathematics.specs.Choice.{when};
ghost use Rattle.liberation.specs.Stripes.Stripes.{stripe_long};
ghost use Rattle.refusals.specs.Refused.{refused};
ghost use Rattle.unit_sums.specs.Sums.{fits};
ghost use Rattle.rebuild_cells.specs.Theory.Mending.{mendable};
ghost use Rattle.unit_opening.specs.Opening.{missing_marks, missing_pieces, fit_marks};
ghost use Rattle.unit_opening.specs.Says.{OpenedTo};

use parity_sets::MAX_CELLS;
use refusals::Refusal;
use unit_sums::Unit;

// The piece at place x has the mark 0, and fits.
fn is_present(unit: Unit, cells: &[u8], mark: u8, x: usize) -> bool
    requires long { length cells.now ≡ stripe_long unit.block.array.width unit.block.array.disks unit.piece_bytes }
    requires place { x < unit.block.array.width * (unit.block.array.disks + 2) }
    ensures { result ≡ (eqb mark 0 && fits unit.entry.block.array.width unit.entry.piece_bytes unit.entry.block.label.name.now unit.entry.block.label.unit unit.entry.block.bytes.now cells.now x) }
{
    mark == 0 && unit.is_fit(cells, x)
}

// A mark for each piece, 0 if its mark was 0 and it fits.
fn find_missing(unit: Unit, cells: &[u8], marks: &[u8]) -> [u8; MAX_CELLS]
    requires long { length cells.now ≡ stripe_long unit.block.array.width unit.block.array.disks unit.piece_bytes }
    requires marks { length marks.now ≡ unit.block.array.width * (unit.block.array.disks + 2) }
    ensures { take (unit.entry.block.array.width * (unit.entry.block.array.disks + 2)) result
        ≡ missing_marks unit.entry.block.array.width unit.entry.block.array.disks unit.entry.piece_bytes unit.entry.block.label.name.now unit.entry.block.label.unit unit.entry.block.bytes.now marks.now cells.now }
{
    let mut missing = parity_sets::no_marks();
    for (x, mark) in marks.iter().enumerate() {
        missing[x] = u8::from(!is_present(unit, cells, *mark, x));
    }
    missing
}

// The piece at place x fits, which is known if its mark is 0: it was not missing.
fn is_mended(unit: Unit, cells: &[u8], missing: u8, x: usize) -> bool
    requires long { length cells.now ≡ stripe_long unit.block.array.width unit.block.array.disks unit.piece_bytes }
    requires place { x < unit.block.array.width * (unit.block.array.disks + 2) }
    requires known { missing ≡ 0 → fits unit.block.array.width unit.piece_bytes unit.block.label.name.now unit.block.label.unit unit.block.bytes.now cells.now x ≡ true }
    ensures { result ≡ fits unit.entry.block.array.width unit.entry.piece_bytes unit.entry.block.label.name.now unit.entry.block.label.unit unit.entry.block.bytes.now cells.now x }
{
    missing == 0 || unit.is_fit(cells, x)
}

// marks = a mark for each piece, 0 if it fits, which is known of those that were not missing.
fn compare_mended(unit: Unit, cells: &[u8], missing: &[u8], marks: &mut [u8])
    requires long { length cells.now ≡ stripe_long unit.block.array.width unit.block.array.disks unit.piece_bytes }
    requires missing { length missing.now ≡ unit.block.array.width * (unit.block.array.disks + 2) }
    requires marks { length marks.old ≡ unit.block.array.width * (unit.block.array.disks + 2) }
    requires known { (x : ℕ) → x < unit.block.array.width * (unit.block.array.disks + 2) → get_or missing.now x 0 ≡ 0
        → fits unit.block.array.width unit.piece_bytes unit.block.label.name.now unit.block.label.unit unit.block.bytes.now cells.now x ≡ true }
    ensures { marks.new
        ≡ fit_marks unit.entry.block.array.width unit.entry.block.array.disks unit.entry.piece_bytes unit.entry.block.label.name.now unit.entry.block.label.unit unit.entry.block.bytes.now cells.now }
{
    for (x, mark) in marks.iter_mut().enumerate() {
        *mark = u8::from(!is_mended(unit, cells, missing[x], x));
    }
}

// Mends the missing pieces if the others determine them, and marks those that do not fit then; else
// marks and cells are unchanged. Refusal: 23.
pub fn open(unit: Unit, marks: &mut [u8], cells: &mut [u8]) -> Result<(), Refusal>
    requires long { length cells.old ≡ stripe_long unit.block.array.width unit.block.array.disks unit.piece_bytes }
    requires marks { length marks.old ≡ unit.block.array.width * (unit.block.array.disks + 2) }
    ensures refusal { refused result ≡ when (not (mendable unit.entry.block.array.width unit.entry.block.array.disks (missing_pieces unit.entry.block.array.width unit.entry.block.array.disks unit.entry.piece_bytes unit.entry.block.label.name.now unit.entry.block.label.unit unit.entry.block.bytes.now marks.old cells.old))) 23 }
    ensures opened { OpenedTo unit.entry.block.array.width unit.entry.block.array.disks unit.entry.piece_bytes unit.entry.block.label.name.now unit.entry.block.label.unit unit.entry.block.bytes.now marks.old
        marks.new cells.old cells.new (is_ok result) }
{
    let array = unit.block.array;
    let all_missing = find_missing(unit, cells, marks);
    let missing = &all_missing[..array.cells()];
    rebuild_cells::mend(unit.geometry(), missing, cells)?;
    compare_mended(unit, cells, missing, marks);
    Ok(())
}
