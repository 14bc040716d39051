// The film of a unit, stripe by stripe: the pieces that a range of it lies in are compared, then
// its bytes are copied, a cell after the other.
ghost use Rattle.std.specs.Prelude.{◌≡◌, ◌+◌, ◌*◌, ◌≤◌, ◌<◌, length, take, drop};
ghost use Rattle.xor.specs.Parts.{part, with_part};
ghost use Rattle.refusals.specs.Refused.{refused, answer_of};
ghost use Rattle.unit_film.specs.FilmOrder.{in_order};
ghost use Rattle.unit_film.specs.Says.{range_refusal, FilmBytesSays};

use super::pieces::check_pieces;
use refusals::{Refusal, Shape};
use unit_sums::Unit;

// Do `count` bytes from byte `from` on end at byte `most` or before? Refusal: 5.
fn check_range(most: usize, from: usize, count: usize) -> Result<(), Refusal>
    ensures { refused result ≡ range_refusal most from count }
{
    if from <= most && count <= most - from {
        return Ok(());
    }
    Err(Refusal::BadLength)
}

// dst = src, byte by byte: the library's `copy_from_slice` calls memmove here, and the archive asks no
// more of C than memcpy and memset.
fn copy(dst: &mut [u8], src: &[u8])
    requires { length src.now ≡ length dst.old }
    ensures { dst.new ≡ src.now }
{
    for (i, byte) in dst.iter_mut().enumerate() {
        *byte = src[i];
    }
}

// The `count` bytes of cells from byte `from` on, into out from byte `to` on.
fn copy_part(cells: &[u8], from: usize, count: usize, to: usize, out: &mut [u8])
    requires { (from + count ≤ length cells.now) × (to + count ≤ length out.old) }
    ensures { out.new ≡ with_part count to (part count from cells.now) out.old }
{
    let end = from + count;
    let past = to + count;
    copy(&mut out[to..past], &cells[from..end]);
}

// out = the film's bytes from byte `from` on: cells of `size` bytes at `places` data places in each
// of `stripes` stripes.
fn copy_film(places: usize, size: usize, stripes: usize, cells: &[u8], from: usize, out: &mut [u8])
    requires { (0 < places) × (0 < size) × (places * (stripes * size) ≤ length cells.now)
        × (from + length out.old ≤ places * (stripes * size)) }
    ensures { out.new
        ≡ take (length out.old) (drop from (in_order places size stripes cells.now)) }
{
    let all = out.len();
    let mut stripe = from / size / places;
    let mut x = from / size % places;
    let mut byte = from % size;
    let mut done = 0;
    // A turn goes on by as many bytes as are left of a cell, so no range counts the turns; places are
    // stepped, since a division for each cell takes long where cells are small.
    while done < all {
        let count = (size - byte).min(all - done);
        let at = x * (stripes * size) + stripe * size + byte;
        copy_part(cells, at, count, done, out);
        done += count;
        byte = 0;
        x += 1;
        if x == places {
            x = 0;
            stripe += 1;
        }
    }
}

// The one call that hands out film: out = the bytes of the unit's film from byte `from` on, if the
// block is sealed and every piece that they lie in has its checksum. Refusals: 1, 13, 2, 25, 5, 24;
// a refused call leaves out unchanged.
pub fn film_bytes(
    shape: Shape,
    stripes: usize,
    name: &[u8],
    unit: u64,
    block: &[u8],
    cells: &[u8],
    from: usize,
    out: &mut [u8],
) -> Result<(), Refusal>
    ensures { FilmBytesSays shape.width shape.disks shape.cell_size stripes name.now unit
        block.now cells.now from out.old out.new (answer_of result) }
{
    let unit = Unit::new(shape, stripes, name, unit, block, cells.len())?;
    let array = unit.block.array;
    check_range(
        array.disks * unit.geometry().column_bytes(),
        from,
        out.len(),
    )?;
    unit.block.check_guard()?;
    check_pieces(unit, shape.cell_size, cells, from, out.len())?;
    copy_film(
        array.disks * array.width,
        shape.cell_size,
        stripes,
        cells,
        from,
        out,
    );
    Ok(())
}
