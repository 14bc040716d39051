// A unit: the array of its pieces, and its block.
ghost use Rattle.std.specs.Prelude.{◌≡◌, ◌+◌, ◌*◌, ◌≤◌, ◌<◌, length, IfOk};
ghost use Rattle.liberation.specs.Limits.{largest_cell};
ghost use Rattle.liberation.specs.Stripes.Stripes.{stripe_long, cell_at};
ghost use Rattle.refusals.specs.Refused.{refused};
ghost use Rattle.unit_sums.specs.Sums.{fits};
ghost use Rattle.unit_sums.specs.Refusals.{stripes_refusal, numbers_refusal, unit_refusal};

use super::block::Block;
use refusals::{Geometry, Refusal, Shape, check_length};

// The bytes of the largest piece.
const MAX_PIECE_BYTES: usize = 32768;

// Has a unit of so many stripes pieces that are neither empty nor too long? Refusal: 25.
fn check_stripes(cell_size: usize, stripes: usize) -> Result<(), Refusal>
    requires { 0 < cell_size }
    ensures { refused result ≡ stripes_refusal cell_size stripes }
{
    if stripes == 0 || MAX_PIECE_BYTES / cell_size < stripes {
        return Err(Refusal::BadUnit);
    }
    Ok(())
}

// The array of a unit of so many stripes of this shape: its cells are the pieces. Refusals: 1, 13,
// 2, 25.
pub fn unit_geometry(shape: Shape, stripes: usize) -> Result<Geometry, Refusal>
    ensures refusal { refused result ≡ numbers_refusal shape.width shape.disks shape.cell_size stripes }
    ensures numbers { IfOk result (λ g. (g.array.width ≡ shape.width) × (g.array.disks ≡ shape.disks) × (g.cell_size ≡ stripes * shape.cell_size)) }
{
    let Geometry { array, cell_size } = Geometry::new(shape)?;
    check_stripes(cell_size, stripes)?;
    Ok(Geometry {
        array,
        cell_size: stripes * cell_size,
    })
}

// The piece at place x.
pub fn piece_at(geometry: Geometry, cells: &[u8], x: usize) -> &[u8]
    requires long { length cells.now ≡ stripe_long geometry.array.width geometry.array.disks geometry.cell_size }
    requires place { x < geometry.array.width * (geometry.array.disks + 2) }
    ensures { result.now ≡ cell_at geometry.cell_size cells.now x }
{
    let from = x * geometry.cell_size;
    &cells[from..from + geometry.cell_size]
}

// A unit within the limits: its block, and the bytes of its pieces.
#[derive(Clone, Copy)]
pub struct Unit<'a> {
    pub block: Block<'a>,
    pub piece_bytes: usize,
    pub ghost bytes: { 0 < piece_bytes },
    pub ghost small: { piece_bytes ≤ largest_cell },
}

impl<'a> Unit<'a> {
    // Unit `number` of the set of this name, of `long` bytes. Refusals: 1, 13, 2, 25, 5.
    pub fn new(
        shape: Shape,
        stripes: usize,
        name: &'a [u8],
        number: u64,
        block: &'a [u8],
        long: usize,
    ) -> Result<Unit<'a>, Refusal>
        ensures refusal { refused result ≡ unit_refusal shape.width shape.disks shape.cell_size stripes (length name.now) (length block.now) long }
        ensures array { IfOk result (λ u. (u.block.array.width ≡ shape.width) × (u.block.array.disks ≡ shape.disks) × (u.piece_bytes ≡ stripes * shape.cell_size)) }
        ensures block { IfOk result (λ u. (u.block.label.name.now ≡ name.now) × (u.block.label.unit ≡ number) × (u.block.bytes.now ≡ block.now)) }
    {
        let geometry = unit_geometry(shape, stripes)?;
        let block = Block::new(geometry.array, name, number, block)?;
        check_length(long, geometry.stripe_bytes())?;
        Ok(Unit {
            block,
            piece_bytes: geometry.cell_size,
        })
    }

    // The array of its pieces, which are the cells.
    pub fn geometry(self) -> Geometry
        ensures { (result.array ≡ self.entry.block.array) × (result.cell_size ≡ self.entry.piece_bytes) }
    {
        Geometry {
            array: self.block.array,
            cell_size: self.piece_bytes,
        }
    }

    // Has the piece at place x the checksum that the block has?
    pub fn is_fit(self, cells: &[u8], x: usize) -> bool
        requires long { length cells.now ≡ stripe_long self.block.array.width self.block.array.disks self.piece_bytes }
        requires place { x < self.block.array.width * (self.block.array.disks + 2) }
        ensures { result ≡ fits self.entry.block.array.width self.entry.piece_bytes self.entry.block.label.name.now self.entry.block.label.unit self.entry.block.bytes.now cells.now x }
    {
        self.block.is_fit(x, piece_at(self.geometry(), cells, x))
    }
}
