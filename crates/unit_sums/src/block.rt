// The checksum block of a unit, compared with its guard and with pieces.
ghost use Rattle.std.specs.Prelude.{◌≡◌, ◌+◌, ◌*◌, ◌<◌, not, length, IfOk};
ghost use Rattle.mathematics.specs.Choice.{when, first_of};
ghost use Rattle.refusals.specs.Refused.{refused, answer_of};
ghost use Rattle.unit_sums.specs.Sums.{block_long, is_sealed};
ghost use Rattle.unit_sums.specs.Refusals.{length_refusal};
ghost use Rattle.unit_sums.specs.OneBlock.{BlockSays};
ghost use Rattle.unit_sums.specs.OnePiece.{fits_at};

use super::label::Label;
use refusals::{Array, Refusal, check_length};

// The bytes of a checksum.
pub const SUM_BYTES: usize = 8;

// The bytes of a block: a checksum for each piece, and the guard.
pub fn block_bytes(array: Array) -> usize
    ensures { result ≡ block_long array.width array.disks }
{
    array.cells() * SUM_BYTES + SUM_BYTES
}

// A block as long as one of this array is, under the label of its unit.
#[derive(Clone, Copy)]
pub struct Block<'a> {
    pub array: Array,
    pub label: Label<'a>,
    pub bytes: &'a [u8],
    pub ghost long: { length bytes.now ≡ block_long array.width array.disks },
}

impl<'a> Block<'a> {
    // The block of unit `unit` of the set of this name. Refusal: 5.
    pub fn new(
        array: Array,
        name: &'a [u8],
        unit: u64,
        bytes: &'a [u8],
    ) -> Result<Block<'a>, Refusal>
        ensures refusal { refused result ≡ first_of (length_refusal 16 (length name.now)) (length_refusal (block_long array.width array.disks) (length bytes.now)) }
        ensures parts { IfOk result (λ b. (b.array ≡ array) × (b.label.name.now ≡ name.now) × (b.label.unit ≡ unit) × (b.bytes.now ≡ bytes.now)) }
    {
        let label = Label::new(name, unit)?;
        check_length(bytes.len(), block_bytes(array))?;
        Ok(Block {
            array,
            label,
            bytes,
        })
    }

    // Does it end with its guard?
    fn is_sealed(self) -> bool
        ensures { result ≡ is_sealed self.entry.array.width self.entry.array.disks self.entry.label.name.now self.entry.label.unit self.entry.bytes.now }
    {
        let (sums, guard) = self.bytes.split_at(self.array.cells() * SUM_BYTES);
        guard == self.label.guard_of(sums).to_le_bytes().as_slice()
    }

    // Does it end with its guard? Refusal: 24.
    pub fn check_guard(self) -> Result<(), Refusal>
        ensures { refused result ≡ when (not (is_sealed self.entry.array.width self.entry.array.disks self.entry.label.name.now self.entry.label.unit self.entry.bytes.now)) 24 }
    {
        if self.is_sealed() {
            return Ok(());
        }
        Err(Refusal::DoesNotFit)
    }

    // Has the piece at place x the checksum that the block has?
    pub fn is_fit(self, x: usize, piece: &[u8]) -> bool
        requires { x < self.array.width * (self.array.disks + 2) }
        ensures { result ≡ fits_at self.entry.array.width self.entry.label.name.now self.entry.label.unit self.entry.bytes.now x piece.now }
    {
        let (sums, _) = self.bytes.as_chunks::<SUM_BYTES>();
        sums[x] == self.label.sum_of(self.array, x, piece).to_le_bytes()
    }
}

// Does the block end with its guard? Refusals: 1, 13, 5, and 24 if it does not.
pub fn block_fits(
    width: usize,
    disks: usize,
    name: &[u8],
    unit: u64,
    block: &[u8],
) -> Result<(), Refusal>
    ensures { BlockSays width disks name.now unit block.now (answer_of result) }
{
    let array = Array::new(width, disks)?;
    Block::new(array, name, unit, block)?.check_guard()
}
