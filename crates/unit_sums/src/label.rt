// Whose pieces they are: a set by its name, and one of its units by its number. Every checksum has
// a seed that says so, and which piece it is of.
ghost use Rattle.std.specs.Prelude.{◌≡◌, ◌+◌, ◌*◌, ◌<◌, length, IfOk};
ghost use Rattle.refusals.specs.Refused.{refused};
ghost use Rattle.unit_sums.specs.Sums.{place_bytes, seed_of, sum_of, guard_of};
ghost use Rattle.unit_sums.specs.Refusals.{length_refusal};

use refusals::{Array, Refusal};

// The bytes of a set's name.
pub const NAME_BYTES: usize = 16;

// The bytes that a seed is the checksum of.
const PLACE_BYTES: usize = 32;

// Disk and row of a guard.
const GUARD: u32 = u32::MAX;

// A unit of a set.
#[derive(Clone, Copy)]
pub struct Label<'a> {
    pub name: &'a [u8; NAME_BYTES],
    pub unit: u64,
}

impl<'a> Label<'a> {
    // The label of unit `unit` of the set of this name. Refusal: 5.
    pub fn new(name: &'a [u8], unit: u64) -> Result<Label<'a>, Refusal>
        ensures refusal { refused result ≡ length_refusal 16 (length name.now) }
        ensures parts { IfOk result (λ l. (l.name.now ≡ name.now) × (l.unit ≡ unit)) }
    {
        match name.as_array::<NAME_BYTES>() {
            Some(name) => Ok(Label { name, unit }),
            None => Err(Refusal::BadLength),
        }
    }

    // Set, disk, row and unit as bytes.
    fn place_bytes(self, disk: u32, row: u32) -> [u8; PLACE_BYTES]
        ensures { result ≡ place_bytes self.entry.name.now disk row self.entry.unit }
    {
        let mut bytes = [0; PLACE_BYTES];
        let name = self.name;
        bytes[..16].copy_from_slice(name);
        bytes[16..20].copy_from_slice(&disk.to_le_bytes());
        bytes[20..24].copy_from_slice(&row.to_le_bytes());
        bytes[24..].copy_from_slice(&self.unit.to_le_bytes());
        bytes
    }

    // The seed of a place.
    fn seed_of(self, disk: u32, row: u32) -> u64
        ensures { result ≡ seed_of self.entry.name.now disk row self.entry.unit }
    {
        xxh64::hash(&self.place_bytes(disk, row), 0)
    }

    // The checksum of a piece at place x.
    pub fn sum_of(self, array: Array, x: usize, piece: &[u8]) -> u64
        requires { x < array.width * (array.disks + 2) }
        ensures { result ≡ sum_of array.width self.entry.name.now self.entry.unit x piece.now }
    {
        let disk = (x / array.width) as u32;
        let row = (x % array.width) as u32;
        xxh64::hash(piece, self.seed_of(disk, row))
    }

    // The guard of the checksums of the unit.
    pub fn guard_of(self, sums: &[u8]) -> u64
        ensures { result ≡ guard_of self.entry.name.now self.entry.unit sums.now }
    {
        xxh64::hash(sums, self.seed_of(GUARD, GUARD))
    }
}
