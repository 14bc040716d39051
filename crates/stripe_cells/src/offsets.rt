// A list of offsets, each the bytes of a stripe before a cell, in memory of a fixed size.
ghost use Rattle.std.specs.Prelude.{◌≡◌, ℕ, ◌+◌, ◌-◌, ◌≤◌, ◌<◌, List, [], ◌∷◌, ◌++◌, length, take};
ghost use Rattle.xor.specs.Parts.{with_part, xor_offsets};
ghost use Rattle.xor_in_place.specs.Beside.{Apart};
ghost use Rattle.parity_sets.specs.ParitySets.{cells_of, kind_of, number_of};
ghost use Rattle.stripe_cells.specs.Offsets.{scaled, cells_from};
ghost use Rattle.stripe_cells.specs.OrdinaryCells.{survivors, ordinary_of};
ghost use Rattle.stripe_cells.specs.SetCells.{extra_in};

use super::{LostDisks, disk_cells, surviving};
use parity_sets::ParitySet;
use refusals::Geometry;
use std::marker::Model;
use std::ops::Range;

// At most N offsets.
#[derive(Drop)]
pub struct Offsets<const N: usize> {
    items: [usize; N],
    count: usize,
}

// Clauses see the offsets.
impl<const N: usize> Model for Offsets<N> {
    ghost Value = { List ℕ };

    ghost view = { λ o. take o.count o.items };

    ghost invariant = { λ o. o.count ≤ N };
}

impl<const N: usize> Offsets<N> {
    // An empty list.
    pub fn new() -> Offsets<N>
        ensures { result ≡ [] }
    {
        Offsets {
            items: [0; N],
            count: 0,
        }
    }

    // Empties the list. Its memory is not written.
    pub fn clear(&mut self)
        ensures { self.new ≡ [] }
    {
        self.count = 0;
    }

    // How many offsets it has.
    pub fn len(&self) -> usize
        ensures { (result ≡ length self.now) × (result ≤ N) }
    {
        self.count
    }

    // The offsets.
    pub fn as_slice(&self) -> &[usize]
        ensures { (result.now ≡ self.now) × (length self.now ≤ N) }
    {
        &self.items[..self.count]
    }

    // Appends an offset.
    pub fn push(&mut self, offset: usize)
        requires { length self.old < N }
        ensures { self.new ≡ self.old ++ offset ∷ [] }
    {
        self.items[self.count] = offset;
        self.count += 1;
    }

    // Appends those of a set's cells on these disks: data disks, and P for a row set.
    pub fn push_on(&mut self, geometry: Geometry, set: ParitySet, disks: Range<usize>)
        requires numbered { number_of set < geometry.array.width }
        requires disks { disks.end + kind_of set ≤ geometry.array.width + 2 }
        requires room { length self.old + (disks.end - disks.start) ≤ N }
        ensures { self.new ≡ self.old ++ scaled geometry.cell_size (cells_from (kind_of set) (disks.end - disks.start) geometry.array.width (number_of set) disks.start) }
    {
        self.count = disk_cells::write_on(geometry, set, disks, self.count, &mut self.items);
    }

    // Appends those of the cells of a set but those on lost disks. Inlined, as what it calls is.
    #[inline(always)]
    pub fn push_surviving(&mut self, geometry: Geometry, set: ParitySet, lost: LostDisks)
        requires numbered { number_of set < geometry.array.width }
        requires room { length self.old + (geometry.array.disks + 2) ≤ N }
        ensures { self.new ≡ self.old ++ scaled geometry.cell_size (survivors geometry.array.width lost.low lost.high (cells_of geometry.array.width geometry.array.disks set)) }
    {
        let end = surviving::write_ordinary(geometry, set, lost, self.count, &mut self.items);
        self.count = surviving::write_extra(geometry, set, lost, end, &mut self.items);
    }

    // Appends those of the cells of a set but its ordinary cell on a disk. Inlined too.
    #[inline(always)]
    pub fn push_others(&mut self, geometry: Geometry, set: ParitySet, disk: usize)
        requires numbered { (number_of set < geometry.array.width) × (disk ≤ 33) }
        requires room { length self.old + (geometry.array.disks + 2) ≤ N }
        ensures { self.new ≡ self.old ++ scaled geometry.cell_size (survivors geometry.array.width disk disk (ordinary_of geometry.array.width geometry.array.disks (kind_of set) (number_of set)) ++ extra_in geometry.array.width geometry.array.disks (kind_of set) (number_of set)) }
    {
        let lost = LostDisks::one(disk);
        let end = surviving::write_ordinary(geometry, set, lost, self.count, &mut self.items);
        let none = LostDisks::none();
        self.count = surviving::write_extra(geometry, set, none, end, &mut self.items);
    }

    // The `size` bytes from `to` on become the XOR of the parts of as many bytes at the offsets, which
    // lie apart from them. What the list then holds is unspecified.
    pub fn gather(&mut self, stripe: &mut [u8], to: usize, size: usize)
        requires { Apart to size (length stripe.old) self.old }
        ensures { stripe.new ≡ with_part size to (xor_offsets size stripe.old self.old) stripe.old }
    {
        xor_in_place::gather_lists(stripe, to, size, &mut self.items[..self.count]);
    }
}
