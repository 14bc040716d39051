// Where things are in the images of an accepted layout. After the first label stripes go in groups;
// in a group the cells of a row lie side by side, and the checksum blocks of its units follow.
ghost use Rattle.std.specs.Prelude.{◌≡◌, ◌*◌, ◌≤◌, ◌<◌};
ghost use Rattle.image_layout.specs.Layouts.{film_bytes, stripes_of, units_of, block_bytes, cell_bytes, group_bytes, group_start, group_stripes, cell_at, block_at, unit_stripes, end_at};
ghost use Rattle.image_layout.specs.Stands.{IsCell};

use super::AcceptedLayout;

// The bytes of a label; groups begin at multiples of it.
pub const LABEL_BYTES: u64 = 4096;

// The bytes of a checksum.
const SUM_BYTES: u64 = 8;

impl AcceptedLayout {
    // The bytes of film that a stripe holds.
    pub(crate) fn film_bytes(self) -> u64
        ensures { result ≡ film_bytes self.layout }
    {
        let layout = self.layout;
        layout.disks as u64 * (layout.width as u64 * layout.cell_size as u64)
    }

    // The stripes of the film.
    pub(crate) fn stripes(self) -> u64
        ensures { result ≡ stripes_of self.layout }
    {
        self.layout.length.div_ceil(self.film_bytes())
    }

    // The units of the film.
    pub(crate) fn units(self) -> u64
        ensures { result ≡ units_of self.layout }
    {
        self.stripes().div_ceil(self.layout.unit)
    }

    // The bytes of a checksum block: a checksum for each row of each disk, and one of the block.
    #[tactic(auto, unfolding(crate::specs::Layouts::block_bytes))]
    pub(crate) fn block_bytes(self) -> u64
        ensures { result ≡ block_bytes self.layout }
    {
        SUM_BYTES * (self.layout.width as u64 * (self.layout.disks as u64 + 2)) + SUM_BYTES
    }

    // The bytes of the cells of so many stripes of a group.
    #[tactic(auto, unfolding(crate::specs::Layouts::cell_bytes))]
    fn cell_bytes(self, count: u64) -> u64
        requires { count ≤ self.layout.group }
        ensures { result ≡ cell_bytes self.layout count }
    {
        self.layout.width as u64 * count * self.layout.cell_size as u64
    }

    // The bytes of a group of so many stripes, with the zeros at its end.
    fn group_bytes(self, count: u64) -> u64
        requires { count ≤ self.layout.group }
        ensures { result ≡ group_bytes self.layout count }
    {
        let blocks = self.block_bytes() * count.div_ceil(self.layout.unit);
        (self.cell_bytes(count) + blocks).div_ceil(LABEL_BYTES) * LABEL_BYTES
    }

    // Where a group begins.
    fn group_start(self, group: u64) -> u64
        requires { group * self.layout.group ≤ stripes_of self.layout }
        ensures { result ≡ group_start self.layout group }
    {
        LABEL_BYTES + group * self.group_bytes(self.layout.group)
    }

    // The stripes of a group: the last one may be short.
    fn group_stripes(self, group: u64) -> u64
        requires { group * self.layout.group ≤ stripes_of self.layout }
        ensures { result ≡ group_stripes self.layout group }
    {
        let left = self.stripes() - group * self.layout.group;
        left.min(self.layout.group)
    }

    // Where the cell of a row of a stripe begins.
    pub(crate) fn cell_at(self, row: usize, stripe: u64) -> u64
        requires { IsCell self.layout row stripe }
        ensures { result ≡ cell_at self.layout row stripe }
    {
        let group = stripe / self.layout.group;
        let start = self.group_start(group);
        let cell = row as u64 * self.group_stripes(group) + (stripe - group * self.layout.group);
        start + cell * self.layout.cell_size as u64
    }

    // Where the checksum block of a unit begins.
    pub(crate) fn block_at(self, unit: u64) -> u64
        requires { unit < units_of self.layout }
        ensures { result ≡ block_at self.layout unit }
    {
        let group = unit * self.layout.unit / self.layout.group;
        let start = self.group_start(group);
        let cells = self.cell_bytes(self.group_stripes(group));
        let block = unit - group * (self.layout.group / self.layout.unit);
        start + cells + block * self.block_bytes()
    }

    // The stripes of a unit: the last one may be short.
    pub(crate) fn unit_stripes(self, unit: u64) -> u64
        requires { unit < units_of self.layout }
        ensures { result ≡ unit_stripes self.layout unit }
    {
        let left = self.stripes() - unit * self.layout.unit;
        left.min(self.layout.unit)
    }

    // Where the second label begins.
    pub(crate) fn end_at(self) -> u64
        ensures { result ≡ end_at self.layout }
    {
        let stripes = self.stripes();
        let start = self.group_start(stripes / self.layout.group);
        start + self.group_bytes(stripes % self.layout.group)
    }
}
