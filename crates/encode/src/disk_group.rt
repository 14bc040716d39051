// Some data disks, whose cells are added to the parity cells together.
ghost use Rattle.std.specs.Prelude.{◌≡◌, ◌≤◌, ◌<◌};

use refusals::Geometry;

// The most data disks of the last group.
const LAST_GROUP: usize = 8;

// The data disks of the first group.
const FIRST_GROUP: usize = 7;

// The data disks of each group after it but the last.
const NEXT_GROUP: usize = 6;

// The disks from `first` on and before `end`, of an array's data disks.
#[derive(Clone, Copy)]
pub struct DiskGroup {
    pub geometry: Geometry,
    pub first: usize,
    pub end: usize,
    pub ghost ordered: { first < end },
    pub ghost last: { end ≤ geometry.array.disks },
}

impl DiskGroup {
    // The group that begins with this disk: all disks that are left if these are few; else seven in
    // the first group, and six in the others, which have the parity cell as a source too.
    pub fn from_disk(geometry: Geometry, first: usize) -> DiskGroup
        requires { first < geometry.array.disks }
        ensures { (result.geometry ≡ geometry) × (result.first ≡ first) × (result.end ≤ geometry.array.disks) }
    {
        let left = geometry.array.disks - first;
        let count = if left <= LAST_GROUP {
            left
        } else if first == 0 {
            FIRST_GROUP
        } else {
            NEXT_GROUP
        };
        DiskGroup {
            geometry,
            first,
            end: first + count,
        }
    }
}
