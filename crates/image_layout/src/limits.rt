// The tests of the numbers of a layout, and of the places in an accepted one.
ghost use Rattle.std.specs.Prelude.{◌≡◌, Bool, not, ltb, ◌&&◌};
ghost use Rattle.mathematics.specs.Choice.{when, first_of};
ghost use Rattle.refusals.specs.Refused.{refused};
ghost use Rattle.space.specs.Refusals.{package_refusal};
ghost use Rattle.image_layout.specs.Layouts.{stripes_of, units_of};
ghost use Rattle.image_layout.specs.Limits.{group_refusal};

use super::AcceptedLayout;
use refusals::Refusal;

// The most stripes of a group.
const MAX_GROUP: u64 = 65536;

// The most bytes of a piece of more than one cell, a row of a unit.
const MAX_PIECE: u64 = 32768;

// Is the film short enough for a package? Refusal: 11.
pub fn check_length(length: u64) -> Result<(), Refusal>
    ensures { refused result ≡ package_refusal length }
{
    if length <= space::MAX_PACKAGE {
        return Ok(());
    }
    Err(Refusal::PackageTooLong)
}

// Is a group a whole number of units, each of one stripe or with short enough pieces? Refusal: 25.
pub fn check_group(unit: u64, size: u64, group: u64) -> Result<(), Refusal>
    ensures { refused result ≡ group_refusal unit size group }
{
    let short = unit.saturating_mul(size) <= MAX_PIECE || unit == 1;
    if 0 < unit && short && 0 < group && group <= MAX_GROUP && group % unit == 0 {
        return Ok(());
    }
    Err(Refusal::BadUnit)
}

// Is it there? Refusal: 26.
fn check_place(there: bool) -> Result<(), Refusal>
    ensures { refused result ≡ when (not there) 26 }
{
    there.then_some(()).ok_or(Refusal::NoSuchPlace)
}

impl AcceptedLayout {
    // Has the layout this row of this stripe? Refusal: 26.
    pub(crate) fn check_cell(self, row: usize, stripe: u64) -> Result<(), Refusal>
        ensures { refused result ≡ when (not (ltb row self.layout.width && ltb stripe (stripes_of self.layout))) 26 }
    {
        check_place(row < self.layout.width && stripe < self.stripes())
    }

    // Has it this row? Refusal: 26.
    pub(crate) fn check_row(self, row: usize) -> Result<(), Refusal>
        ensures { refused result ≡ when (not (ltb row self.layout.width)) 26 }
    {
        check_place(row < self.layout.width)
    }

    // Has it this unit? Refusal: 26.
    pub(crate) fn check_unit(self, unit: u64) -> Result<(), Refusal>
        ensures { refused result ≡ when (not (ltb unit (units_of self.layout))) 26 }
    {
        check_place(unit < self.units())
    }

    // Has its film this byte? Refusal: 26.
    pub(crate) fn check_byte(self, byte: u64) -> Result<(), Refusal>
        ensures { refused result ≡ when (not (ltb byte self.layout.length)) 26 }
    {
        check_place(byte < self.layout.length)
    }
}
