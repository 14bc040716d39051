// Where the bytes of an image are: an image keeps one disk of a film, a label at either end. The
// calls refuse a layout beyond the limits and places that it does not have, so a caller need check
// nothing.
#![tactic(auto)]

mod accepted;
mod limits;
mod places;
mod refused;

ghost use Rattle.std.specs.Prelude.{◌≡◌, IfOk};
ghost use Rattle.refusals.specs.Refused.{refused};
ghost use Rattle.image_layout.specs.Limits.{layout_refusal, cell_refusal, block_refusal, unit_refusal, film_refusal};
ghost use Rattle.image_layout.specs.Says.{ImageSays, CellSays, BlockSays, UnitSays, FilmSays};

pub use accepted::AcceptedLayout;
use refusals::{Answer, Refusal};

// The numbers of a set of images: the width, the data disks, the bytes of a cell, the stripes of a
// unit and of a group, and the bytes of the film.
#[repr(C)]
#[derive(Clone, Copy)]
pub struct Layout {
    pub width: usize,
    pub disks: usize,
    pub cell_size: usize,
    pub unit: u64,
    pub group: u64,
    pub length: u64,
}

// The answer, the stripes of the film, its units, where the second label begins, and the bytes of
// an image.
#[repr(C)]
#[derive(Clone, Copy)]
pub struct Image {
    pub answer: Answer,
    pub stripes: u64,
    pub units: u64,
    pub end: u64,
    pub bytes: u64,
}

// The answer, and where in an image how many bytes are.
#[repr(C)]
#[derive(Clone, Copy)]
pub struct Place {
    pub answer: Answer,
    pub at: u64,
    pub bytes: u64,
}

// The answer, the first stripe of a unit, its stripes, and where in an image how many bytes of the
// piece of a row are: the cells of that row, side by side.
#[repr(C)]
#[derive(Clone, Copy)]
pub struct UnitPlace {
    pub answer: Answer,
    pub first: u64,
    pub stripes: u64,
    pub at: u64,
    pub bytes: u64,
}

// The answer, the stripe, data disk, row and byte of the cell for a byte of the film, and where
// that byte is in the image of the disk.
#[repr(C)]
#[derive(Clone, Copy)]
pub struct FilmPlace {
    pub answer: Answer,
    pub stripe: u64,
    pub disk: usize,
    pub row: usize,
    pub byte: usize,
    pub at: u64,
}

// The image of a layout, or why there is none.
fn try_image(layout: Layout) -> Result<Image, Refusal>
    ensures refusal { refused result ≡ layout_refusal layout }
    ensures image { IfOk result (λ i. ImageSays layout i) }
{
    let accepted = AcceptedLayout::new(layout)?;
    let end = accepted.end_at();
    Ok(Image {
        answer: Answer::accepted(),
        stripes: accepted.stripes(),
        units: accepted.units(),
        end,
        bytes: end + places::LABEL_BYTES,
    })
}

// The stripes, the units and the bytes of an image. Refusals: 1, 13, 2, 11, 25.
pub fn image_bytes(layout: Layout) -> Image
    ensures { ImageSays layout result }
{
    try_image(layout).unwrap_or_else(Image::from)
}

// The place of a cell, or why there is none.
fn try_cell(layout: Layout, row: usize, stripe: u64) -> Result<Place, Refusal>
    ensures refusal { refused result ≡ cell_refusal layout row stripe }
    ensures place { IfOk result (λ p. CellSays layout row stripe p) }
{
    let accepted = AcceptedLayout::new(layout)?;
    accepted.check_cell(row, stripe)?;
    Ok(Place {
        answer: Answer::accepted(),
        at: accepted.cell_at(row, stripe),
        bytes: layout.cell_size as u64,
    })
}

// Where the cell of a row of a stripe is. Refusals: 1, 13, 2, 11, 25, 26.
pub fn cell_place(layout: Layout, row: usize, stripe: u64) -> Place
    ensures { CellSays layout row stripe result }
{
    try_cell(layout, row, stripe).unwrap_or_else(Place::from)
}

// The place of a checksum block, or why there is none.
fn try_block(layout: Layout, unit: u64) -> Result<Place, Refusal>
    ensures refusal { refused result ≡ block_refusal layout unit }
    ensures place { IfOk result (λ p. BlockSays layout unit p) }
{
    let accepted = AcceptedLayout::new(layout)?;
    accepted.check_unit(unit)?;
    Ok(Place {
        answer: Answer::accepted(),
        at: accepted.block_at(unit),
        bytes: accepted.block_bytes(),
    })
}

// Where the checksum block of a unit is. Refusals: 1, 13, 2, 11, 25, 26.
pub fn block_place(layout: Layout, unit: u64) -> Place
    ensures { BlockSays layout unit result }
{
    try_block(layout, unit).unwrap_or_else(Place::from)
}

// The place of a unit's piece of a row, or why there is none.
fn try_unit(layout: Layout, row: usize, unit: u64) -> Result<UnitPlace, Refusal>
    ensures refusal { refused result ≡ unit_refusal layout row unit }
    ensures place { IfOk result (λ u. UnitSays layout row unit u) }
{
    let accepted = AcceptedLayout::new(layout)?;
    accepted.check_unit(unit)?;
    accepted.check_row(row)?;
    let first = unit * layout.unit;
    let stripes = accepted.unit_stripes(unit);
    Ok(UnitPlace {
        answer: Answer::accepted(),
        first,
        stripes,
        at: accepted.cell_at(row, first),
        bytes: stripes * layout.cell_size as u64,
    })
}

// The stripes of a unit, and where its piece of a row is. Refusals: 1, 13, 2, 11, 25, 26.
pub fn unit_place(layout: Layout, row: usize, unit: u64) -> UnitPlace
    ensures { UnitSays layout row unit result }
{
    try_unit(layout, row, unit).unwrap_or_else(UnitPlace::from)
}

// The place of a byte of the film, or why there is none.
fn try_film(layout: Layout, byte: u64) -> Result<FilmPlace, Refusal>
    ensures refusal { refused result ≡ film_refusal layout byte }
    ensures place { IfOk result (λ f. FilmSays layout byte f) }
{
    let accepted = AcceptedLayout::new(layout)?;
    accepted.check_byte(byte)?;
    let holds = accepted.film_bytes();
    let stripe = byte / holds;
    let within = (byte % holds) as usize;
    let cell = within / layout.cell_size;
    let row = cell % layout.width;
    let offset = within % layout.cell_size;
    Ok(FilmPlace {
        answer: Answer::accepted(),
        stripe,
        disk: cell / layout.width,
        row,
        byte: offset,
        at: accepted.cell_at(row, stripe) + offset as u64,
    })
}

// Where a byte of the film is. Refusals: 1, 13, 2, 11, 25, 26.
pub fn film_place(layout: Layout, byte: u64) -> FilmPlace
    ensures { FilmSays layout byte result }
{
    try_film(layout, byte).unwrap_or_else(FilmPlace::from)
}
