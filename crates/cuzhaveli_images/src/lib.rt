// The calls for C and Rust on the layout of images: where cells, pieces, checksum blocks, labels and
// every byte of film are.
// Each hands its arguments on to the proved call and promises what that call promises.
#![tactic(auto)]

ghost use Rattle.image_layout.specs.Says.{ImageSays, CellSays, BlockSays, UnitSays, FilmSays};

use image_layout::{FilmPlace, Image, Layout, Place, UnitPlace};

// The stripes, the units and the bytes of an image.
#[unsafe(no_mangle)]
pub extern "C" fn cuzhaveli_image_bytes(layout: Layout) -> Image
    ensures { ImageSays layout result }
{
    image_layout::image_bytes(layout)
}

// Where the cell of a row of a stripe is.
#[unsafe(no_mangle)]
pub extern "C" fn cuzhaveli_cell_place(layout: Layout, row: usize, stripe: u64) -> Place
    ensures { CellSays layout row stripe result }
{
    image_layout::cell_place(layout, row, stripe)
}

// Where the checksum block of a unit is.
#[unsafe(no_mangle)]
pub extern "C" fn cuzhaveli_block_place(layout: Layout, unit: u64) -> Place
    ensures { BlockSays layout unit result }
{
    image_layout::block_place(layout, unit)
}

// The stripes of a unit, and where its piece of a row is.
#[unsafe(no_mangle)]
pub extern "C" fn cuzhaveli_unit_place(layout: Layout, row: usize, unit: u64) -> UnitPlace
    ensures { UnitSays layout row unit result }
{
    image_layout::unit_place(layout, row, unit)
}

// Where a byte of the film is.
#[unsafe(no_mangle)]
pub extern "C" fn cuzhaveli_film_place(layout: Layout, byte: u64) -> FilmPlace
    ensures { FilmSays layout byte result }
{
    image_layout::film_place(layout, byte)
}
