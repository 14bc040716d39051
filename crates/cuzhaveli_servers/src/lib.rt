// The calls for C and Rust on stripes of several servers, of which the last holds the XOR of the
// others.
// Each hands its arguments on to the proved call and promises what that call promises.
#![tactic(auto)]

ghost use Rattle.parity_server.specs.Says.{WriteServerSays, RebuildServerSays};

use refusals::{Answer, Shape};

// Writes the stripe of a parity server: the last of `servers` + 1 lent stripes becomes the XOR of
// the others.
#[unsafe(no_mangle)]
pub extern "C" fn cuzhaveli_write_server(shape: Shape, servers: usize, stripes: &mut [u8]) -> Answer
    ensures { WriteServerSays shape.width shape.disks shape.cell_size servers stripes.old stripes.new result }
{
    parity_server::write_server(shape, servers, stripes).into()
}

// Rebuilds one of `servers` + 1 lent stripes from the others, whose lost disks, two bytes a server,
// are mended first.
#[unsafe(no_mangle)]
pub extern "C" fn cuzhaveli_rebuild_server(
    shape: Shape,
    servers: usize,
    lost: usize,
    stripes: &mut [u8],
    losses: &[u8],
) -> Answer
    ensures { RebuildServerSays shape.width shape.disks shape.cell_size servers lost stripes.old losses.now stripes.new result }
{
    parity_server::rebuild_server(shape, servers, lost, stripes, losses).into()
}
