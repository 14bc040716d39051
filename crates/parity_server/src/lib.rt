// A parity server for several servers, whose stripes lie one after another: the extra stripe
// written as the XOR of the others, and any one server rebuilt from the others, whose lost disks
// are mended first.
#![tactic(auto)]

mod limits;
mod losses;
mod mends;
mod servers;
mod sums;

ghost use Rattle.std.specs.Prelude.{◌≡◌, IfOk};
ghost use Rattle.refusals.specs.Refused.{refused, answer_of};
ghost use Rattle.parity_server.specs.Checked.{IsChecked};
ghost use Rattle.parity_server.specs.Says.{rebuild_tests, WriteServerSays, RebuildServerSays};

use refusals::{Refusal, Shape};
use servers::Servers;

// The servers of a rebuild: all of it is tested before a byte is written. Refusals: 1, 13, 2, 18,
// 5, 3, 4.
fn check_rebuild(
    shape: Shape,
    servers: usize,
    lost: usize,
    long: usize,
    losses: &[u8],
) -> Result<Servers, Refusal>
    ensures refusal { refused result ≡ rebuild_tests shape.width shape.disks shape.cell_size servers lost long losses.now }
    ensures servers { IfOk result (λ s. IsChecked shape servers lost long s) }
{
    let servers = limits::check_call(shape, servers, lost, long)?;
    refusals::check_length(losses.len(), 2 * servers.stripes())?;
    losses::check_losses(servers, lost, losses)?;
    Ok(servers)
}

// Writes the extra server's stripe. Refusals: 1, 13, 2, 18, 5; a refused call leaves the stripes as
// they were.
pub fn write_server(shape: Shape, servers: usize, stripes: &mut [u8]) -> Result<(), Refusal>
    ensures { WriteServerSays shape.width shape.disks shape.cell_size servers stripes.old stripes.new (answer_of result) }
{
    let servers = limits::check_call(shape, servers, servers, stripes.len())?;
    sums::solve_server(servers, servers.count, stripes);
    Ok(())
}

// Rebuilds a lost server from the others, whose losses are mended first. Refusals: 1, 13, 2, 18, 5,
// 3, 4; a refused call leaves the stripes as they were.
pub fn rebuild_server(
    shape: Shape,
    servers: usize,
    lost: usize,
    stripes: &mut [u8],
    losses: &[u8],
) -> Result<(), Refusal>
    ensures { RebuildServerSays shape.width shape.disks shape.cell_size servers lost stripes.old losses.now stripes.new (answer_of result) }
{
    let servers = check_rebuild(shape, servers, lost, stripes.len(), losses)?;
    mends::mend_all(servers, lost, stripes, losses);
    sums::solve_server(servers, lost, stripes);
    Ok(())
}
