// The tests of a call on the stripes of several servers.
ghost use Rattle.std.specs.Prelude.{◌≡◌, not, eqb, IfOk};
ghost use Rattle.mathematics.specs.Choice.{when, first_of};
ghost use Rattle.liberation.specs.Sets.{shape_refusal};
ghost use Rattle.liberation.specs.ParityServer.Servers.{servers_long, server_refusal};
ghost use Rattle.refusals.specs.Refused.{refused};
ghost use Rattle.parity_server.specs.Checked.{IsChecked};

use super::servers::{MAX_SERVERS, MIN_SERVERS, Servers};
use refusals::{Geometry, Refusal, Shape};

// Are there so many servers, and is this one of them or the extra one? Refusal: 18.
fn check_server(servers: usize, server: usize) -> Result<(), Refusal>
    ensures { refused result ≡ server_refusal servers server }
{
    if servers < MIN_SERVERS || MAX_SERVERS < servers || servers < server {
        return Err(Refusal::NoSuchServer);
    }
    Ok(())
}

// The servers of either call, on stripes of `long` bytes in all. Refusals: 1, 13, 2, 18, 5.
pub fn check_call(
    shape: Shape,
    servers: usize,
    server: usize,
    long: usize,
) -> Result<Servers, Refusal>
    ensures refusal { refused result ≡ first_of (shape_refusal shape.width shape.disks shape.cell_size) (first_of (server_refusal servers server) (when (not (eqb long (servers_long shape.width shape.disks shape.cell_size servers))) 5)) }
    ensures servers { IfOk result (λ s. IsChecked shape servers server long s) }
{
    let geometry = Geometry::new(shape)?;
    check_server(servers, server)?;
    let servers = Servers {
        geometry,
        count: servers,
    };
    refusals::check_length(long, servers.bytes())?;
    Ok(servers)
}
