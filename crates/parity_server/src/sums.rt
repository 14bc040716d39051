// The XOR of the stripes of several servers, which lie one after another: a server's stripe becomes
// that of all others.
ghost use Rattle.std.specs.Prelude.{◌≡◌, ◌+◌, ◌≤◌};
ghost use Rattle.liberation.specs.Stripes.Stripes.{solved, stripe_long, without};
ghost use Rattle.liberation.specs.ParityServer.Servers.{up_to};
ghost use Rattle.stripe_cells.specs.Offsets.{scaled};
ghost use Rattle.parity_server.specs.Turns.{AreStripesOf};

use super::servers::{MAX_STRIPES, Servers};
use stripe_cells::Offsets;

// The offsets of all stripes but that of one server.
fn other_stripes(servers: Servers, server: usize) -> Offsets<MAX_STRIPES>
    ensures { result ≡ scaled (stripe_long servers.geometry.array.width servers.geometry.array.disks servers.geometry.cell_size) (without server (up_to (servers.count + 1))) }
{
    let long = servers.geometry.stripe_bytes();
    let mut others = Offsets::new();
    for other in 0..servers.stripes() {
        if other != server {
            others.push(other * long);
        }
    }
    others
}

// A server's stripe becomes the XOR of the others, each stripe as one run of bytes.
pub fn solve_server(servers: Servers, server: usize, stripes: &mut [u8])
    requires { AreStripesOf servers stripes.old × (server ≤ servers.count) }
    ensures { stripes.new ≡ solved (stripe_long servers.geometry.array.width servers.geometry.array.disks servers.geometry.cell_size) server (up_to (servers.count + 1)) stripes.old }
{
    let long = servers.geometry.stripe_bytes();
    other_stripes(servers, server).gather(stripes, server * long, long);
}
