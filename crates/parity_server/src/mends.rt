// The lost disks of several servers rebuilt, each server's in its part of the slice of all stripes:
// one by our plan and two by the walk.
ghost use Rattle.std.specs.Prelude.{◌≡◌, ◌+◌};
ghost use Rattle.liberation.specs.ParityServer.Servers.{pair_refusal, mended, mended_turn, mended_all};
ghost use Rattle.liberation.specs.ParityServer.ServerClaims.{GivenLosses};
ghost use Rattle.refusals.specs.StripeOf.{IsStripeOf};
ghost use Rattle.parity_server.specs.Turns.{AreStripesOf, Turn};

use super::losses;
use super::servers::Servers;
use rebuild_one::LostDisk;
use refusals::Geometry;

// Mends a stripe's losses in place.
fn mend_stripe(geometry: Geometry, first: u8, second: u8, stripe: &mut [u8])
    requires stripe_len { IsStripeOf geometry stripe.old }
    requires accepted { pair_refusal geometry.array.disks first second ≡ 0 }
    ensures { stripe.new ≡ mended geometry.array.width geometry.array.disks geometry.cell_size first second stripe.old }
{
    match (losses::loss_of(first), losses::loss_of(second)) {
        (None, None) => {}
        (Some(disk), None) | (None, Some(disk)) => {
            LostDisk { geometry, disk }.rebuild_within(stripe);
        }
        (Some(a), Some(b)) => rebuild_two::solve_pair(geometry, a, b, stripe),
    }
}

// Mends a server in the slice of all stripes, the lost server not.
fn mend_turn(servers: Servers, lost: usize, server: usize, stripes: &mut [u8], losses: &[u8])
    requires { Turn servers lost server losses.now stripes.old }
    ensures { stripes.new ≡ mended_turn servers.geometry.array.width servers.geometry.array.disks servers.geometry.cell_size lost losses.now server stripes.old }
{
    if server != lost {
        let long = servers.geometry.stripe_bytes();
        let start = server * long;
        mend_stripe(
            servers.geometry,
            losses[2 * server],
            losses[2 * server + 1],
            &mut stripes[start..start + long],
        );
    }
}

// Mends every server but the lost one.
pub fn mend_all(servers: Servers, lost: usize, stripes: &mut [u8], losses: &[u8])
    requires { AreStripesOf servers stripes.old × GivenLosses servers.geometry.array.disks servers.count lost losses.now }
    ensures { stripes.new ≡ mended_all (servers.count + 1) servers.geometry.array.width servers.geometry.array.disks servers.geometry.cell_size lost losses.now stripes.old }
{
    for server in 0..servers.stripes() {
        mend_turn(servers, lost, server, stripes, losses);
    }
}
