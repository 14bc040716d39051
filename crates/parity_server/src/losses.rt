// The lost disks of several servers, two bytes a server, and their tests.
ghost use Rattle.std.specs.Prelude.{◌≡◌, ◌+◌, ◌*◌, ◌≤◌, ◌<◌, length, MatchOption};
ghost use Rattle.liberation.specs.ParityServer.Servers.{byte_refusal, pair_refusal, losses_refusal};
ghost use Rattle.refusals.specs.Refused.{refused};

use super::servers::Servers;
use refusals::{Array, Refusal};

// The byte for no loss in the pairs of losses.
const NO_LOSS: u8 = 255;

// The disk that a byte names, if it names one.
pub fn loss_of(byte: u8) -> Option<usize>
    ensures { MatchOption result (byte ≡ 255) (λ disk. (disk ≡ byte) × (byte ≡ 255 → ⊥)) }
{
    if byte == NO_LOSS {
        return None;
    }
    Some(usize::from(byte))
}

// Is a loss one of the disks? Refusal: 3.
fn check_loss(array: Array, byte: u8) -> Result<(), Refusal>
    ensures { refused result ≡ byte_refusal array.disks byte }
{
    match loss_of(byte) {
        Some(disk) => array.check_disk(disk),
        None => Ok(()),
    }
}

// May a server have these two losses? Refusals: 3, 4.
fn check_pair(array: Array, first: u8, second: u8) -> Result<(), Refusal>
    ensures { refused result ≡ pair_refusal array.disks first second }
{
    check_loss(array, first)?;
    check_loss(array, second)?;
    if first != NO_LOSS && first == second {
        return Err(Refusal::SameDisk);
    }
    Ok(())
}

// May the servers have these losses? Those of the lost server are not read. Refusals: 3, 4 of the
// first server that is refused.
pub fn check_losses(servers: Servers, lost: usize, losses: &[u8]) -> Result<(), Refusal>
    requires { length losses.now ≡ 2 * (servers.count + 1) }
    ensures { refused result ≡ losses_refusal (servers.count + 1) servers.geometry.array.disks lost losses.now }
{
    for server in 0..servers.stripes() {
        if server != lost {
            check_pair(
                servers.geometry.array,
                losses[2 * server],
                losses[2 * server + 1],
            )?;
        }
    }
    Ok(())
}
