// Several servers, whose stripes lie one after another, that of the extra server last.
ghost use Rattle.std.specs.Prelude.{◌≡◌, ◌+◌, ◌≤◌};
ghost use Rattle.liberation.specs.ParityServer.Servers.{servers_long};

use refusals::Geometry;

// The fewest servers, the parity server not counted.
pub const MIN_SERVERS: usize = 2;

// The most servers, the parity server not counted.
pub const MAX_SERVERS: usize = 16;

// The most stripes, that of the parity server with them.
pub const MAX_STRIPES: usize = MAX_SERVERS + 1;

// Servers of one geometry, within the limits. The extra server's number is their count.
#[derive(Clone, Copy)]
pub struct Servers {
    pub geometry: Geometry,
    pub count: usize,
    pub ghost few: { 2 ≤ count },
    pub ghost many: { count ≤ 16 },
}

impl Servers {
    // How many stripes there are: that of the extra server is the last.
    pub fn stripes(self) -> usize
        ensures { (result ≡ self.count + 1) × (result ≤ 17) }
    {
        self.count + 1
    }

    // The bytes of all stripes.
    pub fn bytes(self) -> usize
        ensures { result ≡ servers_long self.geometry.array.width self.geometry.array.disks self.geometry.cell_size self.count }
    {
        self.stripes() * self.geometry.stripe_bytes()
    }
}
