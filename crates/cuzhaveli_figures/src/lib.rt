// The calls for C and Rust that reckon: the space of a package, bills, the version of the library.
// Each hands its arguments on to the proved call and promises what that call promises.
#![tactic(auto)]

ghost use Rattle.std.specs.Prelude.{◌≡◌};
ghost use Rattle.space.specs.Says.{SpaceSays};
ghost use Rattle.billing.specs.Bills.{BillSays, RunBillSays};

use billing::Bill;
use rebuild_runs::Run;
use refusals::Shape;
use space::Space;

// The version 1.0.0: 10,000 for each major number, 100 for each minor one, 1 for each patch.
const VERSION: u32 = 10000;

// The space that a package of files takes.
#[unsafe(no_mangle)]
pub extern "C" fn cuzhaveli_package_space(shape: Shape, lengths: &[u64], free: u64) -> Space
    ensures { SpaceSays shape.width shape.disks shape.cell_size lengths.now free result }
{
    space::package_space(shape, lengths, free)
}

// The bill of bytes read, with the rates of the three bands.
#[unsafe(no_mangle)]
pub extern "C" fn cuzhaveli_bill_bytes(bytes: u64, first: u64, second: u64, third: u64) -> Bill
    ensures { BillSays bytes first second third result }
{
    billing::bill_bytes(bytes, first, second, third)
}

// The bill of a run, whose record is handed over by value.
#[unsafe(no_mangle)]
pub extern "C" fn cuzhaveli_bill_run(run: Run, first: u64, second: u64, third: u64) -> Bill
    ensures { RunBillSays run first second third result }
{
    billing::bill_run(run, first, second, third)
}

// The version of the library: 10,000 times its first number, 100 times its second, and its third,
// so 10,000 for 1.0.0.
#[unsafe(no_mangle)]
pub extern "C" fn cuzhaveli_version() -> u32
    ensures { result ≡ 10000 }
{
    VERSION
}
