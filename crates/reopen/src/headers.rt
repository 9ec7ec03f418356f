//! The headers of a log's regions.

ghost use Rattle.std.specs.Prelude.{◌≡◌, ◌<◌, ◌≤◌, IfOk, IfErr, OnOk, OnErr, Ok, Err};
ghost use Rattle.std.specs.List.{AllByRecursion};
ghost use Rattle.fine_model.specs.RowBytes.{longest_region, longest_header};
ghost use Rattle.log_disk.specs.Disk.{OnlyFails};
ghost use Rattle.log_partition.specs.Headers.{read};
ghost use Rattle.reopen.specs.declared.fault.OpenFault.TheVariants as fault;
ghost use Rattle.reopen.specs.Opening.{SeesHeader, IsBadHeader, with_part, SeesParts, SeesChain, TellsDamage, EndsInTime};

use crate::chain::{Chain, chain_of, check_apart};
use crate::fault::OpenFault;
use fine_model::format::LONGEST_HEADER;
use fine_model::{Header, Items, NoMemory, Part, Parts};
use log_disk::{Failed, LogDisk};
use log_partition::{HeaderFault, read_header};
use std::alloc::Global;

/// What the first bytes of a region answer to as a header.
fn see_header<D: LogDisk>(
    disk: &mut D,
    region: u32,
) -> Result<Result<Option<Header>, HeaderFault>, Failed>
    requires region { region < (D.state disk.old).regions }
    requires region_len { (longest_header ≤ (D.state disk.old).region_len) × ((D.state disk.old).region_len ≤ longest_region) }
    ensures sees { IfOk result (λ answer. SeesHeader (D.state disk.old) region (read answer)) }
    ensures same { OnOk result (D.state disk.new ≡ D.state disk.old) }
    ensures failed { OnErr result (OnlyFails (D.state disk.old) (D.state disk.new)) }
{
    let mut bytes = [0; LONGEST_HEADER];
    let regions = disk.regions();
    let region_len = disk.region_len();
    disk.read(region, 0, &mut bytes)?;
    Ok(read_header(&bytes, region, regions, region_len))
}

/// Reads the header of a region: none where it is closed.
fn read_part<D: LogDisk>(disk: &mut D, region: u32) -> Result<Option<Header>, OpenFault>
    requires region { region < (D.state disk.old).regions }
    requires region_len { (longest_header ≤ (D.state disk.old).region_len) × ((D.state disk.old).region_len ≤ longest_region) }
    ensures ok { IfOk result (λ header. SeesHeader (D.state disk.old) region (Ok header)) }
    ensures err { IfErr result (IsBadHeader (D.state disk.old) region) }
    ensures failed { result ≡ Err fault.Disk → OnlyFails (D.state disk.old) (D.state disk.new) }
    ensures same { (result ≡ Err fault.Disk → ⊥) → D.state disk.new ≡ D.state disk.old }
{
    match see_header(disk, region) {
        Err(_failed) => Err(OpenFault::Disk),
        Ok(Ok(header)) => Ok(header),
        Ok(Err(HeaderFault::Bad { at })) => Err(OpenFault::BadRegion { region, at }),
    }
}

/// Puts the part that a region leads, if it leads one, behind others.
fn add_part(parts: &mut Parts, region: u32, header: Option<Header>) -> Result<(), NoMemory>
    ensures { OnOk result (parts.new ≡ with_part parts.old region header) }
{
    if let Some(header) = header {
        parts.push(Part { region, header })?;
    }
    Ok(())
}

/// Reads the header of each region in ascending order, up to the first that is bad.
fn read_parts<D: LogDisk>(alloc: Global, disk: &mut D) -> Result<Parts, OpenFault>
    requires region_len { (longest_header ≤ (D.state disk.old).region_len) × ((D.state disk.old).region_len ≤ longest_region) }
    ensures ok { IfOk result (SeesParts (D.state disk.old)) }
    ensures in_time { IfOk result (AllByRecursion EndsInTime) }
    ensures err { IfErr result (TellsDamage (D.state disk.old)) }
    ensures failed { result ≡ Err fault.Disk → OnlyFails (D.state disk.old) (D.state disk.new) }
    ensures same { (result ≡ Err fault.Disk → ⊥) → D.state disk.new ≡ D.state disk.old }
{
    let mut parts = Items::new(alloc);
    for region in 0..disk.regions() {
        let header = read_part(disk, region)?;
        add_part(&mut parts, region, header)?;
    }
    Ok(parts)
}

/// Finds the chain of a log: reads the first 70 bytes of each region, in ascending order, and nothing else.
///
/// The chain is the format's: of the parts that begin where the chain ends, the one that ends latest is taken, in the lowest
/// region on a tie. `BadRegion`, `Gap` and `Overlap` come exactly where the format has no chain, and tell what it says. `Disk` comes
/// only where the disk failed. Nothing is written.
pub fn read_chain<D: LogDisk>(alloc: Global, disk: &mut D) -> Result<Chain, OpenFault>
    requires region_len { (longest_header ≤ (D.state disk.old).region_len) × ((D.state disk.old).region_len ≤ longest_region) }
    ensures ok { IfOk result (SeesChain (D.state disk.old)) }
    ensures err { IfErr result (TellsDamage (D.state disk.old)) }
    ensures failed { result ≡ Err fault.Disk → OnlyFails (D.state disk.old) (D.state disk.new) }
    ensures same { (result ≡ Err fault.Disk → ⊥) → D.state disk.new ≡ D.state disk.old }
{
    let sealed = read_parts(alloc, disk)?;
    let parts = sealed.as_slice();
    check_apart(parts)?;
    chain_of(alloc, parts)
}
