//! Headers, read.

ghost use Rattle.std.specs.Prelude.{◌≡◌, ◌+◌, ◌<◌, ◌≤◌, ◌++◌, ℕ, List, Some, Ok, Err, true, is_some, length, drop, take, if◌then◌else◌};
ghost use Rattle.std.specs.Int.{w32, w64};
ghost use Rattle.fine_model.specs.Regions.{mark_of, number_in, regions_at, more_at, header_at, header_in, bad_field, entry_test, length_tests};
ghost use Rattle.fine_model.specs.RowBytes.{longest_region, longest_header};
ghost use Rattle.log_partition.specs.declared.fault.HeaderFault.TheVariants as fault;
ghost use Rattle.log_partition.specs.Headers.{failed, first_bad, read, entry_tests, HeaderLaw};

use crate::fault::HeaderFault;
use fine_model::format::{GREATEST, INDEX_ENTRY, MOST_REGIONS, SEALED_GATE};
use fine_model::{Header, Mark, Range, fits_in};

/// The mark that four bytes spell.
fn mark_of(bytes: [u8; 4]) -> Option<Mark>
    ensures { result ≡ mark_of bytes }
{
    if bytes == *b"FLP1" {
        Some(Mark::One)
    } else if bytes == *b"FLP2" {
        Some(Mark::Two)
    } else if bytes == *b"FLP3" {
        Some(Mark::Three)
    } else {
        None
    }
}

/// The bytes of a field.
pub fn field<const N: usize>(bytes: &[u8], at: usize) -> [u8; N]
    requires { at + N ≤ length bytes.now }
    ensures { result ≡ take N (drop at bytes.now) }
{
    let mut field = [0; N];
    field.copy_from_slice(&bytes[at..at + N]);
    field
}

fn number_u32(bytes: &[u8], at: usize) -> u32
    requires { at + 4 ≤ length bytes.now }
    ensures { result ≡ number_in w32 at bytes.now }
{
    u32::from_be_bytes(field::<4>(bytes, at))
}

fn number_u64(bytes: &[u8], at: usize) -> u64
    requires { at + 8 ≤ length bytes.now }
    ensures { result ≡ number_in w64 at bytes.now }
{
    u64::from_be_bytes(field::<8>(bytes, at))
}

/// Goes on where the test of the field at a place holds.
fn sure(holds: bool, at: u32) -> Result<(), HeaderFault>
    ensures { result ≡ (if holds then Ok tt else Err (fault.Bad at)) }
{
    if holds {
        Ok(())
    } else {
        Err(HeaderFault::Bad { at })
    }
}

/// The number of regions that a header of a mark spells.
fn regions_at(bytes: &[u8], mark: Mark) -> u8
    requires { longest_header ≤ length bytes.now }
    ensures { result ≡ regions_at mark bytes.now }
{
    match mark {
        Mark::Three => bytes[41],
        _ => 1,
    }
}

/// The regions behind the lead that a header of a mark spells.
fn more_at(bytes: &[u8], mark: Mark) -> [u32; 7]
    requires { longest_header ≤ length bytes.now }
    ensures { result ≡ more_at mark bytes.now }
{
    match mark {
        Mark::Three => [
            number_u32(bytes, 42),
            number_u32(bytes, 46),
            number_u32(bytes, 50),
            number_u32(bytes, 54),
            number_u32(bytes, 58),
            number_u32(bytes, 62),
            number_u32(bytes, 66),
        ],
        _ => [0; 7],
    }
}

/// The header that bytes of a mark spell.
#[tactic(auto, unfolding(fine_model::specs::Regions::header_at))]
fn header_at(bytes: &[u8], mark: Mark) -> Header
    requires long { longest_header ≤ length bytes.now }
    requires of_mark { mark_of (take 4 (drop 1 bytes.now)) ≡ Some mark }
    ensures { result ≡ header_at bytes.now }
{
    Header {
        mark,
        range: Range {
            first: number_u64(bytes, 13),
            last: number_u64(bytes, 21),
        },
        rows: number_u32(bytes, 29),
        nodes: number_u32(bytes, 33),
        area: number_u32(bytes, 37),
        regions: regions_at(bytes, mark),
        more: more_at(bytes, mark),
    }
}

/// The test of an entry behind the lead.
fn is_entry(header: &Header, i: usize, region: u32, regions: u32) -> bool
    requires { i < 7 }
    ensures { result ≡ (entry_test regions region header.now i).1 }
{
    let named = header.more[i];
    if i + 1 < usize::from(header.regions) {
        named < regions && named != region && !header.more[..i].contains(&named)
    } else {
        named == 0
    }
}

/// The tests of the regions behind the lead.
fn test_entries(header: &Header, region: u32, regions: u32) -> Result<(), HeaderFault>
    ensures { failed result ≡ first_bad (entry_tests regions region header.now) }
{
    for i in 0..7 {
        sure(is_entry(header, i, region, regions), 42 + 4 * i as u32)?;
    }
    Ok(())
}

/// The tests of the body's length and of its regions.
fn test_lengths(
    header: &Header,
    region: u32,
    regions: u32,
    region_len: u64,
) -> Result<(), HeaderFault>
    requires { (1 ≤ region_len) × (region_len ≤ longest_region) }
    ensures { failed result ≡ first_bad (length_tests region_len regions region header.now header.now.mark) }
{
    let len = u64::from(header.area) + INDEX_ENTRY as u64 * u64::from(header.nodes);
    let alike = (header.area == 0) == (header.rows == 0);
    if header.mark != Mark::Three {
        return sure(fits_in(region_len, 1, len) && alike, 37);
    }
    sure(2 <= header.regions && header.regions <= MOST_REGIONS, 41)?;
    let fits = fits_in(region_len, header.regions, len);
    let fits_fewer = fits_in(region_len, header.regions - 1, len);
    sure(fits && !fits_fewer && alike, 37)?;
    test_entries(header, region, regions)
}

/// The tests of the fields before the row area's length, which all marks share, and then those of the lengths.
#[tactic(auto, unfolding(fine_model::specs::Regions::bad_field, fine_model::specs::Regions::header_tests))]
fn test_fields(
    bytes: &[u8],
    header: &Header,
    region: u32,
    regions: u32,
    region_len: u64,
) -> Result<(), HeaderFault>
    requires long { longest_header ≤ length bytes.now }
    requires marked { is_some (mark_of (take 4 (drop 1 bytes.now))) ≡ true }
    requires is { header.now ≡ header_at bytes.now }
    requires region_len { (1 ≤ region_len) × (region_len ≤ longest_region) }
    ensures { failed result ≡ bad_field region_len regions region bytes.now }
{
    sure(number_u64(bytes, 5) == region_len, 5)?;
    let Range { first, last } = header.range;
    sure(1 <= first && first <= GREATEST, 13)?;
    sure(first <= last && last <= GREATEST, 21)?;
    let alike = (header.nodes == 0) == (header.rows == 0);
    sure(header.nodes <= header.rows && alike, 33)?;
    test_lengths(header, region, regions, region_len)
}

/// Reads the header of a region from the region's first 70 bytes, by the region's number among the disk's regions.
///
/// The answer is that of the format's grammar for each region that begins with these bytes: None exactly where the gate is closed,
/// and `Bad` exactly where it is open and the field at that place is the first that fails its test. Takes no memory.
#[tactic(auto, unfolding(fine_model::specs::Regions::header_in, fine_model::specs::Regions::bad_field, fine_model::specs::Regions::header_tests))]
pub fn read_header(
    bytes: &[u8],
    region: u32,
    regions: u32,
    region_len: u64,
) -> Result<Option<Header>, HeaderFault>
    requires long { longest_header ≤ length bytes.now }
    requires of_disk { region < regions }
    requires region_len { (1 ≤ region_len) × (region_len ≤ longest_region) }
    ensures is { read result ≡ header_in region_len regions region bytes.now }
    ensures whole { (rest : List ℕ) → header_in region_len regions region (bytes.now ++ rest) ≡ read result }
{
    if bytes[0] != SEALED_GATE {
        return Ok(None);
    }
    let Some(mark) = mark_of(field::<4>(bytes, 1)) else {
        return Err(HeaderFault::Bad { at: 1 });
    };
    let header = header_at(bytes, mark);
    test_fields(bytes, &header, region, regions, region_len)?;
    Ok(Some(header))
}

/// The header of a region depends on the region's first 70 bytes alone.
pub fn header_law()
    ensures { HeaderLaw }
{}
