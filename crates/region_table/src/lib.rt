// The regions of a record: reading one, the tables that hold them, and the rules that speak of
// several, which look at the places in use.
#![tactic(auto)]

ghost use Rattle.std.specs.Prelude.{◌≡◌, take, drop};
ghost use Rattle.base.specs.Lists.{all, any, pairwise};
ghost use Rattle.regions.specs.Regions.{region_of, no_region, comm, apart, inside_phys};
ghost use Rattle.region_table.specs.Tables.{table_of};

use regions::MemRegion;

// How many regions a cell may have, and the system; so many places their tables have.
pub const MAX_REGIONS: usize = 64;

pub const MAX_BOOT_REGIONS: usize = 16;

// What stands in a place that is not used.
#[tactic(auto, unfolding(regions::specs::Regions::no_region))]
pub fn no_region() -> MemRegion
    ensures { result ≡ no_region }
{
    MemRegion::default()
}

// The region that begins at an offset, on the part of the record from there on.
pub fn region_at(s: &[u8], at: usize) -> MemRegion
    ensures { result ≡ region_of (drop at s.now) }
{
    regions::region_of(s.get(at..).unwrap_or(&[]))
}

// The places of a table that its count means: a count past the places means all of them.
pub fn in_use<const N: usize>(table: &[MemRegion; N], count: usize) -> &[MemRegion]
    ensures { result.now ≡ take count table.now }
{
    if count < N { &table[..count] } else { table }
}

// Whether some region is a communication region.
pub fn has_comm(regions: &[MemRegion]) -> bool
    ensures { result ≡ any comm regions.now }
{
    regions.iter().any(|r| regions::is_comm(*r))
}

// Whether a region lies physically inside a single one of the regions.
pub fn inside_one(r: MemRegion, regions: &[MemRegion]) -> bool
    ensures { result ≡ any (inside_phys r) regions.now }
{
    regions.iter().any(|b| regions::inside_phys(r, *b))
}

// Whether each of the regions may stand in a record with `r`.
pub fn apart_from(regions: &[MemRegion], r: MemRegion) -> bool
    ensures { result ≡ all (λ x. apart x r) regions.now }
{
    regions.iter().all(|x| regions::apart(*x, r))
}

// Whether every two of the regions may stand in a record.
pub fn all_apart(regions: &[MemRegion]) -> bool
    ensures { result ≡ pairwise apart regions.now }
{
    regions
        .iter()
        .enumerate()
        .all(|(i, r)| apart_from(&regions[..i], *r))
}

// The first `n` regions of a record, from byte `base` on, in a table. Not by `from_fn`, with which a place
// that is not used costs as much as one that is: most records have few regions.
pub fn table_of<const N: usize>(s: &[u8], base: u16, n: u16) -> [MemRegion; N]
    ensures { result ≡ table_of N base n s.now }
{
    let mut table = [no_region(); N];
    let used = (n as usize).min(N);
    for i in 0..used {
        table[i] = region_at(s, base as usize + 32 * i);
    }
    table
}
