// The cell record: its values, and the definitions of its rules. Whether a record keeps the rules is
// asked in `cell_rules`.
#![tactic(auto)]

ghost use Rattle.std.specs.Prelude.{◌≡◌, min};
ghost use Rattle.base.specs.Lists.{any};
ghost use Rattle.fields.specs.Fields.{u16 as u16_of};
ghost use Rattle.regions.specs.Regions.{comm};
ghost use Rattle.region_table.specs.Tables.{max_regions, region_at};
ghost use Rattle.cell_record.specs.CellRecord.{cell_of, cell_regions};

use region_table::MAX_REGIONS;
use regions::MemRegion;

// The values of a cell record. The reply limit is in polls, 0 for none, as C-14 and its definition have
// it. Its regions are a table with a count, as document 01's rules and the claims read them
// (`cell_regions`), in fixed memory.
#[derive(Clone, Copy)]
pub struct CellConfig {
    pub name: [u8; 32],
    pub passive: bool,
    pub reply_limit: u16,
    pub cpus: u64,
    pub region_count: usize,
    pub regions: [MemRegion; MAX_REGIONS],
}

impl CellConfig {
    // Its regions: those that the count names.
    pub fn regions(&self) -> &[MemRegion]
        ensures { result.now ≡ cell_regions self.now }
    {
        region_table::in_use(&self.regions, self.region_count)
    }
}

// The answer that the record alone gives, and the values as they stand in it, whatever it is. `code` is
// the number that document 01 fixes. One pair with its names, as the definition has it (`read_cell`).
#[derive(Clone, Copy)]
pub struct CellRead {
    pub code: i32,
    pub config: CellConfig,
}

// The name that stands in a record.
#[tactic(auto, unfolding(crate::specs::CellRecord::cell_of))]
pub fn name(s: &[u8]) -> [u8; 32]
    ensures { result ≡ (cell_of s.now).name }
{
    fields::name_of(fields::part(s, 8, 32))
}

// The values of a record, whatever its bytes.
#[tactic(auto, unfolding(crate::specs::CellRecord::cell_of))]
pub fn cell_of(s: &[u8]) -> CellConfig
    ensures { result ≡ cell_of s.now }
{
    let count = fields::u16_at(s, 48);
    CellConfig {
        name: name(s),
        passive: fields::u16_at(s, 6) % 2 == 1,
        reply_limit: fields::u16_at(s, 50),
        cpus: fields::u64_at(s, 40),
        region_count: count as usize,
        regions: region_table::table_of(s, 56, count),
    }
}

// How many regions of the record there are: those that its count names, as many as a table holds.
pub fn region_count(s: &[u8]) -> u16
    ensures { result ≡ min (u16_of 48 s.now) max_regions }
{
    fields::u16_at(s, 48).min(MAX_REGIONS as u16)
}

// Region `i` of the record.
#[tactic(auto, unfolding(region_table::specs::Tables::region_at))]
pub fn region(s: &[u8], i: u16) -> MemRegion
    ensures { result ≡ region_at 56 s.now i }
{
    region_table::region_at(s, 56 + 32 * i as usize)
}

// Whether some region of the record is a communication region. Over the bytes, and not by
// `region_table::has_comm`: no table is made for one flag.
pub fn has_comm(s: &[u8]) -> bool
    ensures { result ≡ any comm (cell_regions (cell_of s.now)) }
{
    (0..region_count(s)).any(|i| regions::is_comm(region(s, i)))
}
