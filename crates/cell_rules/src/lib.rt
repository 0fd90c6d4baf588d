// The rules of the cell record, and what it makes Create answer: those of its form look at its bytes,
// the others at its values.
#![tactic(auto)]

ghost use Rattle.std.specs.Prelude.{◌≡◌, not, ◌&&◌, ◌||◌};
ghost use Rattle.base.specs.Codes.{code_of};
ghost use Rattle.base.specs.Lists.{all, any};
ghost use Rattle.regions.specs.Regions.{loadable, shared, inside_phys};
ghost use Rattle.system_record.specs.SystemRecord.{boot_regions};
ghost use Rattle.cell_record.specs.CellRecord.{cell_of, version_ok, limit_ok, cell_form, region_rules, cell_region_ok, cell_valid, cell_answer, read_cell};

use base::Errno;
use cell_record::{CellConfig, CellRead};
use region_table::MAX_REGIONS;
use regions::MemRegion;
use system_record::SystemConfig;

// The longest cell record, in bytes.
pub const MAX_LENGTH: usize = 56 + 32 * MAX_REGIONS;

// Whether the record's version is one that is read.
#[tactic(auto, unfolding(cell_record::specs::CellRecord::version_ok))]
fn version_ok(s: &[u8]) -> bool
    ensures { result ≡ version_ok s.now }
{
    let version = fields::u16_at(s, 4);
    version == 1 || version == 2
}

// Whether the reply limit's bytes are zero where the version has none.
#[tactic(auto, unfolding(cell_record::specs::CellRecord::limit_ok))]
fn limit_ok(s: &[u8]) -> bool
    ensures { result ≡ limit_ok s.now }
{
    fields::u16_at(s, 4) == 2 || fields::is_zero(fields::part(s, 50, 2))
}

// Whether the record has the form of a cell record.
#[tactic(auto, unfolding(cell_record::specs::CellRecord::cell_form))]
pub fn cell_form(s: &[u8]) -> bool
    ensures { result ≡ cell_form s.now }
{
    let n = fields::u16_at(s, 48) as usize;
    fields::has_mark(s, b"TSC")
        && fields::is_zero(fields::part(s, 3, 1))
        && version_ok(s)
        && fields::u16_at(s, 6) < 2
        && n <= MAX_REGIONS
        && limit_ok(s)
        && fields::is_zero(fields::part(s, 52, 4))
        && s.len() == 56 + 32 * n
}

// Whether a cell's region lies in a single boot region, where it is loadable or shared.
fn is_backed(boot: &SystemConfig, r: MemRegion) -> bool
    ensures { result ≡ (not (loadable r || shared r) || any (inside_phys r) (boot_regions boot.now)) }
{
    !(regions::is_loadable(r) || regions::is_shared(r))
        || region_table::inside_one(r, boot.regions())
}

// Whether a cell's region keeps the rules of its place and its flags in the booted system.
fn region_rules(boot: &SystemConfig, r: MemRegion) -> bool
    ensures { result ≡ region_rules boot.now r }
{
    let hypervisor = boot.hypervisor;
    regions::is_placed(r)
        && regions::flags_ok(r)
        && regions::comm_ok(r)
        && regions::clear_of(hypervisor.start, hypervisor.size, r)
        && is_backed(boot, r)
}

// Whether a cell's region keeps its rules in the booted system.
#[tactic(auto, unfolding(cell_record::specs::CellRecord::cell_region_ok))]
pub fn cell_region_ok(boot: &SystemConfig, r: MemRegion) -> bool
    ensures { result ≡ cell_region_ok boot.now r }
{
    region_rules(boot, r) && !regions::is_shared_and_executable(r)
}

// Whether each of the regions keeps a cell region's rules.
fn regions_ok(boot: &SystemConfig, regions: &[MemRegion]) -> bool
    ensures { result ≡ all (cell_region_ok boot.now) regions.now }
{
    regions.iter().all(|r| cell_region_ok(boot, *r))
}

// Whether a record's values keep every rule on them in the booted system.
#[tactic(auto, unfolding(cell_record::specs::CellRecord::cell_valid))]
pub fn cell_valid(boot: &SystemConfig, c: &CellConfig) -> bool
    ensures { result ≡ cell_valid boot.now c.now }
{
    let regions = c.regions();
    fields::is_name(&c.name)
        && !cpu_set::is_empty(c.cpus)
        && regions_ok(boot, regions)
        && region_table::all_apart(regions)
        && (region_table::has_comm(regions) || c.passive)
}

// Whether the record has its form and keeps every rule in the booted system.
pub fn is_valid(boot: &SystemConfig, s: &[u8]) -> bool
    ensures { result ≡ (cell_form s.now && cell_valid boot.now (cell_of s.now)) }
{
    cell_form(s) && cell_valid(boot, &cell_record::cell_of(s))
}

// Whether the record, whose values are `c`, has its form and keeps every rule in the booted system.
fn has_valid(boot: &SystemConfig, s: &[u8], c: &CellConfig) -> bool
    requires { c.now ≡ cell_of s.now }
    ensures { result ≡ (cell_form s.now && cell_valid boot.now (cell_of s.now)) }
{
    let has_form = cell_form(s);
    has_form && cell_valid(boot, c)
}

// What the record itself, whose values are `c`, makes Create answer.
#[tactic(auto, using(base::proofs::Tests::told, crate::proofs::Laws::answer_long, crate::proofs::Laws::answer_invalid, crate::proofs::Laws::answer_accepted))]
fn cell_answer(boot: &SystemConfig, s: &[u8], c: &CellConfig) -> Result<(), Errno>
    requires { c.now ≡ cell_of s.now }
    ensures { code_of result ≡ cell_answer boot.now s.now }
{
    if MAX_LENGTH < s.len() {
        return Err(Errno::TooBig);
    }
    if !has_valid(boot, s, c) {
        return Err(Errno::Invalid);
    }
    Ok(())
}

// Reads a cell record in the booted system: the answer that it gives, 0 where it keeps every rule,
// and the values as they stand.
#[tactic(auto, unfolding(cell_record::specs::CellRecord::read_cell))]
pub fn read_cell(boot: &SystemConfig, s: &[u8]) -> CellRead
    ensures { result ≡ read_cell boot.now s.now }
{
    let config = cell_record::cell_of(s);
    let code = base::code_of(cell_answer(boot, s, &config));
    CellRead { code, config }
}
