// The system record: its values, its rules, and boot's answer.
#![tactic(auto)]

ghost use Rattle.std.specs.Prelude.{◌≡◌, ◌&&◌, ◌||◌};
ghost use Rattle.base.specs.Codes.{code_of};
ghost use Rattle.base.specs.Lists.{all};
ghost use Rattle.system_record.specs.SystemRecord.{system_of, system_form, boot_regions, boot_region_ok, system_valid, out_of_range, overdrawn, too_many, boot_answer, read_system};

use base::Errno;
use region_table::MAX_BOOT_REGIONS;
use regions::MemRegion;

// A range of physical memory.
#[derive(Clone, Copy, PartialEq, Eq)]
pub struct Range {
    pub start: u64,
    pub size: u64,
}

// A pool of hypervisor pages: how many there are, and how many are used.
#[derive(Clone, Copy, PartialEq, Eq)]
pub struct Pool {
    pub pages: u32,
    pub used: u32,
}

// The values of a system record. Its regions are a table with a count, as document 01's rules and the
// claims read them (`boot_regions`), in fixed memory.
#[derive(Clone, Copy, PartialEq, Eq)]
pub struct SystemConfig {
    pub name: [u8; 32],
    pub cpus: u64,
    pub possible: u16,
    pub hypervisor: Range,
    pub pool: Pool,
    pub remap: Pool,
    pub timer: u16,
    pub region_count: usize,
    pub regions: [MemRegion; MAX_BOOT_REGIONS],
}

impl SystemConfig {
    // Its regions: those that the count names.
    pub fn regions(&self) -> &[MemRegion]
        ensures { result.now ≡ boot_regions self.now }
    {
        region_table::in_use(&self.regions, self.region_count)
    }
}

// Boot's answer, and the values as they stand in the record, whatever it is. `code` is the number that
// document 01 fixes. One pair with its names, as the definition has it (`read_system`).
#[derive(Clone, Copy)]
pub struct SystemRead {
    pub code: i32,
    pub config: SystemConfig,
}

// The values of a record, whatever its bytes.
#[tactic(auto, unfolding(crate::specs::SystemRecord::system_of))]
pub fn system_of(s: &[u8]) -> SystemConfig
    ensures { result ≡ system_of s.now }
{
    let count = fields::u16_at(s, 6);
    SystemConfig {
        name: fields::name_of(fields::part(s, 8, 32)),
        cpus: fields::u64_at(s, 40),
        possible: fields::u16_at(s, 48),
        hypervisor: Range {
            start: fields::u64_at(s, 56),
            size: fields::u64_at(s, 64),
        },
        pool: Pool {
            pages: fields::u32_at(s, 72),
            used: fields::u32_at(s, 76),
        },
        remap: Pool {
            pages: fields::u32_at(s, 80),
            used: fields::u32_at(s, 84),
        },
        timer: fields::u16_at(s, 88),
        region_count: count as usize,
        regions: region_table::table_of(s, 96, count),
    }
}

// Whether the record has the form of a system record.
#[tactic(auto, unfolding(crate::specs::SystemRecord::system_form))]
fn system_form(s: &[u8]) -> bool
    ensures { result ≡ system_form s.now }
{
    let n = fields::u16_at(s, 6) as usize;
    fields::has_mark(s, b"TSS")
        && fields::is_zero(fields::part(s, 3, 1))
        && fields::u16_at(s, 4) == 1
        && 1 <= n
        && n <= MAX_BOOT_REGIONS
        && fields::is_zero(fields::part(s, 50, 6))
        && fields::is_zero(fields::part(s, 90, 6))
        && s.len() == 96 + 32 * n
}

// Whether a boot region keeps its rules beside the given hypervisor memory.
#[tactic(auto, unfolding(crate::specs::SystemRecord::boot_region_ok))]
pub fn boot_region_ok(hypervisor: Range, r: MemRegion) -> bool
    ensures { result ≡ boot_region_ok hypervisor.start hypervisor.size r }
{
    regions::is_placed(r)
        && regions::flags_ok(r)
        && r.flags < 8
        && regions::clear_of(hypervisor.start, hypervisor.size, r)
}

// Whether each of the regions keeps a boot region's rules beside the given hypervisor memory.
fn boot_regions_ok(hypervisor: Range, regions: &[MemRegion]) -> bool
    ensures { result ≡ all (boot_region_ok hypervisor.start hypervisor.size) regions.now }
{
    regions.iter().all(|r| boot_region_ok(hypervisor, *r))
}

// Whether the values keep every rule that answers -22.
#[tactic(auto, unfolding(crate::specs::SystemRecord::system_valid))]
pub fn system_valid(c: &SystemConfig) -> bool
    ensures { result ≡ system_valid c.now }
{
    let hypervisor = c.hypervisor;
    let regions = c.regions();
    fields::is_name(&c.name)
        && regions::whole_pages(hypervisor.start, hypervisor.size)
        && boot_regions_ok(hypervisor, regions)
        && region_table::all_apart(regions)
}

// Whether a pool number is past 2^31 - 1.
fn too_many(pool: Pool) -> bool
    ensures { result ≡ (too_many pool.pages || too_many pool.used) }
{
    0x7fff_ffff < pool.pages || 0x7fff_ffff < pool.used
}

// Whether a CPU or pool number is out of the supported range.
#[tactic(auto, unfolding(crate::specs::SystemRecord::out_of_range))]
pub fn out_of_range(c: &SystemConfig) -> bool
    ensures { result ≡ out_of_range c.now }
{
    !(1 <= c.possible && c.possible <= 64)
        || cpu_set::is_empty(c.cpus)
        || !cpu_set::is_below(c.cpus, c.possible as u64)
        || too_many(c.pool)
        || too_many(c.remap)
}

// Whether a pool has more pages used than it has.
#[tactic(auto, unfolding(crate::specs::SystemRecord::overdrawn))]
pub fn is_overdrawn(c: &SystemConfig) -> bool
    ensures { result ≡ overdrawn c.now }
{
    c.pool.pages < c.pool.used || c.remap.pages < c.remap.used
}

// Whether the record has its form and its values keep every rule that answers -22.
fn is_valid(s: &[u8], c: &SystemConfig) -> bool
    ensures { result ≡ (system_form s.now && system_valid c.now) }
{
    system_form(s) && system_valid(c)
}

// Boot's answer to a record that holds these values.
#[tactic(auto, using(base::proofs::Tests::told, crate::proofs::Laws::answer_invalid, crate::proofs::Laws::answer_range, crate::proofs::Laws::answer_overdrawn, crate::proofs::Laws::answer_accepted))]
fn boot_answer(s: &[u8], c: &SystemConfig) -> Result<(), Errno>
    requires { c.now ≡ system_of s.now }
    ensures { code_of result ≡ boot_answer s.now }
{
    if !is_valid(s, c) {
        return Err(Errno::Invalid);
    }
    if out_of_range(c) {
        return Err(Errno::OutOfRange);
    }
    if is_overdrawn(c) {
        return Err(Errno::NoMemory);
    }
    Ok(())
}

// Reads a system record: boot's answer, 0 for an accepted start, and the values as they stand.
#[tactic(auto, unfolding(crate::specs::SystemRecord::read_system))]
pub fn read_system(s: &[u8]) -> SystemRead
    ensures { result ≡ read_system s.now }
{
    let config = system_of(s);
    let code = base::code_of(boot_answer(s, &config));
    SystemRead { code, config }
}
