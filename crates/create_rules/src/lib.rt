// When Create is refused: a locked configuration, a bad record, names, CPUs and memory that others
// have, no room. Each test looks at the parts of the machine that its rule names, and at the new
// cell's record in its bytes; the live cells are looked at (`live_cells`) once the record is valid.
#![tactic(auto)]

ghost use Rattle.std.specs.Prelude.{◌≡◌, ℕ, ◌+◌, ltb, Ok};
ghost use Rattle.base.specs.Codes.{code_of};
ghost use Rattle.cell_record.specs.CellRecord.{cell_of};
ghost use Rattle.rules.specs.Create.{free_id};
ghost use Rattle.rules.specs.Effects.{pool_cost};
ghost use Rattle.create_rules.specs.Rows.{use_code, new_id, code_of_id, create_code};

use base::Errno;
use machine_state::{CELL_CREATE, Event, Machine};

// Refuses where the record's name, or a CPU or a region that it wants, is in use.
fn in_use(m: &Machine, caller: u64, record: &[u8]) -> Result<(), Errno>
    ensures { code_of result ≡ use_code caller «record».now m.now }
{
    let name = cell_record::name(record);
    let asks = Event::Call(caller, CELL_CREATE, 0, 0);
    let found = live_cells::look_through(asks, m.live_ids, &m.cells, record);
    if fields::same_name(m.system.name, name) | found.named {
        return Err(Errno::Exists);
    }
    let cpus = fields::u64_at(record, 40);
    if cpu_set::contains(cpus, caller) | !cpu_set::is_subset(cpus, m.root_cpus) | found.held {
        return Err(Errno::Busy);
    }
    Ok(())
}

// Whether a pool of `pages` has no room for one more cell of `count` regions.
fn lacks_pages(pages: u32, pool_used: u32, count: usize) -> bool
    ensures { result ≡ ltb pages (pool_used + pool_cost count) }
{
    let least = pool_used as usize + 2;
    if (pages as usize) < least {
        return true;
    }
    pages as usize - least < count
}

// The new cell's ID, where one is free and the pool has room for the record's cell.
fn new_id(m: &Machine, record: &[u8]) -> Option<usize>
    ensures { result ≡ new_id (cell_of «record».now) m.now }
{
    let count = fields::u16_at(record, 48) as usize;
    if lacks_pages(m.system.pool.pages, m.pool_used, count) {
        return None;
    }
    id_set::free_id(m.live_ids)
}

// Refuses a Create, or lets it through with the new cell's ID: its rules in their order.
pub fn refusal(m: &Machine, caller: u64, record: &[u8]) -> Result<usize, Errno>
    ensures code { code_of_id result ≡ create_code caller «record».now m.now }
    ensures id { (id : ℕ) → result ≡ Ok id → id ≡ free_id m.now }
{
    let locked = comms::is_locked_but(comms::cell_sets(m).locked, 0);
    if locked {
        return Err(Errno::NotPermitted);
    }
    if cell_rules::MAX_LENGTH < record.len() {
        return Err(Errno::TooBig);
    }
    let cpus = fields::u64_at(record, 40);
    if !cell_rules::is_valid(&m.system, record) || !cpu_set::is_subset(cpus, m.system.cpus) {
        return Err(Errno::Invalid);
    }
    in_use(m, caller, record)?;
    new_id(m, record).ok_or(Errno::NoMemory)
}
