// What the claims read of machines.
use machine_state::{Cell, Cpu, Machine, Phase};
use regions::MemRegion;

// Whether two machines are the same in all but the exit counters.
pub(crate) fn same_but_counters(a: &Machine, b: &Machine) -> bool {
    let mut cpus = a.cpus.iter().zip(b.cpus.iter());
    cpus.all(|(p, q)| same_cpu_but_counters(p, q)) && Machine { cpus: b.cpus, ..*a } == *b
}

fn same_cpu_but_counters(a: &Cpu, b: &Cpu) -> bool {
    Cpu {
        counters: b.counters,
        ..*a
    } == *b
}

// Whether a set of CPUs, or of IDs, has a number.
fn has(set: u64, k: usize) -> bool {
    (k < 64) && ((set >> k) % 2 == 1)
}

fn is_live(m: &Machine, id: usize) -> bool {
    has(m.live_ids as u64, id)
}

// The CPUs of a live cell, and of root those that it has now.
fn set_of(m: &Machine, id: usize, c: &Cell) -> u64 {
    if id == 0 {
        m.root_cpus
    } else if is_live(m, id) {
        c.cpus
    } else {
        0
    }
}

// Whether a cell has the CPUs of a set.
fn owns(m: &Machine, set: u64, id: usize) -> bool {
    let mut cpus = m.cpus.iter().enumerate();
    cpus.all(|(k, cpu)| !has(set, k) | (cpu.cell == id))
}

// Whether each started CPU is of one set, and has that set's cell as its owner.
pub(crate) fn have_one_owner(m: &Machine) -> bool {
    let mut left = m.system.cpus;
    for (id, cell) in m.cells.iter().enumerate() {
        let set = m.system.cpus & set_of(m, id, cell);
        if (left & set != set) | !owns(m, set, id) {
            return false;
        }
        left ^= set;
    }
    left == 0
}

// Whether the pool pages in use are boot's figure and those of the live cells: 2 and one for each
// region.
pub(crate) fn pool_is_sum(m: &Machine) -> bool {
    let mut sum = m.system.pool.used as usize;
    for (id, cell) in m.cells.iter().enumerate().skip(1) {
        if is_live(m, id) {
            sum = sum.saturating_add(cell.region_count).saturating_add(2);
        }
    }
    m.pool_used as usize == sum
}

// Whether a region that is not a communication region has a page.
fn touches(r: &MemRegion, page: u64) -> bool {
    let start = r.phys / 4096;
    (start <= page) && (page - start < r.size / 4096) && !regions::is_comm(*r)
}

fn regions_of(c: &Cell) -> &[MemRegion] {
    region_table::in_use(&c.regions, c.region_count)
}

// How many live cells but root have a page.
pub(crate) fn cells_that_touch(m: &Machine, page: u64) -> usize {
    let cells = m.cells.iter().enumerate().skip(1);
    cells
        .filter(|(id, cell)| is_live(m, *id) && regions_of(cell).iter().any(|r| touches(r, page)))
        .count()
}

// Whether a live cell but root has a page that is being loaded.
pub(crate) fn is_loaded(m: &Machine, page: u64) -> bool {
    let mut cells = m.cells.iter().enumerate().skip(1);
    cells.any(|(id, cell)| is_live(m, id) && loads(cell, page))
}

// Whether a cell is in loading, and has a page that is loadable.
fn loads(c: &Cell, page: u64) -> bool {
    let mut regions = regions_of(c).iter();
    matches!(c.phase, Phase::Loading)
        && regions.any(|r| touches(r, page) & regions::is_loadable(*r))
}

// Whether a call waits.
pub(crate) fn waits(m: &Machine) -> bool {
    m.waiting.is_some()
}
