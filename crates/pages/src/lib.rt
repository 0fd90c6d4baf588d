// The questions about physical pages: who owns one, and who may touch it.
#![tactic(auto)]

ghost use Rattle.std.specs.Prelude.{◌≡◌, Bool, ◌&&◌, ◌<◌};
ghost use Rattle.base.specs.Lists.{any};
ghost use Rattle.regions.specs.declared.MemRegion.{MemRegion as Region};
ghost use Rattle.rules.specs.State.{cell_ids, first, live, regions_at, some_id};
ghost use Rattle.rules.specs.Pages.{has_page, has_phys, has_booted, hypervisor_has, owns, shares, loads, boot_has, owner_of, is_loading, open_to_root};
ghost use Rattle.rules.specs.Pages.{root_may_touch, cell_may_touch, may_touch};

use machine_state::{MAX_CELLS, Machine, Owner, Phase, PhysPage, Power};
use regions::MemRegion;

// Whether a range of bytes has page `n`; none has one from 2^36 up.
pub fn has_page(start: u64, size: u64, n: u64) -> bool
    ensures { result ≡ has_page start size n }
{
    if n >= 0x10_0000_0000 {
        return false;
    }
    let at = 4096 * n;
    if at < start {
        return false;
    }
    at - start < size
}

// Whether a region has a physical page.
#[tactic(auto, unfolding(rules::specs::Pages::has_phys))]
fn has_phys(r: MemRegion, page: PhysPage) -> bool
    ensures { result ≡ has_phys page r }
{
    has_page(r.phys, r.size, page.0)
}

// Whether the machine was booted; it stays so when it is disabled.
pub fn has_booted(power: Power) -> bool
    ensures { result ≡ has_booted power }
{
    power != Power::Unbooted
}

// Whether a live cell has a region that passes a test.
fn has_region<F: Fn(MemRegion) -> bool>(m: &Machine, id: usize, test: F) -> bool
    requires { F.IsAlwaysCallable test }
    ensures { (passes : Region → Bool) → ((r : Region) (b : Bool) → F.post test r b → b ≡ passes r)
        → result ≡ (live m.now id && any passes (regions_at m.now id)) }
{
    if !id_set::is_live(m.live_ids, id as u64) {
        return false;
    }
    m.cells[id].regions().iter().any(|r| test(*r))
}

// Whether a live cell has a page in a region that is neither shared nor comm.
fn owns(m: &Machine, id: usize, page: PhysPage) -> bool
    ensures { result ≡ owns page m.now id }
{
    has_region(
        m,
        id,
        |r| has_phys(r, page) & !regions::is_shared(r) & !regions::is_comm(r),
    )
}

// Whether a live cell has a page in a shared region.
fn shares(m: &Machine, id: usize, page: PhysPage) -> bool
    ensures { result ≡ shares page m.now id }
{
    has_region(m, id, |r| has_phys(r, page) & regions::is_shared(r))
}

// Whether a cell is in loading.
fn is_loading(phase: Phase) -> bool
    ensures { result ≡ is_loading phase }
{
    phase == Phase::Loading
}

// Whether a page may be loaded for a live cell: the cell is in loading, and has it in a loadable
// region.
fn loads(m: &Machine, id: usize, page: PhysPage) -> bool
    requires { id < 16 }
    ensures { result ≡ loads page m.now id }
{
    is_loading(m.cells[id].phase)
        && has_region(m, id, |r| has_phys(r, page) & regions::is_loadable(r))
}

// Whether hypervisor memory has a page.
#[tactic(auto, unfolding(rules::specs::Pages::hypervisor_has))]
fn hypervisor_has(m: &Machine, page: PhysPage) -> bool
    ensures { result ≡ hypervisor_has page m.now }
{
    let memory = m.system.hypervisor;
    has_page(memory.start, memory.size, page.0)
}

// Whether a boot region has a page.
#[tactic(auto, unfolding(rules::specs::Pages::boot_has))]
fn boot_has(m: &Machine, page: PhysPage) -> bool
    ensures { result ≡ boot_has page m.now }
{
    m.system.regions().iter().any(|r| has_phys(*r, page))
}

// The cell that owns a page.
fn owner(m: &Machine, page: PhysPage) -> Option<usize>
    ensures { result ≡ some_id (first (owns page m.now) cell_ids) }
{
    (1..MAX_CELLS).find(|&id| owns(m, id, page))
}

// Whether a live cell's shared region has a page.
fn some_shares(m: &Machine, page: PhysPage) -> bool
    ensures { result ≡ any (shares page m.now) cell_ids }
{
    (1..MAX_CELLS).any(|id| shares(m, id, page))
}

// Whether a page may be loaded for some cell.
fn some_loads(m: &Machine, page: PhysPage) -> bool
    ensures { result ≡ any (loads page m.now) cell_ids }
{
    (1..MAX_CELLS).any(|id| loads(m, id, page))
}

// Whether root may touch the boot pages of this owner, whatever is loaded.
fn open_to_root(owner: Owner) -> bool
    ensures { result ≡ open_to_root owner }
{
    matches!(owner, Owner::Shared | Owner::Root)
}

// Who owns a physical page.
pub fn owner_of(m: &Machine, page: PhysPage) -> Owner
    ensures { result ≡ owner_of page m.now }
{
    if !has_booted(m.power) {
        return Owner::Nobody;
    }
    if hypervisor_has(m, page) {
        return Owner::Hypervisor;
    }
    if let Some(id) = owner(m, page) {
        return Owner::Cell(id);
    }
    if some_shares(m, page) {
        return Owner::Shared;
    }
    if boot_has(m, page) {
        return Owner::Root;
    }
    Owner::Nobody
}

// Whether root may touch a physical page.
pub fn root_may_touch(m: &Machine, page: PhysPage) -> bool
    ensures { result ≡ root_may_touch page m.now }
{
    (has_booted(m.power) & boot_has(m, page))
        && (open_to_root(owner_of(m, page)) || some_loads(m, page))
}

// Whether a cell other than root may touch a physical page.
fn cell_may_touch(m: &Machine, id: u64, page: PhysPage) -> bool
    ensures { result ≡ cell_may_touch page m.now id }
{
    has_booted(m.power) && has_region(m, id as usize, |r| has_phys(r, page) & !regions::is_comm(r))
}

// Whether a cell may touch a physical page.
#[tactic(auto, unfolding(rules::specs::Pages::may_touch))]
pub fn may_touch(m: &Machine, id: u64, page: PhysPage) -> bool
    ensures { result ≡ may_touch id page m.now }
{
    if id == 0 {
        root_may_touch(m, page)
    } else {
        cell_may_touch(m, id, page)
    }
}
