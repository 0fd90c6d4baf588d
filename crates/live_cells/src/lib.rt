// What a look at the live cells finds for a Create: whether one has the record's name, and whether one
// has a region in conflict with the record's. A look takes one cell at a time.
#![tactic(auto)]

ghost use Rattle.std.specs.Prelude.{◌≡◌, true, take};
ghost use Rattle.base.specs.Lists.{any, same};
ghost use Rattle.cell_record.specs.CellRecord.{cell_of, cell_regions};
ghost use Rattle.machine_state.specs.declared.Machine.{Machine};
ghost use Rattle.rules.specs.Create.{conflict as conflict_of, conflicts as conflicts_of};
ghost use Rattle.live_cells.specs.Looks.{nothing_found, looked_at, found_live, asks_create, to_look_at};

use machine_state::{CELL_CREATE, Cell, Event, MAX_CELLS};
use regions::MemRegion;

// Whether two regions of different cells may not both be: they meet, and are not both shared.
#[tactic(auto, unfolding(rules::specs::Create::conflict, regions::specs::Regions::overlap_phys))]
fn conflict(r: MemRegion, s: MemRegion) -> bool
    ensures { result ≡ conflict_of r s }
{
    !regions::is_comm(r)
        & !regions::is_comm(s)
        & regions::overlap(r.phys, r.size, s.phys, s.size)
        & !(regions::is_shared(r) & regions::is_shared(s))
}

// Whether one of the regions is in conflict with a region.
fn conflicts_one(regions: &[MemRegion], s: MemRegion) -> bool
    ensures { result ≡ any (λ r. conflict_of r s) regions.now }
{
    regions.iter().any(|r| conflict(*r, s))
}

// Whether some region of a cell is in conflict with one of the record's, each of which is read once.
pub fn meets(c: &Cell, record: &[u8]) -> bool
    ensures { result ≡ conflicts_of (take c.now.region_count c.now.regions) (cell_regions (cell_of «record».now)) }
{
    let regions = c.regions();
    (0..cell_record::region_count(record)).any(|i| conflicts_one(
        regions,
        cell_record::region(record, i),
    ))
}

// Whether a cell has the record's name.
pub fn has_name(c: &Cell, record: &[u8]) -> bool
    ensures { result ≡ same c.now.name (cell_of «record».now).name }
{
    fields::same_name(c.name, cell_record::name(record))
}

// What a look at live cells finds: whether one has the record's name, and whether one has a region in
// conflict with the record's.
#[derive(Clone, Copy, PartialEq, Eq)]
pub struct Found {
    pub named: bool,
    pub held: bool,
}

// Before any look.
#[tactic(auto, unfolding(crate::specs::Looks::nothing_found))]
pub fn nothing_found() -> Found
    ensures { result ≡ nothing_found }
{
    Found {
        named: false,
        held: false,
    }
}

// What is found once cell `c` is looked at, too.
#[tactic(auto, unfolding(crate::specs::Looks::together, crate::specs::Looks::looked_at))]
pub fn look(found: Found, c: &Cell, record: &[u8]) -> Found
    ensures { result ≡ looked_at found c.now «record».now }
{
    Found {
        named: found.named || has_name(c, record),
        held: found.held || meets(c, record),
    }
}

// Whether an event is a call of Create.
#[tactic(auto, unfolding(crate::specs::Looks::asks_create))]
pub fn asks_create(e: Event) -> bool
    ensures { result ≡ asks_create e }
{
    matches!(e, Event::Call(_, CELL_CREATE, _, _))
}

// The IDs of the cells to look at for an event: for a Create the live ones but root.
#[tactic(auto, unfolding(crate::specs::Looks::to_look_at))]
pub fn to_look_at(e: Event, live_ids: u16) -> u16
    ensures { result ≡ to_look_at e live_ids }
{
    if asks_create(e) {
        id_set::drop_id(live_ids, 0)
    } else {
        0
    }
}

// What a look at every live cell but root finds, where an event is a Create.
pub fn look_through(e: Event, live_ids: u16, cells: &[Cell; MAX_CELLS], record: &[u8]) -> Found
    ensures { (m : Machine) → m.live_ids ≡ live_ids → m.cells ≡ cells.now → asks_create e ≡ true → result ≡ found_live «record».now m }
{
    let mut found = nothing_found();
    let mut left = to_look_at(e, live_ids);
    // By the lowest member that is left: a set of IDs has no iterator.
    while let Some(id) = id_set::lowest(left) {
        found = look(found, &cells[id], record);
        left = id_set::drop_id(left, id);
    }
    found
}
