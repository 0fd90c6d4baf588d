// The question about cell pages: what a page is mapped to for a cell.
#![tactic(auto)]

ghost use Rattle.std.specs.Prelude.{◌≡◌};
ghost use Rattle.rules.specs.Pages.{has_virt, region_for, access_of, mapped_by, cell_mapping, if_touchable, root_mapping, mapping_of};

use machine_state::{Access, CellPage, Machine, Mapping, PhysPage};
use regions::MemRegion;

// Whether a region has a cell page.
#[tactic(auto, unfolding(rules::specs::Pages::has_virt))]
fn has_virt(r: MemRegion, page: CellPage) -> bool
    ensures { result ≡ has_virt page r }
{
    pages::has_page(r.virt, r.size, page.0)
}

// The first of the regions that has a cell page, or a region of no size, as the definition has it
// (`region_for`).
fn region_for(regions: &[MemRegion], page: CellPage) -> MemRegion
    ensures { result ≡ region_for page regions.now }
{
    match regions.iter().find(|r| has_virt(**r, page)) {
        Some(r) => *r,
        None => region_table::no_region(),
    }
}

// What a region lets its cell do.
#[tactic(auto, unfolding(rules::specs::Pages::access_of))]
fn access_of(r: MemRegion) -> Access
    ensures { result ≡ access_of r }
{
    Access {
        read: regions::is_readable(r),
        write: regions::is_writable(r),
        execute: regions::is_executable(r),
    }
}

// What a region makes of a cell page.
fn translate(r: MemRegion, page: CellPage) -> Mapping
    ensures { result ≡ mapped_by r page }
{
    if !has_virt(r, page) {
        return Mapping::Unmapped;
    }
    if regions::is_comm(r) {
        return Mapping::Comm;
    }
    Mapping::Page(
        PhysPage(r.phys / 4096 + (page.0 - r.virt / 4096)),
        access_of(r),
    )
}

// What a cell page is mapped to by the first of the regions that has it.
#[tactic(auto, unfolding(rules::specs::Pages::cell_mapping))]
fn table_mapping(regions: &[MemRegion], page: CellPage) -> Mapping
    ensures { result ≡ cell_mapping regions.now page }
{
    translate(region_for(regions, page), page)
}

// The same mapping, or nothing where root may not touch its page.
#[tactic(auto, unfolding(rules::specs::Pages::if_touchable))]
fn if_touchable(m: &Machine, mapping: Mapping) -> Mapping
    ensures { result ≡ if_touchable m.now mapping }
{
    match mapping {
        Mapping::Page(page, _) if pages::root_may_touch(m, page) => mapping,
        _ => Mapping::Unmapped,
    }
}

// What a cell page is mapped to for root.
#[tactic(auto, unfolding(rules::specs::Pages::root_mapping))]
fn root_mapping(m: &Machine, page: CellPage) -> Mapping
    ensures { result ≡ root_mapping page m.now }
{
    if_touchable(m, table_mapping(m.system.regions(), page))
}

// What a cell page is mapped to for a cell; nothing where there is no such cell.
pub fn mapping_of(m: &Machine, id: u64, page: CellPage) -> Mapping
    ensures { result ≡ mapping_of id page m.now }
{
    if !pages::has_booted(m.power) {
        return Mapping::Unmapped;
    }
    if id == 0 {
        return root_mapping(m, page);
    }
    if !id_set::is_live(m.live_ids, id) {
        return Mapping::Unmapped;
    }
    table_mapping(m.cells[id as usize].regions(), page)
}
