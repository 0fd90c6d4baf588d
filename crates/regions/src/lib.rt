// Memory regions: reading one from its 32 bytes, and the rules on one and on two. A range is its start
// and its size, two numbers, as in the definitions and the claims about pages.
#![tactic(auto)]

ghost use Rattle.std.specs.Prelude.{◌≡◌, ◌+◌, ◌^◌, leb, ◌<◌};
ghost use Rattle.regions.specs.Regions.{region_of, flag as is_set, write_flag, whole_pages, placed, readable, executable, comm, loadable, shared, shared_and_executable, flags_ok, comm_ok};
ghost use Rattle.regions.specs.Regions.{overlap as overlap_of, inside as inside_of, apart as apart_of, clear_of, inside_phys};

// The flags of a region, by their values, and those of a communication region, read, write and comm.
pub const MEM_READ: u64 = 1;

pub const MEM_WRITE: u64 = 2;

pub const MEM_EXECUTE: u64 = 4;

pub const MEM_COMM_REGION: u64 = 8;

pub const MEM_LOADABLE: u64 = 16;

pub const MEM_SHARED: u64 = 32;

pub const COMM_REGION_FLAGS: u64 = 11;

pub const PAGE_SIZE: u64 = 4096;

// A memory region of the root cell or of a cell: `size` bytes of physical memory from `phys`, seen
// by the cell from `virt` on.
#[derive(Clone, Copy, Default, PartialEq, Eq)]
pub struct MemRegion {
    pub phys: u64,
    pub virt: u64,
    pub size: u64,
    pub flags: u64,
}

// The region in the first 32 bytes.
#[tactic(auto, unfolding(crate::specs::Regions::region_of))]
pub fn region_of(s: &[u8]) -> MemRegion
    ensures { result ≡ region_of s.now }
{
    MemRegion {
        phys: fields::u64_at(s, 0),
        virt: fields::u64_at(s, 8),
        size: fields::u64_at(s, 16),
        flags: fields::u64_at(s, 24),
    }
}

// Whether a range ends at or before 2^48.
fn ends_by_limit(start: u64, size: u64) -> bool
    ensures { result ≡ leb (start + size) (2 ^ 48) }
{
    start
        .checked_add(size)
        .is_some_and(|end| end <= 0x1_0000_0000_0000)
}

// Whether a range is whole pages, at least one, and ends by 2^48.
#[tactic(auto, unfolding(crate::specs::Regions::whole_pages))]
pub fn whole_pages(start: u64, size: u64) -> bool
    ensures { result ≡ whole_pages start size }
{
    start % PAGE_SIZE == 0
        && size % PAGE_SIZE == 0
        && PAGE_SIZE <= size
        && ends_by_limit(start, size)
}

// Whether both sides of a region are whole pages, at least one, and end by 2^48.
#[tactic(auto, unfolding(crate::specs::Regions::placed))]
pub fn is_placed(r: MemRegion) -> bool
    ensures { result ≡ placed r }
{
    whole_pages(r.phys, r.size) && whole_pages(r.virt, r.size)
}

// Whether the region's flag of this value is set.
fn has_flag(r: MemRegion, flag: u64) -> bool
    requires { 0 < flag }
    ensures { result ≡ is_set flag r }
{
    r.flags / flag % 2 == 1
}

// Whether its cell may read what stands in it.
pub fn is_readable(r: MemRegion) -> bool
    ensures { result ≡ readable r }
{
    has_flag(r, MEM_READ)
}

// Whether its cell may write there.
pub fn is_writable(r: MemRegion) -> bool
    ensures { result ≡ is_set write_flag r }
{
    has_flag(r, MEM_WRITE)
}

// Whether its cell may run what stands in it.
pub fn is_executable(r: MemRegion) -> bool
    ensures { result ≡ executable r }
{
    has_flag(r, MEM_EXECUTE)
}

// Whether it is a communication region.
pub fn is_comm(r: MemRegion) -> bool
    ensures { result ≡ comm r }
{
    has_flag(r, MEM_COMM_REGION)
}

// Whether the root cell may load it while its cell is in loading.
pub fn is_loadable(r: MemRegion) -> bool
    ensures { result ≡ loadable r }
{
    has_flag(r, MEM_LOADABLE)
}

// Whether several cells may have it.
pub fn is_shared(r: MemRegion) -> bool
    ensures { result ≡ shared r }
{
    has_flag(r, MEM_SHARED)
}

// Whether several cells may have it and its cell may run what stands in it.
pub fn is_shared_and_executable(r: MemRegion) -> bool
    ensures { result ≡ shared_and_executable r }
{
    is_shared(r) && is_executable(r)
}

// Whether the flags are allowed together.
#[tactic(auto, unfolding(crate::specs::Regions::flags_ok))]
pub fn flags_ok(r: MemRegion) -> bool
    ensures { result ≡ flags_ok r }
{
    r.flags < 64 && is_readable(r) && !(is_loadable(r) && is_shared(r))
}

// Whether a communication region has the only form allowed.
#[tactic(auto, unfolding(crate::specs::Regions::comm_ok))]
pub fn comm_ok(r: MemRegion) -> bool
    ensures { result ≡ comm_ok r }
{
    !is_comm(r) || r.flags == COMM_REGION_FLAGS && r.phys == 0 && r.size == PAGE_SIZE
}

// Whether two ranges have a common byte. No sum can wrap.
#[tactic(auto, unfolding(crate::specs::Regions::overlap))]
pub fn overlap(a: u64, n: u64, b: u64, m: u64) -> bool
    ensures { result ≡ overlap_of a n b m }
{
    if a <= b {
        b - a < n && 0 < m
    } else {
        a - b < m && 0 < n
    }
}

// Whether the first range lies inside the second. No sum can wrap.
#[tactic(auto, unfolding(crate::specs::Regions::inside))]
pub fn inside(a: u64, n: u64, b: u64, m: u64) -> bool
    ensures { result ≡ inside_of a n b m }
{
    b <= a && n <= m && a - b <= m - n
}

// Whether two regions may stand in one record.
#[tactic(auto, unfolding(crate::specs::Regions::apart, crate::specs::Regions::overlap_virt, crate::specs::Regions::overlap_phys))]
pub fn apart(r: MemRegion, s: MemRegion) -> bool
    ensures { result ≡ apart_of r s }
{
    !overlap(r.virt, r.size, s.virt, s.size)
        && (is_comm(r) || is_comm(s) || !overlap(r.phys, r.size, s.phys, s.size))
        && !(is_comm(r) && is_comm(s))
}

// Whether a region keeps off hypervisor memory.
#[tactic(auto, unfolding(crate::specs::Regions::clear_of))]
pub fn clear_of(start: u64, size: u64, r: MemRegion) -> bool
    ensures { result ≡ clear_of start size r }
{
    is_comm(r) || !overlap(r.phys, r.size, start, size)
}

// Whether a region lies physically inside another.
#[tactic(auto, unfolding(crate::specs::Regions::inside_phys))]
pub fn inside_phys(r: MemRegion, b: MemRegion) -> bool
    ensures { result ≡ inside_phys r b }
{
    inside(r.phys, r.size, b.phys, b.size)
}
