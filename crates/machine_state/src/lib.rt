// The machine: what the manager keeps between two events. Every value of these types is allowed, and so
// no field has an invariant (a CPU's cell, a waiting call's stage): the step is promised for every
// machine, and which ones a start can reach is a theorem and no precondition.
#![tactic(auto)]

ghost use Rattle.std.specs.Prelude.{◌≡◌, take};
ghost use Rattle.machine_state.specs.CallCodes.{DecodesCall};
ghost use Rattle.machine_state.specs.Machine.{fresh_cpu, no_comm, no_cell, first_machine, power_after, boot_of};

use region_table::MAX_REGIONS;
use regions::MemRegion;
use system_record::SystemConfig;

// How many cells there are, the root cell included, and how many CPUs.
pub const MAX_CELLS: usize = 16;

pub const MAX_CPUS: usize = 64;

// A CPU: the cell that owns it, its stopped and failed marks, and its exit counters: the total,
// MMIO, PIO, IPI, management, calls.
#[derive(Clone, Copy, PartialEq, Eq)]
pub struct Cpu {
    pub cell: usize,
    pub stopped: bool,
    pub failed: bool,
    pub counters: [u32; 6],
}

// The communication words of a cell: the message to it, its reply, its state; whether it has a
// communication region at all, whether it is passive, so that it is never messaged, and how many
// polls it may leave a message unanswered, 0 for any number, as C-14 and the definitions have it.
// The words are u32s, and no enums: a cell may store any number there.
#[derive(Clone, Copy, Default, PartialEq, Eq)]
pub struct CommRegion {
    pub mapped: bool,
    pub passive: bool,
    pub reply_limit: u16,
    pub msg_to_cell: u32,
    pub reply_from_cell: u32,
    pub cell_state: u32,
}

// The number of the state word, for a store.
pub const STATE_WORD: u64 = 2;

// What the state word says: running, running with the configuration locked, shut down, failed.
pub const RUNNING: u32 = 0;

pub const RUNNING_LOCKED: u32 = 1;

pub const SHUT_DOWN: u32 = 2;

pub const FAILED: u32 = 3;

// The messages to a cell, and the reply that consents to the first.
pub const SHUTDOWN_REQUEST: u32 = 1;

pub const RECONFIG_COMPLETED: u32 = 2;

pub const REQUEST_APPROVED: u32 = 3;

// The codes of the calls.
pub const HYPERVISOR_DISABLE: u32 = 0;

pub const CELL_CREATE: u32 = 1;

pub const CELL_START: u32 = 2;

pub const CELL_SET_LOADABLE: u32 = 3;

pub const CELL_DESTROY: u32 = 4;

pub const HYPERVISOR_GET_INFO: u32 = 5;

pub const CELL_GET_STATE: u32 = 6;

pub const CPU_GET_INFO: u32 = 7;

// What a call asks for, by Jailhouse's names.
#[derive(Clone, Copy, PartialEq, Eq)]
pub enum CallCode {
    HypervisorDisable,
    CellCreate,
    CellStart,
    CellSetLoadable,
    CellDestroy,
    HypervisorGetInfo,
    CellGetState,
    CpuGetInfo,
}

// A code that no call has.
#[derive(Clone, Copy, PartialEq, Eq)]
pub struct UnknownCall(pub u32);

impl TryFrom<u32> for CallCode {
    type Error = UnknownCall;

    ghost try_from_gives = { DecodesCall };

    fn try_from(code: u32) -> Result<Self, UnknownCall> {
        match code {
            HYPERVISOR_DISABLE => Ok(CallCode::HypervisorDisable),
            CELL_CREATE => Ok(CallCode::CellCreate),
            CELL_START => Ok(CallCode::CellStart),
            CELL_SET_LOADABLE => Ok(CallCode::CellSetLoadable),
            CELL_DESTROY => Ok(CallCode::CellDestroy),
            HYPERVISOR_GET_INFO => Ok(CallCode::HypervisorGetInfo),
            CELL_GET_STATE => Ok(CallCode::CellGetState),
            CPU_GET_INFO => Ok(CallCode::CpuGetInfo),
            _ => Err(UnknownCall(code)),
        }
    }
}

#[derive(Clone, Copy, PartialEq, Eq)]
pub enum Phase {
    Suspended,
    Loading,
    Started,
}

// A cell of the table: its phase and what its record says. Its regions are a table with a count, as the
// claims read them (`regions_at`), in fixed memory.
#[derive(Clone, Copy, PartialEq, Eq)]
pub struct Cell {
    pub phase: Phase,
    pub name: [u8; 32],
    pub cpus: u64,
    pub region_count: usize,
    pub regions: [MemRegion; MAX_REGIONS],
}

impl Cell {
    // Its regions: those that the count names.
    pub fn regions(&self) -> &[MemRegion]
        ensures { result.now ≡ take self.now.region_count self.now.regions }
    {
        region_table::in_use(&self.regions, self.region_count)
    }
}

// The calls that may wait for cells.
#[derive(Clone, Copy, PartialEq, Eq)]
pub enum CallKind {
    Disable,
    Create,
    Start,
    SetLoadable,
    Destroy,
}

// How far a waiting call has come: its target (of Create the new cell), the cell that it waits for,
// whether it asks or, its effect done, tells; and how many polls since the message have found
// nothing, counted where that cell has a reply limit.
#[derive(Clone, Copy, PartialEq, Eq)]
pub struct Stage {
    pub target: usize,
    pub cell: usize,
    pub telling: bool,
    pub polls: u16,
}

// The call that waits, and how far it has come; none where no call waits.
pub type Waiting = Option<(CallKind, Stage)>;

// Not booted yet, on, or disabled again.
#[derive(Clone, Copy, PartialEq, Eq)]
pub enum Power {
    Unbooted,
    On,
    Disabled,
}

// `system` is the record of the start, `pool_used` counts the pool pages in use, `live_ids` is the
// set of the live cells' IDs, root's 0 included, and `root_cpus` the CPUs of the root cell. Place 0
// of `cells` and `comms` stays empty. Which places are live is one set beside the tables, as the
// definitions and the claims read it (`has_id`), so that nothing searches the tables for it; the words
// stand apart from the cells, so that a search over all words reads 256 bytes.
#[derive(Clone, Copy, PartialEq, Eq)]
pub struct Machine {
    pub power: Power,
    pub system: SystemConfig,
    pub pool_used: u32,
    pub live_ids: u16,
    pub root_cpus: u64,
    pub cells: [Cell; MAX_CELLS],
    pub comms: [CommRegion; MAX_CELLS],
    pub cpus: [Cpu; MAX_CPUS],
    pub waiting: Waiting,
}

// What a CPU does, or the shim's poll, or a line of a log that says none of these. A call with
// code 1 comes with the bytes of its record beside it.
#[derive(Clone, Copy, PartialEq, Eq)]
pub enum Event {
    Call(u64, u32, u64, u64),
    Store(u64, u64, u32),
    Fault(u64),
    Exit(u64, u64),
    Poll,
    Malformed,
}

// The answer to an event: a call's return code, the cell that a call waits for, `done`, or why the
// event was not obeyed.
#[derive(Clone, Copy, PartialEq, Eq)]
pub enum Answer {
    Code(i32),
    Wait(usize),
    Done,
    Off,
    Bad,
    Stopped,
    Held,
    Denied,
    Idle,
}

// Boot's answer and the machine after it. `code` is the number that document 01 fixes. One pair with its
// names, as the definition has it (`boot_of`).
#[derive(Clone, Copy)]
pub struct Booted {
    pub code: i32,
    pub machine: Machine,
}

// An answer and the machine after it.
#[derive(Clone, Copy)]
pub struct Stepped {
    pub answer: Answer,
    pub machine: Machine,
}

// The number of a page of physical memory.
#[derive(Clone, Copy, PartialEq, Eq)]
pub struct PhysPage(pub u64);

// The number of a page as a cell sees its memory.
#[derive(Clone, Copy, PartialEq, Eq)]
pub struct CellPage(pub u64);

// What a cell may do with a page.
#[derive(Clone, Copy, PartialEq, Eq)]
pub struct Access {
    pub read: bool,
    pub write: bool,
    pub execute: bool,
}

// Who owns a physical page.
#[derive(Clone, Copy, PartialEq, Eq)]
pub enum Owner {
    Hypervisor,
    Cell(usize),
    Shared,
    Root,
    Nobody,
}

// What a page of a cell is mapped to.
#[derive(Clone, Copy, PartialEq, Eq)]
pub enum Mapping {
    Page(PhysPage, Access),
    Comm,
    Unmapped,
}

// A CPU as it is when a cell gets it: unfailed, its counters zero.
#[tactic(auto, unfolding(crate::specs::Machine::fresh_cpu))]
pub fn fresh_cpu(cell: usize, stopped: bool) -> Cpu
    ensures { result ≡ fresh_cpu cell stopped }
{
    Cpu {
        cell,
        stopped,
        failed: false,
        counters: [0; 6],
    }
}

// The communication words of a place that no cell has.
#[tactic(auto, unfolding(crate::specs::Machine::no_comm))]
pub fn no_comm() -> CommRegion
    ensures { result ≡ no_comm }
{
    CommRegion::default()
}

// A place of the table that no cell has.
#[tactic(auto, unfolding(crate::specs::Machine::no_cell))]
pub fn no_cell() -> Cell
    ensures { result ≡ no_cell }
{
    Cell {
        phase: Phase::Suspended,
        name: [0; 32],
        cpus: 0,
        region_count: 0,
        regions: [region_table::no_region(); MAX_REGIONS],
    }
}

// A machine with no cell but root, which has all boot CPUs, running.
#[tactic(auto, unfolding(crate::specs::Machine::first_machine))]
fn first_machine(power: Power, system: &SystemConfig) -> Machine
    ensures { result ≡ first_machine power system.now }
{
    Machine {
        power,
        system: *system,
        pool_used: system.pool.used,
        live_ids: 1,
        root_cpus: system.cpus,
        cells: [no_cell(); MAX_CELLS],
        comms: [no_comm(); MAX_CELLS],
        cpus: [fresh_cpu(0, false); MAX_CPUS],
        waiting: None,
    }
}

// Whether a start with this answer leaves the machine on.
#[tactic(auto, unfolding(crate::specs::Machine::power_after))]
fn power_after(code: i32) -> Power
    ensures { result ≡ power_after code }
{
    match code {
        0 => Power::On,
        _ => Power::Unbooted,
    }
}

// Boots from a system record: 0 and a running machine, or the refusal and one that is off.
#[tactic(auto, unfolding(crate::specs::Machine::boot_of, system_record::specs::SystemRecord::read_system))]
pub fn boot(s: &[u8]) -> Booted
    ensures { result ≡ boot_of s.now }
{
    let read = system_record::read_system(s);
    Booted {
        code: read.code,
        machine: first_machine(power_after(read.code), &read.config),
    }
}
