// The CPU table: exit counters, failed marks, and what an effect does to the CPUs of a set.
#![tactic(auto)]

ghost use Rattle.std.specs.Prelude.{◌≡◌, set as set_at};
ghost use Rattle.machine_state.specs.Machine.{cpu_in};
ghost use Rattle.rules.specs.Effects.{bump as bump_of, count_exit, fail_cpu, start_cpu, stop_cpu, all_failed, change_cpus};
ghost use Rattle.comms.specs.Comms.{Index};
ghost use Rattle.cpu_table.specs.CpuTable.{change_of, cpu_index, FirstCpu};

use machine_state::{Cpu, MAX_CPUS};

// What is done to a CPU: nothing, an exit counted with its own counter, marked failed, started,
// stopped, or given to a cell, fresh, stopped or running. Data, and no closure: a decision carries it.
#[derive(Clone, Copy)]
pub enum CpuChange {
    Keep,
    Count(usize),
    Fail,
    Start,
    Stop,
    Give(usize, bool),
}

// The counter of calls; 0 is the total, and exits of kinds 0 to 3 have 1 to 4.
pub const CALL_COUNTER: usize = 5;

// The place of CPU `cpu` in the table; 0 where it has none there. An index, and no option: a
// caller promises something of a CPU with a place alone, and a CPU has no default.
#[tactic(auto, unfolding(crate::specs::CpuTable::cpu_index))]
pub fn cpu_index(cpu: u64) -> usize
    ensures { Index (cpu_index cpu) 64 result }
{
    if cpu < MAX_CPUS as u64 {
        cpu as usize
    } else {
        0
    }
}

// The cell of CPU `cpu`; root where the table has no such CPU.
pub fn owner(cpus: &[Cpu; MAX_CPUS], cpu: u64) -> usize
    ensures { result ≡ (cpu_in cpus.now cpu).cell }
{
    match cpus.get(cpu as usize) {
        Some(p) => p.cell,
        None => 0,
    }
}

// The counters with one added to the one at `i`, modulo 2^32.
#[tactic(auto, unfolding(rules::specs::Effects::bump))]
fn bump(counters: [u32; 6], i: usize) -> [u32; 6]
    ensures { result ≡ bump_of i counters }
{
    // An array has no struct update.
    let mut next = counters;
    if i < 6 {
        next[i] = counters[i].wrapping_add(1);
    }
    next
}

// The CPU with one more exit: the total, and the counter at `own`.
#[tactic(auto, unfolding(rules::specs::Effects::count_exit))]
fn count_exit(p: Cpu, own: usize) -> Cpu
    ensures { result ≡ count_exit own p }
{
    Cpu {
        counters: bump(bump(p.counters, 0), own),
        ..p
    }
}

// The CPU, failed.
#[tactic(auto, unfolding(rules::specs::Effects::fail_cpu))]
fn fail_cpu(p: Cpu) -> Cpu
    ensures { result ≡ fail_cpu p }
{
    Cpu { failed: true, ..p }
}

// The CPU, running and unfailed.
#[tactic(auto, unfolding(rules::specs::Effects::start_cpu))]
fn start_cpu(p: Cpu) -> Cpu
    ensures { result ≡ start_cpu p }
{
    Cpu {
        stopped: false,
        failed: false,
        ..p
    }
}

// The CPU, stopped; its failed mark stays.
#[tactic(auto, unfolding(rules::specs::Effects::stop_cpu))]
fn stop_cpu(p: Cpu) -> Cpu
    ensures { result ≡ stop_cpu p }
{
    Cpu { stopped: true, ..p }
}

// The CPU after a change.
#[tactic(auto, unfolding(crate::specs::CpuTable::change_of))]
pub fn change_cpu(p: Cpu, how: CpuChange) -> Cpu
    ensures { result ≡ change_of how p }
{
    match how {
        CpuChange::Keep => p,
        CpuChange::Count(own) => count_exit(p, own),
        CpuChange::Fail => fail_cpu(p),
        CpuChange::Start => start_cpu(p),
        CpuChange::Stop => stop_cpu(p),
        CpuChange::Give(cell, stopped) => machine_state::fresh_cpu(cell, stopped),
    }
}

// Changes the CPUs of a table that are in `set`, one after the other: of the 64 a cell has few.
pub fn change_cpus(set: u64, how: CpuChange, cpus: &mut [Cpu; MAX_CPUS])
    ensures { cpus.new ≡ change_cpus «set» (change_of how) cpus.old }
{
    let mut left = set;
    while let Some(k) = first_cpu(left) {
        cpus[k] = change_cpu(cpus[k], how);
        left = cpu_set::without(left, id_set::single(k));
    }
}

// A CPU of a set: its lowest. Of 64 bits, as `id_set::lowest` is of 16, and under a contract of its own.
pub fn first_cpu(set: u64) -> Option<usize>
    ensures { FirstCpu «set» result }
{
    if set == 0 {
        None
    } else {
        Some(set.trailing_zeros() as usize)
    }
}

// Whether every CPU in `set` is failed once CPU `also` is.
pub fn all_failed(set: u64, also: usize, cpus: &[Cpu; MAX_CPUS]) -> bool
    ensures { result ≡ all_failed «set» (set_at cpus.now also (fail_cpu (cpu_in cpus.now also))) }
{
    cpus.iter().enumerate().all(|(k, p)| !cpu_set::contains(set, k as u64)
        | ((k == also) | p.failed))
}
