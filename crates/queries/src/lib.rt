// The three queries: Get Info, Get State, CPU Get Info. A figure, or the reason why there is none, is
// what its row of the table says of the machine. A figure is below 2^31, so that the row fixes it whole.
#![tactic(auto)]

ghost use Rattle.std.specs.Prelude.{◌≡◌, true, ℕ, ◌-◌, ◌^◌, ◌<◌, ◌≤◌, get_or, IfOk};
ghost use Rattle.cpu_set.specs.CpuSet.{member};
ghost use Rattle.machine_state.specs.declared.Machine.{Machine as MachineState};
ghost use Rattle.rules.specs.State.{boot_cpu_set, cpu_at};
ghost use Rattle.rules.specs.Queries.{low31 as low31_of, get_info, get_state, cpu_get_info};
ghost use Rattle.rules.specs.Effects.{counted, call_counter};
ghost use Rattle.queries.specs.Figures.{figure_code};

use base::Errno;
use cpu_table::{CALL_COUNTER, CpuChange};
use machine_state::{Cpu, FAILED, Machine, RUNNING, RUNNING_LOCKED, SHUT_DOWN};

// The low 31 bits of a number.
fn low31(n: u32) -> u32
    ensures same { low31_of result ≡ low31_of n }
    ensures bound { result < 2 ^ 31 }
{
    n % 0x8000_0000
}

// Get Info: a figure of the pools, or the number of cells.
#[tactic(auto, unfolding(rules::specs::Queries::get_info, base::specs::Rules::first_rule))]
pub fn get_info(m: &Machine, kind: u64) -> Result<u32, Errno>
    ensures code { figure_code result ≡ get_info kind m.now }
    ensures bound { IfOk result (λ n. n < 2 ^ 31) }
{
    match kind {
        0 => Ok(low31(m.system.pool.pages)),
        1 => Ok(low31(m.pool_used)),
        2 => Ok(low31(m.system.remap.pages)),
        3 => Ok(low31(m.system.remap.used)),
        4 => Ok(low31(cpu_set::count(m.live_ids as u64))),
        _ => Err(Errno::Invalid),
    }
}

// Get State of cell `id`. Tests by `if`: at the last arm of a `match` on numbers the proof has no
// fact on the numbers that came before.
pub fn get_state(m: &Machine, id: u64) -> Result<u32, Errno>
    ensures code { figure_code result ≡ get_state id m.now }
    ensures bound { IfOk result (λ n. n < 2 ^ 31) }
{
    if id == 0 {
        return Ok(0);
    }
    if !id_set::is_live(m.live_ids, id) {
        return Err(Errno::NoEntry);
    }
    let state = m.comms[id as usize].cell_state;
    if (state == RUNNING) | (state == RUNNING_LOCKED) {
        return Ok(0);
    }
    if state == SHUT_DOWN {
        return Ok(1);
    }
    if state == FAILED {
        return Ok(2);
    }
    Err(Errno::Invalid)
}

// The counter of an information type from 1000 to 1005.
fn counter(p: &Cpu, kind: u64) -> u32
    requires { (1000 ≤ kind) × (kind ≤ 1005) }
    ensures { result ≡ get_or p.now.counters (kind - 1000) 0 }
{
    p.counters[(kind - 1000) as usize]
}

// CPU Get Info of CPU `asked`, of the boot set, for a CPU of cell `cell`.
fn cpu_figure(cell: usize, asked: &Cpu, kind: u64) -> Result<u32, Errno>
    ensures code { (m : MachineState) (k j : ℕ) → (cpu_at m k).cell ≡ cell → cpu_at m j ≡ asked.now → member j (boot_cpu_set m) ≡ true → figure_code result ≡ cpu_get_info k j kind m }
    ensures bound { IfOk result (λ n. n < 2 ^ 31) }
{
    if (cell != 0) & (asked.cell != cell) {
        return Err(Errno::NotPermitted);
    }
    if (kind == 0) & !asked.failed {
        return Ok(0);
    }
    if kind == 0 {
        return Ok(2);
    }
    if (1000 <= kind) & (kind <= 1005) {
        return Ok(low31(counter(asked, kind)));
    }
    Err(Errno::Invalid)
}

// CPU Get Info of CPU `asked` for CPU `caller`, whose call is counted first.
pub fn cpu_get_info(m: &Machine, caller: u64, asked: u64, kind: u64) -> Result<u32, Errno>
    ensures code { figure_code result ≡ cpu_get_info caller asked kind (counted call_counter caller m.now) }
    ensures bound { IfOk result (λ n. n < 2 ^ 31) }
{
    if !cpu_set::contains(m.system.cpus, asked) {
        return Err(Errno::Invalid);
    }
    let cell = cpu_table::owner(&m.cpus, caller);
    let q = m.cpus[cpu_table::cpu_index(asked)];
    if asked == caller {
        let own = cpu_table::change_cpu(q, CpuChange::Count(CALL_COUNTER));
        return cpu_figure(cell, &own, kind);
    }
    cpu_figure(cell, &q, kind)
}
