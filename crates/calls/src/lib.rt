// What a call decides, by its code: a move, read from the machine before the call is counted.
#![tactic(auto)]

ghost use Rattle.std.specs.Prelude.{◌≡◌, ℕ};
ghost use Rattle.base.specs.Codes.{number_of};
ghost use Rattle.cell_record.specs.declared.CellConfig.{CellConfig};
ghost use Rattle.cell_record.specs.CellRecord.{cell_of};
ghost use Rattle.machine_state.specs.CallCodes.{call_number};
ghost use Rattle.rules.specs.Queries.{low31 as low31_of};
ghost use Rattle.rules.specs.Calls.{ends, create_call, target_call, call_by_code, call as call_of};
ghost use Rattle.asking.specs.Moves.{Moves};
ghost use Rattle.queries.specs.Figures.{figure_code};
ghost use Rattle.calls.specs.Calls.{Calls, roots_alone};

use asking::Move;
use base::Errno;
use machine_state::{Answer, CallCode, CallKind, Machine};

// A call that ends at once with a refusal, and changes nothing more.
fn refused(m: &Machine, why: Errno) -> Move
    ensures { Moves (λ x. x.waiting ≡ m.now.waiting) (λ new x. ends (number_of why) x) result }
{
    asking::stay(Answer::Code(i32::from(why)), m.waiting)
}

// The low 31 bits of a number, as a return code.
fn low31(n: u32) -> i32
    ensures { result ≡ low31_of n }
{
    (n % 0x8000_0000) as i32
}

// A query, which changes nothing: its figure, or its refusal.
fn told(m: &Machine, figure: Result<u32, Errno>) -> Move
    ensures { Moves (λ x. x.waiting ≡ m.now.waiting) (λ new x. ends (figure_code figure) x) result }
{
    match figure {
        Ok(n) => asking::stay(Answer::Code(low31(n)), m.waiting),
        Err(why) => refused(m, why),
    }
}

// Start, Set Loadable and Destroy.
fn target_call(m: &Machine, kind: CallKind, id: u64) -> Move
    ensures { (cpu : ℕ) (new : CellConfig) → Calls m.now cpu new (target_call kind id new) result }
{
    if id == 0 {
        return refused(m, Errno::Invalid);
    }
    if !id_set::is_live(m.live_ids, id) {
        return refused(m, Errno::NoEntry);
    }
    let cells = comms::cell_sets(m);
    let target = id as usize;
    if asking::is_destroy(kind) && comms::is_locked_but(cells.locked, target) {
        return refused(m, Errno::NotPermitted);
    }
    asking::ask(cells, kind, target, 0)
}

// Create, of CPU `caller`.
fn create_call(m: &Machine, caller: u64, record: &[u8]) -> Move
    ensures { Calls m.now caller (cell_of «record».now) (create_call caller «record».now) result }
{
    match create_rules::refusal(m, caller, record) {
        Ok(id) => asking::ask(comms::cell_sets(m), CallKind::Create, id, 0),
        Err(why) => refused(m, why),
    }
}

// The call that a code means, of CPU `cpu`.
fn by_code(m: &Machine, cpu: u64, call: CallCode, a1: u64, a2: u64, record: &[u8]) -> Move
    ensures { Calls m.now cpu (cell_of «record».now) (call_by_code cpu (call_number call) a1 a2 «record».now) result }
{
    match call {
        CallCode::HypervisorDisable => { asking::ask(comms::cell_sets(m), CallKind::Disable, 0, 0) }
        CallCode::CellCreate => create_call(m, cpu, record),
        CallCode::CellStart => target_call(m, CallKind::Start, a1),
        CallCode::CellSetLoadable => target_call(m, CallKind::SetLoadable, a1),
        CallCode::CellDestroy => target_call(m, CallKind::Destroy, a1),
        CallCode::HypervisorGetInfo => told(m, queries::get_info(m, a1)),
        CallCode::CellGetState => told(m, queries::get_state(m, a1)),
        CallCode::CpuGetInfo => told(m, queries::cpu_get_info(m, cpu, a1, a2)),
    }
}

// Whether a call is root's alone.
#[tactic(auto, unfolding(crate::specs::Calls::roots_alone))]
fn is_roots_alone(call: CallCode) -> bool
    ensures { result ≡ roots_alone (call_number call) }
{
    !matches!(call, CallCode::HypervisorGetInfo | CallCode::CpuGetInfo)
}

// A call that is obeyed, of CPU `cpu`: its move where it is counted.
pub fn call(m: &Machine, cpu: u64, code: u32, a1: u64, a2: u64, record: &[u8]) -> Move
    ensures { Calls m.now cpu (cell_of «record».now) (call_of cpu code a1 a2 «record».now) result }
{
    let caller = cpu_table::owner(&m.cpus, cpu);
    match CallCode::try_from(code) {
        Ok(call) => {
            if (caller != 0) & is_roots_alone(call) {
                return refused(m, Errno::NotPermitted);
            }
            by_code(m, cpu, call, a1, a2, record)
        }
        Err(_) => refused(m, Errno::NoSuchCall),
    }
}
