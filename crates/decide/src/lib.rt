// What an event decides: read from the machine, changing nothing.
#![tactic(auto)]

ghost use Rattle.std.specs.Prelude.{◌≡◌, true, ℕ, ◌<◌, ◌≤◌};
ghost use Rattle.cell_record.specs.declared.CellConfig.{CellConfig};
ghost use Rattle.cell_record.specs.CellRecord.{cell_of};
ghost use Rattle.rules.specs.State.{cpu_at, answered};
ghost use Rattle.rules.specs.Effects.{counted, exit_counter, stored, faulted};
ghost use Rattle.rules.specs.Step.{obeyed};
ghost use Rattle.unobeyed.specs.Admission.{Placed};
ghost use Rattle.decide.specs.Decide.{uncut, cell_fails, Settles, Decides};

use asking::Move;
use comms::WordsChange;
use cpu_table::{CALL_COUNTER, CpuChange};
use machine_state::{Answer, Event, FAILED, MAX_CELLS, Machine, STATE_WORD};

// What is to be done: to one CPU, then to the cell that its reply limit cuts off, if it
// cuts one off, and then the move.
#[derive(Clone, Copy)]
pub struct Decision {
    pub cpu: usize,
    pub touch: CpuChange,
    pub cut: Option<usize>,
    pub moves: Move,
}

// A decision that cuts no cell off: one CPU's change, then a move.
fn uncut(cpu: usize, touch: CpuChange, moves: Move) -> Decision
    ensures { result ≡ uncut cpu touch moves }
{
    Decision {
        cpu,
        touch,
        cut: None,
        moves,
    }
}

// An answer that changes nothing.
fn leave(m: &Machine, answer: Answer) -> Decision
    ensures { (new : CellConfig) → Settles m.now new (answered answer m.now) result }
{
    uncut(0, CpuChange::Keep, asking::stay(answer, m.waiting))
}

// A store that is obeyed.
fn store(m: &Machine, cpu: usize, word: u64, value: u32) -> Decision
    requires { (cpu < 64) × ((cpu_at m.now cpu).cell < 16) }
    ensures { (new : CellConfig) → Settles m.now new (answered Answer.Done (stored cpu word value m.now)) result }
{
    let moves = Move {
        answer: Answer::Done,
        effect: None,
        cell: m.cpus[cpu].cell,
        words: WordsChange::Store(word, value),
        waiting: m.waiting,
    };
    uncut(cpu, CpuChange::Keep, moves)
}

// An exit that is obeyed.
fn exit(m: &Machine, cpu: usize, kind: u64) -> Decision
    requires { (cpu < 64) × (kind ≤ 3) }
    ensures { (new : CellConfig) → Settles m.now new (answered Answer.Done (counted (exit_counter kind) cpu m.now)) result }
{
    let touch = CpuChange::Count(kind as usize + 1);
    uncut(cpu, touch, asking::stay(Answer::Done, m.waiting))
}

// Whether the state of a CPU's cell becomes failed once the CPU is.
fn cell_fails(m: &Machine, cpu: usize) -> bool
    requires { cpu < 64 }
    ensures { result ≡ cell_fails cpu m.now }
{
    let id = m.cpus[cpu].cell;
    if MAX_CELLS <= id {
        return false;
    }
    let state = m.comms[id].cell_state;
    id != 0 && cpu_table::all_failed(m.cells[id].cpus, cpu, &m.cpus) && !comms::is_final(state)
}

// A fault that is obeyed.
fn fault(m: &Machine, cpu: usize) -> Decision
    requires { cpu < 64 }
    ensures { (new : CellConfig) → Settles m.now new (answered Answer.Done (faulted cpu m.now)) result }
{
    let cell = m.cpus[cpu].cell;
    if cell_fails(m, cpu) {
        let moves = Move {
            answer: Answer::Done,
            effect: None,
            cell,
            words: WordsChange::Store(STATE_WORD, FAILED),
            waiting: m.waiting,
        };
        return uncut(cpu, CpuChange::Fail, moves);
    }
    uncut(cpu, CpuChange::Fail, asking::stay(Answer::Done, m.waiting))
}

// An event that is obeyed.
fn obey(m: &Machine, e: Event, record: &[u8]) -> Decision
    requires { Placed m.now e }
    ensures { Settles m.now (cell_of «record».now) (obeyed e «record».now m.now) result }
{
    match e {
        Event::Call(cpu, code, a1, a2) => {
            let moves = calls::call(m, cpu, code, a1, a2, record);
            let place = cpu_table::cpu_index(cpu);
            uncut(place, CpuChange::Count(CALL_COUNTER), moves)
        }
        Event::Store(cpu, word, value) => store(m, cpu_table::cpu_index(cpu), word, value),
        Event::Fault(cpu) => fault(m, cpu_table::cpu_index(cpu)),
        Event::Exit(cpu, kind) => exit(m, cpu_table::cpu_index(cpu), kind),
        Event::Poll => {
            let polled = polling::poll(m);
            Decision {
                cpu: 0,
                touch: CpuChange::Keep,
                cut: polled.cut,
                moves: polled.moves,
            }
        }
        Event::Malformed => leave(m, Answer::Bad),
    }
}

// Decides on an event. A call with code 1 comes with its record's bytes.
pub fn decide(m: &Machine, e: Event, record: &[u8]) -> Decision
    ensures { Decides m.now e «record».now result }
{
    match unobeyed::admit(m, e) {
        Ok(()) => obey(m, e, record),
        Err(answer) => leave(m, answer),
    }
}
