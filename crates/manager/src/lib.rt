// The manager's entries: a machine, one event, one answer.
#![tactic(auto)]

ghost use Rattle.std.specs.Prelude.{◌≡◌, ◌<◌};
ghost use Rattle.cell_record.specs.CellRecord.{cell_of};
ghost use Rattle.rules.specs.State.{answered};
ghost use Rattle.rules.specs.Step.{step as step_of};
ghost use Rattle.decide.specs.Decide.{settled};

use decide::Decision;
use machine_state::{Answer, Event, Machine, Stepped};

// Applies a decision to the machine from which it was made, and gives its answer: its CPU first, then
// the cell that is cut off, the effect, the words of one cell and the call that waits.
fn settle(m: &mut Machine, d: Decision, record: &[u8]) -> Answer
    requires { (d.cpu < 64) × (d.moves.cell < 16) }
    ensures { answered result m.new ≡ settled d (cell_of «record».now) m.old }
{
    let moves = d.moves;
    m.cpus[d.cpu] = cpu_table::change_cpu(m.cpus[d.cpu], d.touch);
    apply::cut_off(m, d.cut);
    apply::carry_out(m, moves.effect, record);
    m.comms[moves.cell] = comms::change_words(m.comms[moves.cell], moves.words);
    m.waiting = moves.waiting;
    moves.answer
}

// One event, which changes the machine in place: its answer. A call with code 1 comes with its
// record's bytes.
pub fn answer(m: &mut Machine, e: Event, record: &[u8]) -> Answer
    ensures { answered result m.new ≡ step_of e «record».now m.old }
{
    let d = decide::decide(m, e, record);
    settle(m, d, record)
}

// One event, on a machine of its own: its answer and the machine after it.
#[tactic(auto, unfolding(rules::specs::State::answered))]
pub fn step(m: Machine, e: Event, record: &[u8]) -> Stepped
    ensures { result ≡ step_of e «record».now m }
{
    let mut machine = m;
    let answer = answer(&mut machine, e, record);
    Stepped { answer, machine }
}
