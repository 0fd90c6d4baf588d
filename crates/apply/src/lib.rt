// What is decided, applied to a machine in place, part by part.
#![tactic(auto)]

ghost use Rattle.std.specs.Prelude.{◌≡◌, ◌+◌, ◌*◌, ◌<◌, length, false, Some};
ghost use Rattle.cpu_set.specs.CpuSet.{count};
ghost use Rattle.cell_record.specs.CellRecord.{cell_of};
ghost use Rattle.rules.specs.Effects.{effect as call_effect, disabled};
ghost use Rattle.asking.specs.Moves.{effect_of, cut_off_at};
ghost use Rattle.effects.specs.Applying.{remaining, parts_left, IsNext};
ghost use Rattle.effects.specs.Parts.{is_disable, changed_cell};

use asking::Effect;
use comms::WordsChange;
use cpu_table::CpuChange;
use effects::Part;
use machine_state::{CallKind, Cell, FAILED, MAX_CELLS, Machine, Phase, Power, STATE_WORD};

// What is left of a decision: a set of CPUs with what is done to them, a cell that is cut off, and an
// effect, in this order.
#[derive(Clone, Copy)]
struct Left {
    cpus: u64,
    how: CpuChange,
    cut: Option<usize>,
    effect: Effect,
}

// What the effect of a call on a cell does to the cell. Disable does nothing itself: it destroys each.
#[tactic(auto, unfolding(rules::specs::Effects::with_phase))]
fn change_cell(c: &mut Cell, kind: CallKind, record: &[u8])
    ensures { c.new ≡ changed_cell kind (cell_of «record».now) c.old }
{
    match kind {
        CallKind::Disable => {}
        CallKind::Create => *c = effects::new_cell(record),
        CallKind::Start => c.phase = Phase::Started,
        CallKind::SetLoadable => c.phase = Phase::Loading,
        CallKind::Destroy => *c = machine_state::no_cell(),
    }
}

// The effect of a call on one cell.
fn on_cell(m: &mut Machine, kind: CallKind, id: usize, record: &[u8])
    ensures { is_disable kind ≡ false → m.new ≡ call_effect kind id (cell_of «record».now) m.old }
{
    let new = effects::figures_of(record);
    let numbers = effects::numbers_after(kind, id, new, m);
    m.pool_used = numbers.pool_used;
    m.live_ids = numbers.live_ids;
    m.root_cpus = numbers.root_cpus;
    cpu_table::change_cpus(numbers.cpus, numbers.how, &mut m.cpus);
    if id < MAX_CELLS {
        change_cell(&mut m.cells[id], kind, record);
        m.comms[id] = effects::words_after(kind, id, new, m.comms[id]);
    }
}

// Applies the part that comes next, and gives what is left after it: less, and it makes the same machine.
#[tactic(auto, using(crate::proofs::Laws::cpu_inside, crate::proofs::Laws::cell_inside))]
fn apply_part(m: &mut Machine, left: Left, part: Part, record: &[u8]) -> Left
    requires { (length m.old.cpus ≡ 64) × IsNext left.cpus left.cut left.effect m.old.live_ids (Some part) }
    ensures size { length m.new.cpus ≡ 64 }
    ensures same { let new = cell_of «record».now in remaining result.cpus result.how result.cut result.effect new m.new ≡ remaining left.cpus left.how left.cut left.effect new m.old }
    ensures fewer { parts_left result.cut result.effect m.new.live_ids * 65 + count result.cpus < parts_left left.cut left.effect m.old.live_ids * 65 + count left.cpus }
{
    match part {
        Part::Cpu(k) => {
            m.cpus[k] = cpu_table::change_cpu(m.cpus[k], left.how);
            Left {
                cpus: cpu_set::without(left.cpus, id_set::single(k)),
                ..left
            }
        }
        Part::CutOff(id) => {
            m.comms[id] = comms::change_words(m.comms[id], WordsChange::Store(STATE_WORD, FAILED));
            Left {
                cpus: m.cells[id].cpus,
                how: CpuChange::Stop,
                cut: None,
                ..left
            }
        }
        Part::Change(kind, id) => {
            on_cell(m, kind, id, record);
            Left {
                effect: effects::rest_of(left.effect),
                ..left
            }
        }
        Part::Off => {
            m.power = Power::Disabled;
            Left {
                effect: None,
                ..left
            }
        }
    }
}

// Applies a cell that is cut off and then an effect, part by part, as long as a part is left.
fn apply_parts(m: &mut Machine, cut: Option<usize>, effect: Effect, record: &[u8])
    ensures { m.new ≡ effect_of effect (cell_of «record».now) (cut_off_at cut m.old) }
{
    // Reading the table tells the proof that it has 64 CPUs.
    let _cpus = m.cpus.iter();
    let mut left = Left {
        cpus: 0,
        how: CpuChange::Keep,
        cut,
        effect,
    };
    while let Some(part) = effects::next_part(left.cpus, left.cut, left.effect, m.live_ids) {
        left = apply_part(m, left, part, record);
    }
}

// Cuts a cell off by its reply limit, if there is one to cut off; a number past the table names none.
#[tactic(auto, unfolding(asking::specs::Moves::effect_of))]
pub fn cut_off(m: &mut Machine, cut: Option<usize>)
    ensures { m.new ≡ cut_off_at cut m.old }
{
    apply_parts(m, cut, None, b"");
}

// Disable: all cells destroyed, then off.
#[tactic(auto, unfolding(asking::specs::Moves::effect_of, asking::specs::Moves::cut_off_at, rules::specs::Effects::effect))]
pub fn disable(m: &mut Machine)
    ensures { m.new ≡ disabled m.old }
{
    apply_parts(m, None, Some((CallKind::Disable, 0)), b"");
}

// An effect comes, if there is one. A call with code 1 comes with its record's bytes.
#[tactic(auto, unfolding(asking::specs::Moves::effect_of, asking::specs::Moves::cut_off_at, rules::specs::Effects::effect))]
pub fn carry_out(m: &mut Machine, effect: Effect, record: &[u8])
    ensures { m.new ≡ effect_of effect (cell_of «record».now) m.old }
{
    match effect {
        Some((CallKind::Disable, _)) => disable(m),
        _ => apply_parts(m, None, effect, record),
    }
}
