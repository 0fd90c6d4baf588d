// What the effect of a call makes of the machine's parts. `apply` stores each part in its place.
#![tactic(auto)]

ghost use Rattle.std.specs.Prelude.{◌≡◌, ◌+◌, ◌-◌, ◌%◌, ◌^◌, Some};
ghost use Rattle.cell_record.specs.CellRecord.{cell_of};
ghost use Rattle.rules.specs.State.{cell_at};
ghost use Rattle.rules.specs.Effects.{pool_cost, new_cell, clear_words};
ghost use Rattle.effects.specs.Applying.{rest_of, EffectPart, IsNext};
ghost use Rattle.effects.specs.Parts.{is_disable, figures_of, numbers_after, new_words, within, words_after};

use asking::Effect;
use comms::WordsChange;
use cpu_table::CpuChange;
use machine_state::{CallKind, Cell, CommRegion, MAX_CELLS, Machine, Phase, SHUT_DOWN, STATE_WORD};

// What a record says that Create's effect needs beside the cell itself.
#[derive(Clone, Copy)]
pub struct Figures {
    pub cpus: u64,
    pub region_count: usize,
    pub mapped: bool,
    pub passive: bool,
    pub reply_limit: u16,
}

// What an effect makes of the machine's numbers, and what it does to a set of CPUs. For none the set is
// empty: the law `cell-applied` takes `cpus` and `how` as what is left to be changed.
#[derive(Clone, Copy)]
pub struct Numbers {
    pub pool_used: u32,
    pub live_ids: u16,
    pub root_cpus: u64,
    pub cpus: u64,
    pub how: CpuChange,
}

// What is applied next of a decision: a CPU of a set that is being changed, a cell that is cut off, a
// change of one cell, or the machine switched off.
#[derive(Clone, Copy)]
pub enum Part {
    Cpu(usize),
    CutOff(usize),
    Change(CallKind, usize),
    Off,
}

// Whether the effect is Disable's, which is about every cell.
pub fn is_disable(kind: CallKind) -> bool
    ensures { result ≡ is_disable kind }
{
    kind == CallKind::Disable
}

// The figures of a record.
#[tactic(auto, unfolding(cell_record::specs::CellRecord::cell_of))]
pub fn figures_of(record: &[u8]) -> Figures
    ensures { result ≡ figures_of (cell_of «record».now) }
{
    Figures {
        cpus: fields::u64_at(record, 40),
        region_count: fields::u16_at(record, 48) as usize,
        mapped: cell_record::has_comm(record),
        passive: fields::u16_at(record, 6) % 2 == 1,
        reply_limit: fields::u16_at(record, 50),
    }
}

// The pool with the pages of one more cell; a sum past the end goes round.
fn pool_grown(pool_used: u32, regions: usize) -> u32
    ensures { result ≡ (pool_used + pool_cost regions) % 2 ^ 32 }
{
    pool_used
        .wrapping_add((regions % 0x1_0000_0000) as u32)
        .wrapping_add(2)
}

// The pool without the pages of a cell; none where more are given back than there are.
fn pool_given_back(pool_used: u32, regions: usize) -> u32
    ensures { result ≡ pool_used - pool_cost regions }
{
    (pool_used as usize)
        .saturating_sub(2)
        .saturating_sub(regions) as u32
}

// The numbers after an effect on cell `id`; of Create, `new` are the record's figures.
pub fn numbers_after(kind: CallKind, id: usize, new: Figures, m: &Machine) -> Numbers
    ensures { result ≡ numbers_after kind id (cell_at m.now id) new m.now.pool_used m.now.live_ids m.now.root_cpus }
{
    let (cpus, regions) = match m.cells.get(id) {
        Some(c) => (c.cpus, c.region_count),
        None => (0, 0),
    };
    let unchanged = Numbers {
        pool_used: m.pool_used,
        live_ids: m.live_ids,
        root_cpus: m.root_cpus,
        cpus: 0,
        how: CpuChange::Keep,
    };
    match kind {
        CallKind::Disable => unchanged,
        CallKind::Create => Numbers {
            pool_used: pool_grown(m.pool_used, new.region_count),
            live_ids: id_set::add_id(m.live_ids, id),
            root_cpus: cpu_set::without(m.root_cpus, new.cpus),
            cpus: new.cpus,
            how: CpuChange::Give(id, true),
        },
        CallKind::Start => Numbers {
            cpus,
            how: CpuChange::Start,
            ..unchanged
        },
        CallKind::SetLoadable => Numbers {
            cpus,
            how: CpuChange::Stop,
            ..unchanged
        },
        CallKind::Destroy => Numbers {
            pool_used: pool_given_back(m.pool_used, regions),
            live_ids: id_set::drop_id(m.live_ids, id),
            root_cpus: cpu_set::union(m.root_cpus, cpus),
            cpus,
            how: CpuChange::Give(0, false),
        },
    }
}

// A created cell.
#[tactic(auto, unfolding(rules::specs::Effects::new_cell))]
pub fn new_cell(record: &[u8]) -> Cell
    ensures { result ≡ new_cell (cell_of «record».now) }
{
    let new = cell_record::cell_of(record);
    // An array of a struct goes into another struct by way of a local.
    let name = new.name;
    let regions = new.regions;
    Cell {
        phase: Phase::Suspended,
        name,
        cpus: new.cpus,
        region_count: new.region_count,
        regions,
    }
}

// The communication words of a created cell.
fn new_comm(new: Figures) -> CommRegion
    ensures { result ≡ new_words new }
{
    CommRegion {
        mapped: new.mapped,
        passive: new.passive,
        reply_limit: new.reply_limit,
        msg_to_cell: 0,
        reply_from_cell: 0,
        cell_state: SHUT_DOWN,
    }
}

// The words of a cell that starts.
#[tactic(auto, unfolding(rules::specs::Effects::clear_words))]
fn clear_words(w: CommRegion) -> CommRegion
    ensures { result ≡ clear_words w }
{
    CommRegion {
        msg_to_cell: 0,
        reply_from_cell: 0,
        cell_state: 0,
        ..w
    }
}

// The words of cell `id` after an effect on it; those of a cell past the tables' end stay.
#[tactic(auto, unfolding(crate::specs::Parts::within, comms::specs::Comms::words_of, rules::specs::Effects::store_word))]
pub fn words_after(kind: CallKind, id: usize, new: Figures, w: CommRegion) -> CommRegion
    ensures { result ≡ within id (words_after kind new w) w }
{
    if MAX_CELLS <= id {
        return w;
    }
    match kind {
        CallKind::Disable => w,
        CallKind::Create => new_comm(new),
        CallKind::Start => clear_words(w),
        CallKind::SetLoadable => comms::change_words(w, WordsChange::Store(STATE_WORD, SHUT_DOWN)),
        CallKind::Destroy => machine_state::no_comm(),
    }
}

// What is left of an effect after a change of one cell: Disable comes back until it has switched off.
pub fn rest_of(effect: Effect) -> Effect
    ensures { result ≡ rest_of effect }
{
    effect.filter(|(kind, _)| is_disable(*kind))
}

// The next part of an effect on cell `id`: Disable destroys the lowest live cell while there is one.
fn effect_part(kind: CallKind, id: usize, live_ids: u16) -> Part
    ensures { EffectPart kind id live_ids result }
{
    if is_disable(kind) {
        return match id_set::lowest(id_set::drop_id(live_ids, 0)) {
            Some(next) => Part::Change(CallKind::Destroy, next),
            None => Part::Off,
        };
    }
    Part::Change(kind, id)
}

// The part that comes next, with `cpus` the CPUs that are still to be changed, `cut` the cell that is
// still to be cut off, and `effect` what is still to come.
pub fn next_part(cpus: u64, cut: Option<usize>, effect: Effect, live_ids: u16) -> Option<Part>
    ensures { IsNext cpus cut effect live_ids result }
{
    if let Some(k) = cpu_table::first_cpu(cpus) {
        return Some(Part::Cpu(k));
    }
    if let Some(cell) = cut {
        if cell < MAX_CELLS {
            return Some(Part::CutOff(cell));
        }
    }
    let (kind, id) = effect?;
    Some(effect_part(kind, id, live_ids))
}
