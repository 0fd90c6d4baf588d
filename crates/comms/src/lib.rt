// One cell's communication words, and what is found by looking at the live IDs and the words of
// all cells.
#![tactic(auto)]

ghost use Rattle.std.specs.Prelude.{◌≡◌, Bool, true, ◌&&◌, ℕ, ◌^◌, ◌<◌, Some, length};
ghost use Rattle.machine_state.specs.declared.CommRegion.{CommRegion as CommRegionWords};
ghost use Rattle.machine_state.specs.declared.Machine.{Machine as MachineState};
ghost use Rattle.rules.specs.State.{ids_where, some_id, is_final, comm_at, active};
ghost use Rattle.rules.specs.Create.{other_cell_locked};
ghost use Rattle.rules.specs.Effects.{store_word};
ghost use Rattle.rules.specs.Asking.{message as message_of, may_be_messaged, next_to_message, is_heard, consents as consents_of};
ghost use Rattle.comms.specs.Comms.{Index, cell_index, words_of, among as among_of};
ghost use Rattle.comms.specs.Sets.{has_locked, Sets, add_where, sets_without};

use machine_state::{
    CommRegion, FAILED, MAX_CELLS, Machine, REQUEST_APPROVED, RUNNING_LOCKED, SHUT_DOWN,
};

// What is done to the words of a cell: nothing, a store to word 0, 1 or 2, or a message. Data, and no
// closure: a decision carries it, and is applied later.
#[derive(Clone, Copy)]
pub enum WordsChange {
    Keep,
    Store(u64, u32),
    Message(u32),
}

// The cells that a search looks at. Data, and no closure: a contract names the cells.
#[derive(Clone, Copy)]
pub enum Whom {
    Everyone,
    Nobody,
    Only(usize),
    EveryoneBut(usize),
}

// The IDs of the cells that may be messaged, and of those that have locked the configuration.
#[derive(Clone, Copy)]
pub struct CellSets {
    pub messageable: u16,
    pub locked: u16,
}

// The place of cell `id` in the tables; 0 where it has none there. An index, and no option: who asks
// whether the cell has a place tests its number.
#[tactic(auto, unfolding(crate::specs::Comms::cell_index))]
pub fn cell_index(id: usize) -> usize
    ensures { Index (cell_index id) 16 result }
{
    if id < MAX_CELLS { id } else { 0 }
}

// Whether a state is final: shut down or failed.
pub fn is_final(state: u32) -> bool
    ensures { result ≡ is_final state }
{
    matches!(state, SHUT_DOWN | FAILED)
}

// Whether a search for `whom` looks at cell `id`.
#[tactic(auto, unfolding(crate::specs::Comms::among))]
fn is_among(whom: Whom, id: usize) -> bool
    ensures { result ≡ among_of whom id }
{
    match whom {
        Whom::Everyone => true,
        Whom::Nobody => false,
        Whom::Only(cell) => id == cell,
        Whom::EveryoneBut(cell) => id != cell,
    }
}

// Whether cell `id`, whose words are `c`, is active.
#[tactic(auto, unfolding(rules::specs::State::active))]
fn is_active(live_ids: u16, id: usize, c: CommRegion) -> bool
    ensures { (m : MachineState) → m.live_ids ≡ live_ids → comm_at m id ≡ c → result ≡ active m id }
{
    (id != 0) & id_set::is_live(live_ids, id as u64) & !is_final(c.cell_state)
}

// A set of IDs below `id`, with `id` in it where `is_in`.
fn add_where(is_in: bool, ids: u16, id: usize) -> u16
    requires { (id < 16) × (ids < 2 ^ id) }
    ensures { result ≡ add_where is_in ids id }
{
    if is_in { ids + (1 << id) } else { ids }
}

// The IDs of the active cells whose words pass a test.
fn active_where<F: Fn(CommRegion) -> bool>(
    live_ids: u16,
    comms: &[CommRegion; MAX_CELLS],
    test: F,
) -> u16
    requires { F.IsAlwaysCallable test }
    ensures value { (m : MachineState) (passes : CommRegionWords → Bool) → m.live_ids ≡ live_ids → m.comms ≡ comms.now
        → ((c : CommRegionWords) (r : Bool) → F.post test c r → r ≡ passes c)
        → result ≡ ids_where (λ id. active m id && passes (comm_at m id)) }
    ensures size { length comms.now ≡ 16 }
{
    let mut ids = 0;
    for (id, c) in comms.iter().enumerate() {
        ids = add_where(is_active(live_ids, id, *c) & test(*c), ids, id);
    }
    ids
}

// The sets of a machine's cells.
pub fn cell_sets(m: &Machine) -> CellSets
    ensures sets { Sets result m.now }
    ensures size { length m.now.comms ≡ 16 }
{
    let messageable = active_where(m.live_ids, &m.comms, |c| !c.passive);
    let locked = active_where(m.live_ids, &m.comms, |c| c.cell_state == RUNNING_LOCKED);
    CellSets {
        messageable,
        locked,
    }
}

// The next cell of `whom` after `after` that may be messaged.
pub fn next_cell(messageable: u16, whom: Whom, after: usize) -> Option<usize>
    ensures value { (m : MachineState) → messageable ≡ ids_where (may_be_messaged m) → result ≡ some_id (next_to_message (among_of whom) after m) }
    ensures inside { (id : ℕ) → result ≡ Some id → id < 16 }
{
    (1..MAX_CELLS).find(|&id| {
        (after < id) & is_among(whom, id) & id_set::is_live(messageable, id as u64)
    })
}

// Whether an active cell other than `except` has locked the configuration.
pub fn is_locked_but(locked: u16, except: usize) -> bool
    ensures { (m : MachineState) → locked ≡ ids_where (has_locked m) → result ≡ other_cell_locked except m }
{
    (1..MAX_CELLS).any(|id| id_set::is_live(locked, id as u64) & (id != except))
}

// The sets without cell `id`.
#[tactic(auto, unfolding(crate::specs::Sets::sets_without))]
pub fn without_cell(cells: CellSets, id: usize) -> CellSets
    ensures { result ≡ sets_without id cells }
{
    CellSets {
        messageable: id_set::drop_id(cells.messageable, id),
        locked: id_set::drop_id(cells.locked, id),
    }
}

// The words after a message to the cell: the reply is cleared first.
#[tactic(auto, unfolding(rules::specs::Asking::message))]
fn message(c: CommRegion, code: u32) -> CommRegion
    ensures { result ≡ message_of code c }
{
    CommRegion {
        reply_from_cell: 0,
        msg_to_cell: code,
        ..c
    }
}

// The words after a store to word 0, 1 or 2.
#[tactic(auto, unfolding(rules::specs::Effects::store_word))]
fn store_word(c: CommRegion, word: u64, value: u32) -> CommRegion
    ensures { result ≡ store_word word value c }
{
    match word {
        0 => CommRegion {
            msg_to_cell: value,
            ..c
        },
        1 => CommRegion {
            reply_from_cell: value,
            ..c
        },
        _ => CommRegion {
            cell_state: value,
            ..c
        },
    }
}

// The words after a change.
#[tactic(auto, unfolding(crate::specs::Comms::words_of))]
pub fn change_words(c: CommRegion, how: WordsChange) -> CommRegion
    ensures { result ≡ words_of how c }
{
    match how {
        WordsChange::Keep => c,
        WordsChange::Store(word, value) => store_word(c, word, value),
        WordsChange::Message(code) => message(c, code),
    }
}

// Whether the cell has replied or is in a final state.
#[tactic(auto, unfolding(rules::specs::Asking::is_heard))]
pub fn is_heard(c: CommRegion) -> bool
    ensures { result ≡ is_heard c }
{
    (c.reply_from_cell != 0) | is_final(c.cell_state)
}

// Whether a heard cell consents to a shutdown request.
#[tactic(auto, unfolding(rules::specs::Asking::consents))]
pub fn consents(c: CommRegion) -> bool
    ensures { result ≡ consents_of c }
{
    is_final(c.cell_state) | (c.reply_from_cell == REQUEST_APPROVED)
}
