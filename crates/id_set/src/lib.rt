// Sets of cell IDs: u16s whose bit `i` says whether ID `i` is in the set. Bare numbers, as the CPU sets
// are, which document 01 has as u64 masks.
#![tactic(auto)]

ghost use Rattle.std.specs.Prelude.{◌≡◌, ℕ, ◌<◌, eqb};
ghost use Rattle.cpu_set.specs.CpuSet.{member};
ghost use Rattle.machine_state.specs.declared.Machine.{Machine};
ghost use Rattle.rules.specs.State.{has_id, some_id};
ghost use Rattle.rules.specs.Create.{free_id};
ghost use Rattle.rules.specs.Effects.{add_id, drop_id};
ghost use Rattle.id_set.specs.Ids.{Lowest};

// Whether cell `id` is live.
#[tactic(auto, unfolding(rules::specs::State::has_id))]
pub fn is_live(live_ids: u16, id: u64) -> bool
    ensures { result ≡ has_id live_ids id }
{
    if id >= 16 {
        return false;
    }
    (live_ids >> (id as u16)) % 2 == 1
}

// The smallest free ID from 1: the lowest ID that is not in the set, root's counted as in it.
pub fn free_id(live_ids: u16) -> Option<usize>
    ensures { (m : Machine) → m.live_ids ≡ live_ids → result ≡ some_id (free_id m) }
{
    lowest(!(live_ids | 1))
}

// The set of one number below 64; of none for a number from 64 up.
pub fn single(id: usize) -> u64
    ensures { (k : ℕ) → k < 64 → member k result ≡ eqb k id }
{
    if id < 64 { 1 << id } else { 0 }
}

// The set of IDs with one more.
pub fn add_id(live_ids: u16, id: usize) -> u16
    ensures { result ≡ add_id id live_ids }
{
    (cpu_set::union(live_ids as u64, single(id)) % 0x1_0000) as u16
}

// The set of IDs with one less.
pub fn drop_id(live_ids: u16, id: usize) -> u16
    ensures { result ≡ drop_id id live_ids }
{
    (cpu_set::without(live_ids as u64, single(id)) % 0x1_0000) as u16
}

// The lowest ID of a set.
pub fn lowest(ids: u16) -> Option<usize>
    ensures { Lowest ids result }
{
    (ids != 0).then_some(ids.trailing_zeros() as usize)
}
