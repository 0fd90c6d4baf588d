// The communication region as its cell reads it: word by word, or byte by byte.
#![tactic(auto)]

ghost use Rattle.std.specs.Prelude.{◌≡◌, ◌*◌, ◌<◌, get_or};
ghost use Rattle.cpu_set.specs.CpuSet.{count};
ghost use Rattle.fields.specs.Fields.{u32};
ghost use Rattle.machine_state.specs.declared.Machine.{Machine};
ghost use Rattle.rules.specs.State.{comm_at};
ghost use Rattle.rules.specs.CommRegion.{bytes, layout, sees_region, region_word, region_byte};

use machine_state::{CommRegion, Machine};

// A word of the region: 0 message to the cell, 1 message from it, 2 its state, 3 zero, 4 the PM
// timer address and, above it, the number of CPUs.
fn word_of(c: CommRegion, timer: u16, cpus: u64, word: u64) -> u32
    requires { word < 5 }
    ensures { result ≡ u32 (4 * word) (layout c timer (count cpus)) }
{
    match word {
        0 => c.msg_to_cell,
        1 => c.reply_from_cell,
        2 => c.cell_state,
        3 => 0,
        _ => timer as u32 + 0x1_0000 * cpu_set::count(cpus),
    }
}

// Whether cell `id`, whose words are `c`, sees a region: it is live, is not root, and has one.
#[tactic(auto, unfolding(rules::specs::CommRegion::sees_region))]
fn sees_region(live_ids: u16, c: CommRegion, id: u64) -> bool
    ensures { (m : Machine) → m.live_ids ≡ live_ids → comm_at m id ≡ c → result ≡ sees_region id m }
{
    (id != 0) & id_set::is_live(live_ids, id) & c.mapped
}

// Word `word` of cell `id`'s region. None for root, for a cell that is not live or has no
// region, and from word 5 on.
pub fn region_word(m: &Machine, id: u64, word: u64) -> Option<u32>
    ensures { result ≡ region_word id word m.now }
{
    let i = id as usize;
    let c = m.comms.get(i)?;
    // No `then`: it says its two cases in two clauses, which a proof would have to put together again.
    if sees_region(m.live_ids, *c, id) & (word < 5) {
        Some(word_of(*c, m.system.timer, m.cells[i].cpus, word))
    } else {
        None
    }
}

// A byte of a word, the lowest first.
fn byte_of(word: u32, k: u64) -> u8
    requires { k < 4 }
    ensures { result ≡ get_or (bytes 4 word) k 0 }
{
    ((word >> (8 * k as u32)) % 256) as u8
}

// The byte at an offset of cell `id`'s region. None where `region_word` has none, and from
// byte 20 on.
pub fn region_byte(m: &Machine, id: u64, offset: u64) -> Option<u8>
    ensures { result ≡ region_byte id offset m.now }
{
    region_word(m, id, offset / 4).map(|word| byte_of(word, offset % 4))
}
