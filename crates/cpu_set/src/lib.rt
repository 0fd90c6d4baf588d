// CPU sets as u64 masks: CPU k is a member where bit k is set. No function shifts by 64.
#![tactic(auto)]

ghost use Rattle.std.specs.Prelude.{◌≡◌};
ghost use Rattle.cpu_set.specs.CpuSet.{member, subset, meets, is_empty, union as union_of, without as without_of, below, count as count_of};

// Whether CPU `cpu` is in the set; false for every number from 64 up.
pub fn contains(set: u64, cpu: u64) -> bool
    ensures { result ≡ member cpu «set» }
{
    if cpu >= 64 {
        return false;
    }
    (set >> cpu) % 2 == 1
}

// Whether every member of `a` is a member of `b`.
pub fn is_subset(a: u64, b: u64) -> bool
    ensures { result ≡ subset a b }
{
    a & b == a
}

// Whether some CPU is a member of both.
pub fn intersects(a: u64, b: u64) -> bool
    ensures { result ≡ meets a b }
{
    a & b != 0
}

// Whether the set has no member.
pub fn is_empty(a: u64) -> bool
    ensures { result ≡ is_empty a }
{
    a == 0
}

// The members of either set.
pub fn union(a: u64, b: u64) -> u64
    ensures { result ≡ union_of a b }
{
    a | b
}

// The members of `a` that are not members of `b`.
pub fn without(a: u64, b: u64) -> u64
    ensures { result ≡ without_of a b }
{
    a ^ (a & b)
}

// Whether every member is below `n`; true for every `n` from 64 up.
pub fn is_below(a: u64, n: u64) -> bool
    ensures { result ≡ below a n }
{
    if n >= 64 {
        return true;
    }
    a >> n == 0
}

// How many members the set has.
pub fn count(a: u64) -> u32
    ensures { result ≡ count_of a }
{
    u64::count_ones(a)
}
