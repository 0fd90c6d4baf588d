// Fields of a little-endian record: numbers at an offset, runs of zero bytes, names, marks.
//
// Every function takes any bytes. A number whose bytes run past the end is read as if zeros stood
// there.
#![tactic(auto)]

ghost use Rattle.std.specs.Prelude.{◌≡◌, ◌+◌, ◌<◌, get_or, take, length};
ghost use Rattle.base.specs.Lists.{same, part as part_of};
ghost use Rattle.fields.specs.Fields.{u16, u32, u64, zeros, leading as leading_of, is_name, padded};

// The `n` bytes at an offset, fewer where the end comes first.
pub fn part(s: &[u8], at: usize, n: usize) -> &[u8]
    ensures { result.now ≡ part_of at n s.now }
{
    let rest = s.get(at..).unwrap_or(&[]);
    rest.get(..n).unwrap_or(rest)
}

// The byte at an offset, 0 past the end.
pub fn u8_at(s: &[u8], at: usize) -> u8
    ensures { result ≡ get_or s.now at 0 }
{
    s.get(at).copied().unwrap_or(0)
}

// The first `N` bytes, with zeros past the end.
fn first_bytes<const N: usize>(s: &[u8]) -> [u8; N]
    ensures { result ≡ padded N s.now }
{
    match s.first_chunk() {
        Some(bytes) => *bytes,
        None => std::array::from_fn(|i| u8_at(s, i)),
    }
}

// The u16 at an offset.
pub fn u16_at(s: &[u8], at: usize) -> u16
    ensures { result ≡ u16 at s.now }
{
    u16::from_le_bytes(first_bytes(part(s, at, 2)))
}

// The u32 at an offset.
pub fn u32_at(s: &[u8], at: usize) -> u32
    ensures { result ≡ u32 at s.now }
{
    u32::from_le_bytes(first_bytes(part(s, at, 4)))
}

// The u64 at an offset.
pub fn u64_at(s: &[u8], at: usize) -> u64
    ensures { result ≡ u64 at s.now }
{
    u64::from_le_bytes(first_bytes(part(s, at, 8)))
}

// Whether every byte is zero.
pub fn is_zero(s: &[u8]) -> bool
    ensures { result ≡ zeros s.now }
{
    s.iter().all(|b| *b == 0)
}

// How many bytes 0x21..0x7e stand at the start.
fn leading(s: &[u8]) -> usize
    ensures { result ≡ leading_of s.now }
{
    s.iter().take_while(|b| 0x21 <= **b && **b <= 0x7e).count()
}

// Whether the bytes are a name: 1 to 31 bytes 0x21..0x7e, then zeros.
#[tactic(auto, using(crate::proofs::Laws::leading_le), unfolding(crate::specs::Fields::is_name))]
pub fn is_name(s: &[u8]) -> bool
    ensures { result ≡ is_name s.now }
{
    let n = leading(s);
    1 <= n && n <= 31 && is_zero(&s[n..])
}

// Whether the record begins with the mark.
pub fn has_mark(s: &[u8], mark: &[u8]) -> bool
    ensures { result ≡ same (take (length mark.now) s.now) mark.now }
{
    s.starts_with(mark)
}

// Whether two names are the same over their 32 bytes.
pub fn same_name(a: [u8; 32], b: [u8; 32]) -> bool
    ensures { result ≡ same a b }
{
    a == b
}

// The first 32 bytes, with zeros past the end.
pub fn name_of(s: &[u8]) -> [u8; 32]
    ensures { result ≡ padded 32 s.now }
{
    first_bytes(s)
}
