// Unsigned decimals without leading zeros.
ghost use Rattle.std.specs.Prelude.{◌≡◌};
ghost use Rattle.lines.specs.Reading.{word_number, with_digit, with_digits};

// `n` with one digit more.
fn with_digit(n: u64, b: u8) -> Option<u64>
    ensures { result ≡ with_digit n b }
{
    if !b.is_ascii_digit() {
        return None;
    }
    let digit = u64::from(b - b'0');
    n.checked_mul(10)?.checked_add(digit)
}

// The number that the digits of `w` make.
fn digits_of(w: &[u8]) -> Option<u64>
    ensures { result ≡ with_digits 0 w.now }
{
    let mut n = 0;
    for b in w {
        n = with_digit(n, *b)?;
    }
    Some(n)
}

// A word as a number below 2^64.
pub(crate) fn word_number(w: &[u8]) -> Option<u64>
    ensures { result ≡ word_number 64 w.now }
{
    if w.is_empty() {
        return None;
    }
    // By its index: behind a slice pattern a proof knows the length alone.
    if (w[0] == b'0') & (1 < w.len()) {
        return None;
    }
    digits_of(w)
}

// A word as a number below 2^32.
pub(crate) fn word32_number(w: &[u8]) -> Option<u32>
    ensures { result ≡ word_number 32 w.now }
{
    u32::try_from(word_number(w)?).ok()
}
