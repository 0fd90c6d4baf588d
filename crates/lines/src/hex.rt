// Bytes written as lower-case pairs of digits.
ghost use Rattle.std.specs.Prelude.{◌≡◌, true, ◌++◌, ◌<◌, min, length, take, drop};
ghost use Rattle.base.specs.Lists.{all};
ghost use Rattle.lines.specs.Lines.{is_hex_digit, hex_digit, is_pairs, is_hex, bytes_of};

// Whether a byte is a digit of HEX.
fn is_hex_digit(b: u8) -> bool
    ensures { result ≡ is_hex_digit b }
{
    matches!(b, b'0'..=b'9' | b'a'..=b'f')
}

// Whether every byte of a word is one. Without an early end, so that the compiler takes many bytes at a
// time; `all` takes one, at about 14 instructions a digit more.
fn all_digits(w: &[u8]) -> bool
    ensures { result ≡ all is_hex_digit w.now }
{
    let mut ok = true;
    for b in w {
        ok &= is_hex_digit(*b);
    }
    ok
}

// Whether a word is one or more pairs.
pub(crate) fn is_hex(w: &[u8]) -> bool
    ensures { result ≡ is_hex w.now }
{
    if w.len() % 2 == 1 {
        return false;
    }
    !w.is_empty() & all_digits(w)
}

// The number of a digit.
fn hex_digit(b: u8) -> u8
    requires { is_hex_digit b ≡ true }
    ensures value { result ≡ hex_digit b }
    ensures upper_bound { result < 16 }
{
    if b <= b'9' { b - b'0' } else { b - 0x57 }
}

// Writes the bytes that the pairs of `w` make to the start of `out`, as far as they fit, and gives
// their number.
pub(crate) fn decode(w: &[u8], out: &mut [u8]) -> usize
    requires { is_pairs w.now ≡ true }
    ensures value { result ≡ min (length (bytes_of w.now)) (length out.old) }
    ensures out_after { out.new ≡ take result (bytes_of w.now) ++ drop result out.old }
{
    let end = out.len().min(w.len() / 2);
    // By a digit's index: of what is written through a `zip` with `chunks_exact(2)` a proof knows the length alone.
    for (n, b) in out[..end].iter_mut().enumerate() {
        let high = hex_digit(w[2 * n]);
        let low = hex_digit(w[2 * n + 1]);
        *b = 16 * high + low;
    }
    end
}
