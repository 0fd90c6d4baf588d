// The words of a line.
ghost use Rattle.std.specs.Prelude.{◌≡◌, [], ◌∷◌, MatchOption, ◌==◌};
ghost use Rattle.std.specs.List.{position};
ghost use Rattle.base.specs.Lists.{same};
ghost use Rattle.lines.specs.Lines.{line_words};

// The first word of a line, and the line behind its space, if it has one.
pub(crate) fn first_word(line: &[u8]) -> (&[u8], Option<&[u8]>)
    ensures { MatchOption result.1
        (line_words line.now ≡ result.0.now ∷ [])
        (λ rest. line_words line.now ≡ result.0.now ∷ line_words rest.now) }
{
    match space(line) {
        Some(end) => (&line[..end], Some(&line[end + 1..])),
        None => (line, None),
    }
}

// The place of the first space. Not inlined: the walk over a long word then keeps one register, not seven.
// Inlined it takes 6 instructions a byte more.
#[inline(never)]
fn space(line: &[u8]) -> Option<usize>
    ensures { result ≡ position (λ b. b == 32) line.now }
{
    line.iter().position(|b| *b == b' ')
}

// Whether a word is the given one.
pub(crate) fn is_word(w: &[u8], word: &[u8]) -> bool
    ensures { result ≡ same w.now word.now }
{
    w == word
}
