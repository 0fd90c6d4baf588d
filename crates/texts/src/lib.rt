// The lines that the replay program prints.
#![tactic(auto)]

ghost use Rattle.std.specs.Prelude.{◌≡◌, ◌+◌, ◌≤◌, [], ◌∷◌, ◌++◌, length};
ghost use Rattle.texts.specs.Texts.{decimal, signed, answer_line, boot_line, put_line, put_count};
ghost use Rattle.texts.specs.Put.{Put, word_of, number_of};

use machine_state::Answer;

// The room that a line may need: `wait `, 20 digits and a line feed fit.
pub const MAX_TEXT: usize = 32;

// Writes a text to `out` from `at` on and gives the place after it.
fn put(text: &[u8], at: usize, out: &mut [u8]) -> usize
    requires { at + length text.now ≤ length out.old }
    ensures { Put at text.now out.old result out.new }
{
    let end = at + text.len();
    out[at..end].copy_from_slice(text);
    end
}

// The same for a number in decimals. Not by `write!`: a formatter's contract could not name the bytes of
// a lent buffer.
fn put_decimal(n: u64, at: usize, out: &mut [u8]) -> usize
    requires { at + 20 ≤ length out.old }
    ensures { Put at (decimal n) out.old result out.new }
{
    if n < 10 {
        out[at] = b'0' + n as u8;
        return at + 1;
    }
    let end = put_decimal(n / 10, at, out);
    out[end] = b'0' + (n % 10) as u8;
    end + 1
}

// Writes a number with its sign, as `put_decimal` does.
fn put_signed(n: i32, at: usize, out: &mut [u8]) -> usize
    requires { at + 21 ≤ length out.old }
    ensures { Put at (signed n) out.old result out.new }
{
    let size = u64::from(n.unsigned_abs());
    if n < 0 {
        out[at] = b'-';
        put_decimal(size, at + 1, out)
    } else {
        put_decimal(size, at, out)
    }
}

// What an answer's line begins with. A function, and no `Display`: its contract could not name the bytes
// of a lent buffer.
#[tactic(auto, unfolding(crate::specs::Texts::answer_text))]
fn word(a: Answer) -> &'static [u8]
    ensures { result.now ≡ word_of a }
{
    match a {
        Answer::Code(_) => b"code ",
        Answer::Wait(_) => b"wait ",
        Answer::Done => b"done",
        Answer::Off => b"off",
        Answer::Bad => b"bad",
        Answer::Stopped => b"stopped",
        Answer::Held => b"held",
        Answer::Denied => b"denied",
        Answer::Idle => b"idle",
    }
}

// Writes the number that an answer's line may have, as `put` does.
fn put_number(a: Answer, at: usize, out: &mut [u8]) -> usize
    requires { at + 21 ≤ length out.old }
    ensures { Put at (number_of a) out.old result out.new }
{
    match a {
        Answer::Code(code) => put_signed(code, at, out),
        Answer::Wait(cell) => put_decimal(cell as u64, at, out),
        _ => at,
    }
}

// Writes a line to the start of `out`: a word, and the number that an answer may have. Gives its length.
fn put_line(word: &[u8], a: Answer, out: &mut [u8]) -> usize
    requires { length word.now ≤ 7 }
    ensures value { result ≡ put_count 32 ((word.now ++ number_of a) ++ (0x0a ∷ [])) out.old }
    ensures out_after { out.new ≡ put_line 32 ((word.now ++ number_of a) ++ (0x0a ∷ [])) out.old }
{
    if out.len() < MAX_TEXT {
        return 0;
    }
    let at = put(word, 0, out);
    let end = put_number(a, at, out);
    put(b"\n", end, out)
}

// Writes an answer's line to the start of `out` and gives its length; where `out` has less room
// than a line may need, nothing is written and the length is 0, as the definition (`put_count`) has it.
pub fn put_answer(a: Answer, out: &mut [u8]) -> usize
    ensures value { result ≡ put_count 32 (answer_line a) out.old }
    ensures out_after { out.new ≡ put_line 32 (answer_line a) out.old }
{
    put_line(word(a), a, out)
}

// The same for boot's line, whose number is its code.
pub fn put_boot(code: i32, out: &mut [u8]) -> usize
    ensures value { result ≡ put_count 32 (boot_line code) out.old }
    ensures out_after { out.new ≡ put_line 32 (boot_line code) out.old }
{
    put_line(b"boot ", Answer::Code(code), out)
}
