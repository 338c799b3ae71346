// The tokens of a line of bytes. A variable is a capital letter followed by capitals and digits, a name a small letter
// followed by small letters and digits, 1 to 8 bytes each; a block is `#` and exactly 32 digits 0-9 a-f; the signs
// `^`, `=`, `(`, `)` and `0` are one byte each. A token runs as far as its bytes allow, and spaces may stand between
// tokens. Which tokens make an equation is the grammar's matter.
#![tactic(auto)]

ghost use Rattle.std.specs.Prelude.{◌≡◌, ℕ, ◌+◌, ◌<◌, ◌≤◌, Bool, length, OnOk, IfOk, OnErr, IfErr};
ghost use Rattle.std.specs.Iterator.{ActsAsAt};
ghost use Rattle.words.specs.Limits.{longest_word};
ghost use Rattle.tokens.specs.Classes.{space, in_variable, in_name, hex};
ghost use Rattle.tokens.specs.Tokens.{Run, Next, span, erased};
ghost use Rattle.tokens.specs.Next.{next, Ahead};

use refusals::Refusal;
use words::dictionary::LONGEST_WORD;

// A block has exactly this many digits. The most bytes of a variable or a name are those of a word.
const BLOCK_DIGITS: usize = 32;

// A word or a block borrows its bytes from the line; a block's are its digits, without the `#`.
#[derive(Clone, Copy, Drop, Debug, PartialEq, Eq)]
pub enum Token<'a> {
    Variable(&'a [u8]),
    Name(&'a [u8]),
    Block(&'a [u8]),
    Zero,
    Xor,
    Equals,
    Open,
    Close,
}

// A token with the place of its first byte and the place after its last.
#[derive(Clone, Copy, Drop, Debug, PartialEq, Eq)]
pub struct Lexeme<'a> {
    pub place: usize,
    pub token: Token<'a>,
    pub end: usize,
}

// Whether the byte is a space.
fn is_space(byte: &u8) -> bool
    ensures { result ≡ space byte.now }
{
    *byte as char == ' '
}

// Whether the byte may follow in a variable.
fn in_variable(byte: &u8) -> bool
    ensures { result ≡ in_variable byte.now }
{
    matches!(*byte as char, 'A'..='Z' | '0'..='9')
}

// Whether the byte may follow in a name.
fn in_name(byte: &u8) -> bool
    ensures { result ≡ in_name byte.now }
{
    matches!(*byte as char, 'a'..='z' | '0'..='9')
}

// Whether the byte is a digit of a block.
fn is_hex(byte: &u8) -> bool
    ensures { result ≡ hex byte.now }
{
    matches!(*byte as char, '0'..='9' | 'a'..='f')
}

// Where the run of bytes that pass ends, from `from` on.
fn run_end<F: FnMut(&u8) -> bool>(line: &[u8], from: usize, passes: F) -> usize
    requires within { from ≤ length line.now }
    requires callable { (test : F) (byte : _) → F.pre test byte }
    ensures run { (p : ℕ → Bool) → ActsAsAt F.FnMut passes p → Run p line.now from result }
    ensures onward { from ≤ result }
    ensures inside { result ≤ length line.now }
{
    from + line[from..].iter().copied().take_while(passes).count()
}

// The bytes from `start` to `end`, refused where they are more than a word has.
fn word(line: &[u8], start: usize, end: usize) -> Result<&[u8], Refusal>
    requires ordered { start ≤ end }
    requires within { end ≤ length line.now }
    ensures short { OnOk result (end ≤ start + longest_word) }
    ensures bytes { IfOk result (λ w. w.now ≡ span line.now start end) }
    ensures long { OnErr result (start + longest_word < end) }
    ensures refused { IfErr result (λ q. q ≡ Refusal.WrongLength start) }
{
    if end - start > LONGEST_WORD {
        return Err(Refusal::WrongLength(start));
    }
    Ok(&line[start..end])
}

// The next token from `at` on, or none where only spaces are left. Asks that `at` is within the line, as the end of the
// token before is, with which a reader calls this.
pub fn next_token<'a>(line: &'a [u8], at: usize) -> Result<Option<Lexeme<'a>>, Refusal>
    requires { at ≤ length line.now }
    ensures splits { Next line.now at (erased result) }
    ensures value { erased result ≡ next line.now at }
    ensures bound { Ahead line.now at result }
{
    let start = run_end(line, at, is_space);
    if start == line.len() {
        return Ok(None);
    }
    let (token, end) = match line[start] as char {
        '^' => (Token::Xor, start + 1),
        '=' => (Token::Equals, start + 1),
        '(' => (Token::Open, start + 1),
        ')' => (Token::Close, start + 1),
        '0' => (Token::Zero, start + 1),
        'A'..='Z' => {
            let end = run_end(line, start + 1, in_variable);
            (Token::Variable(word(line, start, end)?), end)
        }
        'a'..='z' => {
            let end = run_end(line, start + 1, in_name);
            (Token::Name(word(line, start, end)?), end)
        }
        '#' => {
            let digits = start + 1;
            let end = run_end(line, digits, is_hex);
            if end - digits != BLOCK_DIGITS {
                return Err(Refusal::WrongLength(start));
            }
            (Token::Block(&line[digits..end]), end)
        }
        _ => return Err(Refusal::NoToken(start)),
    };
    Ok(Some(Lexeme {
        place: start,
        token,
        end,
    }))
}
