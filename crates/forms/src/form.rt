// Forms: what a line of a sheet says.
ghost use Rattle.std.specs.Prelude.{◌≡◌};
ghost use Rattle.std.specs.Option.{option_map};
ghost use Rattle.forms.specs.Forms.{byte, bracket, ended, name_of, Digits, plain, digit_more, value_of, number_of, pair_of, two_of, offer_of, keyword_of, form, Exact, both_now, number_now, pair_now};

use sources::offer::Offer;
use tokens::token::{Token, next_token};

#[derive(Clone, Copy, PartialEq, Eq, Debug)]
pub enum Form {
    Frame { members: u32, k: u32 },
    Coarse { x: u32, whole: u32 },
    Offer(Offer),
}

// The word that a form begins with.
#[derive(Clone, Copy, PartialEq, Eq, Debug)]
enum Keyword {
    Framing,
    Coarsening,
    Offering,
}

// What follows the wanted bracket at the front.
fn bracket<'a>(wanted: Token, text: &'a [u8]) -> Option<&'a [u8]>
    ensures { option_map (λ x. x.now) result ≡ bracket wanted.entry text.now }
{
    match (wanted, next_token(text)?) {
        (Token::Open, (Token::Open, rest)) | (Token::Close, (Token::Close, rest)) => Some(rest),
        _ => None,
    }
}

// What follows a space at the front; a space is no token.
fn space(text: &[u8]) -> Option<&[u8]>
    ensures { option_map (λ x. x.now) result ≡ byte 32 text.now }
{
    text.strip_prefix(b" ")
}

// A closing bracket and the line feed, and nothing else.
fn end(text: &[u8]) -> Option<()>
    ensures { result ≡ ended text.now }
{
    match bracket(Token::Close, text)? {
        [b'\n'] => Some(()),
        _ => None,
    }
}

// The name at the front, and what follows it.
fn name(text: &[u8]) -> Option<(&[u8], &[u8])>
    ensures { option_map both_now result ≡ name_of text.now }
{
    match next_token(text)? {
        (Token::Name(word), rest) => Some((word, rest)),
        _ => None,
    }
}

// Whether there are one to six digits, and no needless zero.
fn is_plain(digits: &[u8]) -> bool
    ensures { result ≡ plain digits.now }
{
    match digits {
        [] => false,
        [_] => true,
        [first, ..] => *first != b'0' && digits.len() <= 6,
    }
}

// A number with one digit more. Past 32 bits it would wrap, and six digits stay below.
fn with_digit(number: u32, digit: u8) -> u32
    ensures { result ≡ digit_more number digit }
{
    number
        .wrapping_mul(10)
        .wrapping_add(u32::from(digit.saturating_sub(b'0')))
}

// The value of a numeral.
fn value(digits: &[u8]) -> Option<u32>
    requires { Digits digits.now }
    ensures { result ≡ value_of digits.now }
{
    if !is_plain(digits) {
        return None;
    }
    Some(
        digits
            .iter()
            .fold(0, |number, digit| with_digit(number, *digit)),
    )
}

// The number at the front, and what follows it.
fn number(text: &[u8]) -> Option<(u32, &[u8])>
    ensures { option_map number_now result ≡ number_of text.now }
{
    match next_token(text)? {
        (Token::Numeral(digits), rest) => Some((value(digits)?, rest)),
        _ => None,
    }
}

// Two numbers with a space between, and what follows them.
fn pair(text: &[u8]) -> Option<(u32, u32, &[u8])>
    ensures { option_map pair_now result ≡ pair_of text.now }
{
    let (a, rest) = number(text)?;
    let (b, rest) = number(space(rest)?)?;
    Some((a, b, rest))
}

// The two numbers of a line, to its end.
fn two(text: &[u8]) -> Option<(u32, u32)>
    ensures { result ≡ two_of text.now }
{
    let (a, b, rest) = pair(space(text)?)?;
    end(rest)?;
    Some((a, b))
}

// The offer of a line, to its end.
fn offer(text: &[u8]) -> Option<Offer>
    ensures { result ≡ offer_of text.now }
{
    let (first, second, rest) = pair(bracket(Token::Open, space(text)?)?)?;
    let (saving, rest) = number(space(bracket(Token::Close, rest)?)?)?;
    end(rest)?;
    Some(Offer {
        first,
        second,
        saving,
    })
}

fn keyword_of(word: &[u8]) -> Option<Keyword>
    ensures { result ≡ keyword_of word.now }
{
    match word {
        b"frame" => Some(Keyword::Framing),
        b"coarse" => Some(Keyword::Coarsening),
        b"offer" => Some(Keyword::Offering),
        _ => None,
    }
}

// What a line with its line feed says, if it is the line of a form.
pub fn read_form(line: &[u8]) -> Option<Form>
    ensures value { result ≡ form line.now }
    ensures exactly { Exact line.now result }
{
    let (word, rest) = name(bracket(Token::Open, line)?)?;
    match keyword_of(word)? {
        Keyword::Framing => two(rest).map(|(members, k)| Form::Frame { members, k }),
        Keyword::Coarsening => two(rest).map(|(x, whole)| Form::Coarse { x, whole }),
        Keyword::Offering => offer(rest).map(Form::Offer),
    }
}
