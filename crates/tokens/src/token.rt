// Tokens: what stands at the front of a text. A name or a numeral is lent from the text, not copied.
ghost use Rattle.std.specs.Prelude.{◌≡◌};
ghost use Rattle.std.specs.Option.{option_map};
ghost use Rattle.tokens.specs.Tokens.{belongs, run, token_of, read_token, Splits};

#[derive(Clone, Copy, PartialEq, Eq, Debug)]
pub enum Token<'a> {
    Open,
    Close,
    Name(&'a [u8]),
    Numeral(&'a [u8]),
}

// An enum, since clauses name the two.
#[derive(Clone, Copy, PartialEq, Eq, Debug)]
pub enum Kind {
    Letter,
    Digit,
}

impl Kind {
    pub fn has(self, b: u8) -> bool
        ensures { result ≡ belongs self b }
    {
        match self {
            Kind::Letter => b.is_ascii_lowercase(),
            Kind::Digit => b.is_ascii_digit(),
        }
    }

    // How many bytes at the front are of this kind.
    pub fn run_of(self, text: &[u8]) -> usize
        ensures { result ≡ run (belongs self) text.now }
    {
        text.iter().take_while(|b| self.has(**b)).count()
    }
}

// The token at the front of the text, and what follows it.
pub fn next_token<'a>(text: &'a [u8]) -> Option<(Token<'a>, &'a [u8])>
    ensures value { option_map read_token result ≡ token_of text.now }
    ensures whole { Splits text.now (option_map read_token result) }
{
    let (first, after) = text.split_first()?;
    match *first {
        b'(' => Some((Token::Open, after)),
        b')' => Some((Token::Close, after)),
        b'a'..=b'z' => {
            let (name, rest) = text.split_at(Kind::Letter.run_of(text));
            Some((Token::Name(name), rest))
        }
        b'0'..=b'9' => {
            let (numeral, rest) = text.split_at(Kind::Digit.run_of(text));
            Some((Token::Numeral(numeral), rest))
        }
        _ => None,
    }
}
