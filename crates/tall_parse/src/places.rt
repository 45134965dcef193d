//! Tokens in their text, and lines.
ghost use Rattle.std.specs.Prelude.{◌≡◌, ◌≤◌, ◌-◌, length, drop};
ghost use Rattle.tall_expr.specs.Gives.{IsSlice};
ghost use Rattle.tall_grammar.specs.Lexemes.{lexemes_of};
ghost use Rattle.tall_grammar.specs.Refusals.{last_line, longest};
ghost use Rattle.tall_grammar.specs.Verdicts.{line_from};
ghost use Rattle.tall_lex.specs.Tokens.{token_text};

use tall_lex::Token;

/// The bytes of a token.
pub fn bytes_of<'a>(text: &'a [u8], token: &Token) -> &'a [u8]
    requires { IsSlice text.now token.now }
    ensures { result.now ≡ token_text text.now token.now }
{
    &text[token.from..token.to]
}

/// The line at the end of a text, from 1: one more than the text has line feeds.
#[tactic(auto, using(crate::proofs::Lines::last_line_is))]
pub fn last_line(text: &[u8]) -> u32
    requires { length text.now ≤ longest }
    ensures { result ≡ last_line text.now }
{
    let feeds = text.iter().filter(|byte| **byte == b'\n').count();
    1 + feeds as u32
}

/// The line of the token before which so many tokens are left, that token among them; where none are, the last line of
/// the text.
#[tactic(auto, using(crate::proofs::Lines::line_at, crate::proofs::Lines::no_line_at))]
pub fn line_before(text: &[u8], tokens: &[Token], left: usize) -> u32
    requires { length text.now ≤ longest }
    ensures { result ≡ line_from (last_line text.now) (drop (length tokens.now - left) (lexemes_of text.now tokens.now)) }
{
    match tokens.get(tokens.len().saturating_sub(left)) {
        Some(token) => token.line,
        None => last_line(text),
    }
}
