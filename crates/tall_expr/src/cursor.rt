//! A cursor over the tokens of a script.
ghost use Rattle.std.specs.Prelude.{◌≡◌, option_map, length, map, string_bytes, IfOk, Ok};
ghost use Rattle.std.specs.List.{AllByRecursion, list_any};
ghost use Rattle.std.specs.Str.{IsUtf8};
ghost use Rattle.tall_lex.specs.Tokens.{token_text};
ghost use Rattle.tall_grammar.specs.declared.faults.Fault.TheVariants.{Stop};
ghost use Rattle.tall_grammar.specs.Lexemes.{is_the_sign, is_the_word, is_separator, is_text, lexeme_of, lexemes_of, prefix_sign, text_value};
ghost use Rattle.tall_grammar.specs.Readers as spec;
ghost use Rattle.tall_grammar.specs.Readers.{input, behind, front_is, front_as, operator_of, text_if};
ghost use Rattle.tall_grammar.specs.ExprReader.{operators};
ghost use Rattle.tall_grammar.specs.ScriptReader as reader;
ghost use Rattle.tall_expr.specs.Gives.{Gives, is_sign_token, is_line_end_token, IsSlice, itself};

use crate::operators::{operator, prefix};
use std::collections::BTreeSet;
use std::marker::Model;
use std::str::from_utf8_unchecked;
use tall_grammar::expressions::{Infix, Prefix};
use tall_grammar::faults::Fault;
use tall_lex::{Token, TokenKind};

/// The tokens of a script that are left, and the number of the next expression. What can't take the first token answers
/// `Fault::Stop`, with the number of tokens left.
#[derive(Drop)]
pub struct Cursor<'a> {
    script: &'a [u8],
    rest: &'a [Token],
    next: u32,
}

impl<'a> Model for Cursor<'a> {
    ghost use Rattle.tall_grammar.specs.Readers.{Input};

    ghost Value = { Input };

    ghost use Rattle.tall_expr.specs.Cursor.{input_of, AreSlices};

    ghost view = { input_of };

    ghost invariant = { AreSlices };
}

/// The bytes of a token.
fn text_of<'a>(script: &'a [u8], token: &Token) -> &'a [u8]
    requires { IsSlice script.now token.now }
    ensures { result.now ≡ token_text script.now token.now }
{
    &script[token.from..token.to]
}

/// Is the token this sign?
fn is_the_sign(script: &[u8], token: &Token, sign: &[u8]) -> bool
    requires { IsSlice script.now token.now }
    ensures { result ≡ is_the_sign sign.now (lexeme_of script.now token.now) }
{
    token.kind == TokenKind::Sign && text_of(script, token) == sign
}

/// Is the token this name?
fn is_the_name(script: &[u8], token: &Token, name: &[u8]) -> bool
    requires { IsSlice script.now token.now }
    ensures { result ≡ reader.is_the_name name.now (lexeme_of script.now token.now) }
{
    token.kind == TokenKind::Name && text_of(script, token) == name
}

/// Is the text one of these names?
fn is_taken(names: &BTreeSet<String>, text: &str) -> bool
    ensures { result ≡ list_any (is_text text.now) (map string_bytes names.now.keys) }
{
    names.contains(text)
}

impl<'a> Cursor<'a> {
    /// Before the tokens of a script, which are spans of its bytes. The first expression has the number 1.
    pub fn new(script: &'a [u8], tokens: &'a [Token]) -> Cursor<'a>
        requires { AllByRecursion (IsSlice script.now) tokens.now }
        ensures { result ≡ input (lexemes_of script.now tokens.now) 1 }
    {
        Cursor {
            script,
            rest: tokens,
            next: 1,
        }
    }

    /// Why no rule goes on with the first token.
    fn stop(&self) -> Fault
        ensures { result ≡ Stop (length self.now.rest) }
    {
        Fault::Stop(self.rest.len())
    }

    /// Is the first token this sign?
    pub fn is_sign(&self, sign: &[u8]) -> bool
        ensures { result ≡ front_is (is_the_sign sign.now) self.now.rest }
    {
        match self.rest {
            [token, ..] => token.kind == TokenKind::Sign && text_of(self.script, token) == sign,
            [] => false,
        }
    }

    /// Is the first token this word?
    pub fn is_word(&self, word: &[u8]) -> bool
        ensures { result ≡ front_is (is_the_word word.now) self.now.rest }
    {
        match self.rest {
            [token, ..] => token.kind == TokenKind::Word && text_of(self.script, token) == word,
            [] => false,
        }
    }

    /// Is the first token a name?
    pub fn is_name(&self) -> bool
        ensures { result ≡ front_is spec.is_name self.now.rest }
    {
        match self.rest {
            [token, ..] => token.kind == TokenKind::Name,
            [] => false,
        }
    }

    /// Is the first token a text?
    pub(crate) fn is_text(&self) -> bool
        ensures { result ≡ front_is spec.is_text_token self.now.rest }
    {
        match self.rest {
            [token, ..] => token.kind == TokenKind::Text,
            [] => false,
        }
    }

    /// Is the first token a number?
    pub(crate) fn is_number(&self) -> bool
        ensures { result ≡ front_is spec.is_number self.now.rest }
    {
        match self.rest {
            [token, ..] => token.kind == TokenKind::Number,
            [] => false,
        }
    }

    /// The bytes of the first token, if it is a sign.
    fn sign(&self) -> Option<&'a [u8]>
        ensures { option_map (λ s. s.now) result ≡ front_as (text_if is_sign_token) self.now.rest }
    {
        match self.rest {
            [token, ..] if token.kind == TokenKind::Sign => Some(text_of(self.script, token)),
            _ => None,
        }
    }

    /// The operator of a level that the first token is.
    #[tactic(auto, using(crate::proofs::Turns::of_sign, crate::proofs::Turns::of_no_sign))]
    pub(crate) fn operator(&self, level: u32) -> Option<Infix>
        ensures { result ≡ front_as (operator_of (operators level)) self.now.rest }
    {
        match self.sign() {
            Some(sign) => operator(level, sign),
            None => None,
        }
    }

    /// The operator that the first token is before an operand.
    #[tactic(auto, using(crate::proofs::Turns::of_sign, crate::proofs::Turns::of_no_sign))]
    pub(crate) fn prefix(&self) -> Option<Prefix>
        ensures { result ≡ front_as (operator_of prefix_sign) self.now.rest }
    {
        match self.sign() {
            Some(sign) => prefix(sign),
            None => None,
        }
    }

    /// Passes over the first token, if there is one.
    pub fn take(&mut self)
        ensures { self.new ≡ behind self.old }
    {
        if let [_, rest @ ..] = self.rest {
            self.rest = rest;
        }
    }

    /// Does a name come next, or a comma?
    pub fn goes_on_with_name(&self) -> bool
        ensures { result ≡ front_is (spec.goes_on_with spec.is_name) self.now.rest }
    {
        self.is_name() || self.is_sign(b",")
    }

    /// Takes this name.
    pub fn expect_name(&mut self, name: &[u8]) -> Result<(), Fault>
        ensures { Gives itself (spec.expect (reader.is_the_name name.now) self.old) result self.new }
    {
        match self.rest {
            [token, rest @ ..] if is_the_name(self.script, token, name) => {
                self.rest = rest;
                Ok(())
            }
            _ => Err(self.stop()),
        }
    }

    /// Takes a name that is none of these.
    pub fn take_new_name(&mut self, before: &BTreeSet<String>) -> Result<&'a str, Fault>
        ensures { Gives (λ s. s.now) (spec.take_as (reader.new_name (map string_bytes before.now.keys)) self.old) result self.new }
    {
        match self.rest {
            [token, rest @ ..] if token.kind == TokenKind::Name => {
                // The bytes of a name are ASCII.
                let name = unsafe { from_utf8_unchecked(text_of(self.script, token)) };
                if is_taken(before, name) {
                    return Err(self.stop());
                }
                self.rest = rest;
                Ok(name)
            }
            _ => Err(self.stop()),
        }
    }

    /// Does an assignment to a name begin here?
    pub fn begins_assignment(&self) -> bool
        ensures { result ≡ reader.begins_assignment self.now.rest }
    {
        match self.rest {
            [name, equals, ..] => {
                name.kind == TokenKind::Name && is_the_sign(self.script, equals, b"=")
            }
            _ => false,
        }
    }

    /// Does an assignment to a property begin here?
    pub fn begins_property(&self) -> bool
        ensures { result ≡ reader.begins_property self.now.rest }
    {
        match self.rest {
            [name, point, property, equals, ..] => {
                name.kind == TokenKind::Name
                    && is_the_sign(self.script, point, b".")
                    && property.kind == TokenKind::Name
                    && is_the_sign(self.script, equals, b"=")
            }
            _ => false,
        }
    }

    /// Does a list of targets begin here?
    pub fn begins_targets(&self) -> bool
        ensures { result ≡ reader.begins_targets self.now.rest }
    {
        match self.rest {
            [bracket, name, ..] => {
                is_the_sign(self.script, bracket, b"[") && name.kind == TokenKind::Name
            }
            _ => false,
        }
    }

    /// Do the statements of the script end here?
    pub fn ends_statements(&self) -> bool
        ensures { result ≡ reader.ends_statements self.now.rest }
    {
        self.is_at_end() || self.is_word(b"function")
    }

    /// The line of the first token, if it is this word.
    pub fn word_line(&self, word: &[u8]) -> Option<u32>
        ensures { result ≡ front_as (reader.word_line word.now) self.now.rest }
    {
        match self.rest {
            [token, ..] if token.kind == TokenKind::Word && text_of(self.script, token) == word => {
                Some(token.line)
            }
            _ => None,
        }
    }

    /// Does a statement of a function begin here?
    pub fn begins_step(&self) -> bool
        ensures { result ≡ front_is reader.begins_step self.now.rest }
    {
        self.is_name() || self.is_word(b"if") || self.is_word(b"while") || self.is_word(b"for")
    }

    /// Is no token left?
    pub fn is_at_end(&self) -> bool
        ensures { result ≡ reader.at_end self.now.rest }
    {
        match self.rest {
            [] => true,
            [_, ..] => false,
        }
    }

    /// The line of the first token, or 0 where there is none.
    pub fn line(&self) -> u32
        ensures { result ≡ reader.line_here self.now.rest }
    {
        match self.rest {
            [token, ..] => token.line,
            [] => 0,
        }
    }

    /// Is the first token a line end?
    fn is_line_end(&self) -> bool
        ensures { result ≡ front_is is_line_end_token self.now.rest }
    {
        match self.rest {
            [token, ..] => token.kind == TokenKind::LineEnd,
            [] => false,
        }
    }

    /// Is the first token a separator?
    fn is_separator(&self) -> bool
        ensures { result ≡ front_is is_separator self.now.rest }
    {
        self.is_sign(b";") || self.is_sign(b",") || self.is_line_end()
    }

    /// Passes over the separators that come next.
    pub fn skip_separators(&mut self)
        ensures { spec.skip_separators self.old ≡ Ok (tt, self.new) }
    {
        while self.is_separator() {
            self.take();
        }
    }

    /// Takes separators. Is a statement before them shown?
    pub fn separators(&mut self) -> Result<bool, Fault>
        ensures { Gives itself (reader.separators self.old) result self.new }
    {
        if !self.is_separator() {
            return Err(self.stop());
        }
        let shown = !self.is_sign(b";");
        self.take();
        self.skip_separators();
        Ok(shown)
    }

    /// Takes separators, or stands at the end of the text. Is a statement before it shown?
    pub fn ended(&mut self) -> Result<bool, Fault>
        ensures { Gives itself (reader.ended self.old) result self.new }
    {
        if self.is_at_end() {
            return Ok(true);
        }
        self.separators()
    }

    /// Takes this sign.
    pub fn expect_sign(&mut self, sign: &[u8]) -> Result<(), Fault>
        ensures { Gives itself (spec.expect_sign sign.now self.old) result self.new }
    {
        if !self.is_sign(sign) {
            return Err(self.stop());
        }
        self.take();
        Ok(())
    }

    /// Passes over a comma, if one stands first.
    pub fn skip_comma(&mut self)
        ensures { spec.optional_comma self.old ≡ Ok (tt, self.new) }
    {
        if self.is_sign(b",") {
            self.take();
        }
    }

    /// Takes this word.
    pub fn expect_word(&mut self, word: &[u8]) -> Result<(), Fault>
        ensures { Gives itself (spec.expect_word word.now self.old) result self.new }
    {
        if !self.is_word(word) {
            return Err(self.stop());
        }
        self.take();
        Ok(())
    }

    /// Takes a name.
    pub fn take_name(&mut self) -> Result<&'a str, Fault>
        ensures { Gives (λ s. s.now) (spec.take_text spec.is_name self.old) result self.new }
    {
        match self.rest {
            [token, rest @ ..] if token.kind == TokenKind::Name => {
                self.rest = rest;
                // The bytes of a name are ASCII.
                Ok(unsafe { from_utf8_unchecked(text_of(self.script, token)) })
            }
            _ => Err(self.stop()),
        }
    }

    /// Takes a text, with its quotes.
    pub(crate) fn take_text(&mut self) -> Result<&'a [u8], Fault>
        ensures read { Gives (λ s. s.now) (spec.take_text spec.is_text_token self.old) result self.new }
        ensures value { IfOk result (λ s. IsUtf8 (text_value s.now)) }
    {
        match self.rest {
            [token, rest @ ..] if token.kind == TokenKind::Text => {
                self.rest = rest;
                Ok(text_of(self.script, token))
            }
            _ => Err(self.stop()),
        }
    }

    /// Takes a number, as it is spelled.
    pub(crate) fn take_number(&mut self) -> Result<&'a [u8], Fault>
        ensures { Gives (λ s. s.now) (spec.take_text spec.is_number self.old) result self.new }
    {
        match self.rest {
            [token, rest @ ..] if token.kind == TokenKind::Number => {
                self.rest = rest;
                Ok(text_of(self.script, token))
            }
            _ => Err(self.stop()),
        }
    }

    /// The number of an expression that is whole now.
    pub(crate) fn number(&mut self) -> Result<u32, Fault>
        ensures { Gives itself (spec.numbered itself self.old) result self.new }
    {
        let number = self.next;
        self.next = number.checked_add(1).ok_or(Fault::Memory)?;
        Ok(number)
    }
}
