//! The tokens of a script, and the first bad token of one that has such. docs/LANGUAGE.md says what a script's text is; it
//! is a profile of the MathWorks language (pages "Comments", "Continue Long Statements on Multiple Lines", "Variable
//! Names" and "Special Characters"). A token's text is the slice of its span. The grammar of tokens is a definition, rule by
//! rule (specs/TokenGrammar, GapGrammar, BadTokens and ScriptGrammar), and `tokens_follow_the_grammar` ties what is read to it.
#![tactic(auto)]

mod bytes;
mod laws;
mod lexer;
mod numbers;
mod pieces;
mod places;
pub mod tokens;

pub use laws::{bytes_follow_the_grammar, tokens_are_slices, tokens_follow_the_grammar};
pub use lexer::{lex, lex_bytes};
pub use tokens::{LexFault, Token, TokenKind};

#[cfg(test)]
mod tests;
