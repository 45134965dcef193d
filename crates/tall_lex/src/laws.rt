//! Laws of the definitions of tokens, the contracts of functions without a body.
ghost use Rattle.std.specs.Prelude.{◌≡◌, ℕ, List, Ok, Err};
ghost use Rattle.std.specs.List.{AllByRecursion};
ghost use Rattle.tall_lex.specs.declared.tokens.Token.{Token};
ghost use Rattle.tall_lex.specs.Tokens.{tokens_of, tokens_of_bytes};
ghost use Rattle.tall_lex.specs.ScriptGrammar.{HasTokens, HasBadToken, BytesHaveTokens, BytesHaveBadToken, IsTokenOf};

/// The reading of scripts is the grammar of tokens: a script that the grammar cuts into tokens has these and no others,
/// one that has a bad token by the grammar is refused at it, and what is read or refused is so by the grammar. So a script
/// has one row of tokens or one first bad token, and never both.
pub fn tokens_follow_the_grammar()
    ensures derived { (script : List ℕ) (tokens : List Token) → HasTokens script tokens → tokens_of script ≡ Ok tokens }
    ensures read { (script : List ℕ) (tokens : List Token) → tokens_of script ≡ Ok tokens → HasTokens script tokens }
    ensures bad { (script : List ℕ) (line place : ℕ) → HasBadToken script line place → tokens_of script ≡ Err (line, place) }
    ensures refused { (script : List ℕ) (line place : ℕ) → tokens_of script ≡ Err (line, place) → HasBadToken script line place }
{}

/// The same of scripts of any bytes.
pub fn bytes_follow_the_grammar()
    ensures derived { (bytes : List ℕ) (tokens : List Token) → BytesHaveTokens bytes tokens → tokens_of_bytes bytes ≡ Ok tokens }
    ensures read { (bytes : List ℕ) (tokens : List Token) → tokens_of_bytes bytes ≡ Ok tokens → BytesHaveTokens bytes tokens }
    ensures bad { (bytes : List ℕ) (line place : ℕ) → BytesHaveBadToken bytes line place → tokens_of_bytes bytes ≡ Err (line, place) }
    ensures refused { (bytes : List ℕ) (line place : ℕ) → tokens_of_bytes bytes ≡ Err (line, place) → BytesHaveBadToken bytes line place }
{}

/// Each token of a script is the slice of its span: the slice is a token of its kind by the grammar, and its line is the one
/// that its first byte stands in.
pub fn tokens_are_slices()
    ensures { (script : List ℕ) (tokens : List Token) → tokens_of script ≡ Ok tokens → AllByRecursion (IsTokenOf script) tokens }
{}
