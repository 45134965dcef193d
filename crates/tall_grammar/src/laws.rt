//! Laws of the definitions of scripts, the contracts of functions without a body.
ghost use Rattle.std.specs.Prelude.{◌≡◌, ◌<◌, ℕ, List, length, None, Some};
ghost use Rattle.tall_grammar.specs.Lexemes.{Lexeme};
ghost use Rattle.tall_grammar.specs.Readers.{input};
ghost use Rattle.tall_grammar.specs.Refusals.{Parses, Reads, Verdict, limit, too_deep};
ghost use Rattle.tall_grammar.specs.ScriptReader.{program};
ghost use Rattle.tall_grammar.specs.Verdicts.{said, verdict};

/// What the reader from left to right says of tokens is what the grammar says of them, and the grammar says nothing else:
/// the one script, the line of the first token with which no script goes on, or the line of the first expression that is
/// too high (docs/LANGUAGE.md, "Grammar"). The tokens are those of a script whose brackets are not too deep; the reader is
/// given a number of turns and a depth, and says nothing where these run out.
pub fn the_reader_tells_the_answer()
    ensures told { (turns depth last : ℕ) (ts : List Lexeme) (answer : Verdict) → too_deep ts ≡ None → said last ts (program turns depth (input ts 1)) ≡ Some answer → Reads last ts answer }
    ensures alone { (turns depth last : ℕ) (ts : List Lexeme) (answer other : Verdict) → too_deep ts ≡ None → said last ts (program turns depth (input ts 1)) ≡ Some answer → Reads last ts other → other ≡ answer }
{}

/// What the reader says of bytes is what they are as a script: too long, a first bad token, brackets too deep, or what the
/// reader tells of their tokens. So a row that computes shows that bytes are a script, or are none, and why.
pub fn the_verdict_is_the_answer()
    ensures { (turns depth : ℕ) (bytes : List ℕ) (answer : Verdict) → verdict turns depth bytes ≡ Some answer → Parses bytes answer }
{}

/// With more turns than there are tokens, or bytes, and a depth above the limit, the reader never runs out. So each text has
/// an answer, and no other.
pub fn each_text_has_one_answer()
    ensures lasts { (turns depth last : ℕ) (ts : List Lexeme) → too_deep ts ≡ None → length ts < turns → limit < depth → (answer : Verdict) × (said last ts (program turns depth (input ts 1)) ≡ Some answer) }
    ensures found { (turns depth : ℕ) (bytes : List ℕ) → length bytes < turns → limit < depth → (answer : Verdict) × (verdict turns depth bytes ≡ Some answer) }
    ensures some { (bytes : List ℕ) → (answer : Verdict) × Parses bytes answer }
    ensures alone { (bytes : List ℕ) (answer other : Verdict) → Parses bytes answer → Parses bytes other → answer ≡ other }
{}
