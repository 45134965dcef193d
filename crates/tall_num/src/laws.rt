//! A law of the definitions of fields, the contract of a function without a body.
ghost use Rattle.std.specs.Prelude.{◌≡◌, ℕ, List, Some};
ghost use Rattle.tall_num.specs.Spelling.{Spelling, spells};
ghost use Rattle.tall_num.specs.Grammar.{Spells};

/// The reading of fields is their grammar: what the grammar derives is read as what it spells, and what is read is
/// derived. So a field spells one number at most.
pub fn fields_follow_the_grammar()
    ensures derived { (bytes : List ℕ) (s : Spelling) → Spells bytes s → spells bytes ≡ Some s }
    ensures read { (bytes : List ℕ) (s : Spelling) → spells bytes ≡ Some s → Spells bytes s }
{}
