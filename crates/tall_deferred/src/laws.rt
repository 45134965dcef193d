//! Laws of numbers, for the evaluation of a script: each the contract of a function without a body.
ghost use Rattle.std.specs.Prelude.{◌<◌, ◌≤◌, ℕ, List, suc};
ghost use Rattle.std.specs.List.{All};
ghost use Rattle.tall_grammar.specs.Grammar.{IsExpr};
ghost use Rattle.tall_grammar.specs.Lexemes.{Lexeme};
ghost use Rattle.tall_grammar.specs.Trees.{Args, Tree};
ghost use Rattle.tall_script.specs.NumberLaws.{AreInTurn, numbers_of, numbers_of_args};
ghost use Rattle.tall_script.specs.VertexLaws.{IsLower};
ghost use Rattle.tall_semantics.specs.Deferred.{IsMeaning, Vertex};
ghost use Rattle.tall_semantics.specs.Faults.{At};
ghost use Rattle.tall_semantics.specs.Talls.{Columns, Tall};
ghost use Rattle.tall_deferred.specs.Answers.{Extends};
ghost use Rattle.tall_deferred.specs.declared.values.ScriptRef.{ScriptRef};
ghost use Rattle.tall_deferred.specs.declared.values.ScriptValue.{ScriptValue};
ghost use Rattle.tall_deferred.specs.Turns.{ArgsAreInTurn, IsAtMost, IsInTurn};
ghost use Rattle.tall_deferred.specs.Values.{IsLent, IsValue};

/// Expressions whose numbers are in turn, as those of each script are, are evaluated in the order of their numbers: each part
/// after the one before it, and the whole after its parts.
pub fn numbers_in_turn_are_in_order()
    ensures expressions { (e : Tree) (m n : ℕ) → AreInTurn m (numbers_of e) n → IsInTurn e m n }
    ensures arguments { (args : Args) (a n : ℕ) → AreInTurn (suc a) (numbers_of_args args) n → ArgsAreInTurn a args n }
    ensures scripts { (l m n : ℕ) (ts : List Lexeme) (e : Tree) → IsExpr l m ts e n → IsInTurn e m n }
{}

/// What an expression leaves of a graph whose expressions have lower numbers has none with a greater number. So the next
/// expression, whose number is greater, finds lower numbers alone, as operators, indexes and functions ask.
pub fn expressions_leave_lower_numbers()
    ensures added { (at : At) (old new : List Vertex) → Extends at old new → All (IsLower at) old → All (IsAtMost at) new }
    ensures next { (at next : At) (vs : List Vertex) → at.number < next.number → All (IsAtMost at) vs → All (IsLower next) vs }
{}

/// Values stay when the graph grows: their nodes are there, and what they mean by a solution later they meant before.
pub fn values_stay()
    ensures kept { (n m : ℕ) (v : ScriptValue) → n ≤ m → IsValue n v → IsValue m v }
    ensures lent { (n m : ℕ) (v : ScriptRef) → n ≤ m → IsLent n v → IsLent m v }
    ensures before { (at : At) (old new : List Vertex) (columns : Columns) (f : ℕ → Tall) → Extends at old new → IsMeaning columns new f → IsMeaning columns old f }
{}
