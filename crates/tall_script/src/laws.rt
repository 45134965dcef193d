//! Laws of the definitions, each the contract of a function without a body.
ghost use Rattle.std.specs.Prelude.{◌≡◌, ◌≤◌, ◌⊎◌, ◌++◌, ℕ, Bool, true, List, [], ◌∷◌, length, map, slice_get, Ok, Some, Result};
ghost use Rattle.std.specs.List.{All, flat_map};
ghost use Rattle.tall_column.specs.Columns.{SeenColumn};
ghost use Rattle.tall_cut.specs.declared.cutter.ReadSize.{ReadSize};
ghost use Rattle.tall_cut.specs.declared.cutter.ReadSize.TheVariants.{File};
ghost use Rattle.tall_grammar.specs.Grammar.{IsExpr, IsScript};
ghost use Rattle.tall_grammar.specs.Lexemes.{Lexeme};
ghost use Rattle.tall_grammar.specs.Trees.{Args, Body, SeenFunction, SeenScript, SeenStatement, Tree};
ghost use Rattle.tall_local.specs.CallsMade.{listing, unlisted};
ghost use Rattle.tall_local.specs.Expressions.{arguments, gives, value};
ghost use Rattle.tall_local.specs.Memory.{Memory};
ghost use Rattle.tall_local.specs.MemoryLaws.{CanBeHeld};
ghost use Rattle.tall_local.specs.Pairs.{Pair};
ghost use Rattle.tall_local.specs.StoreLaws.{IsStore};
ghost use Rattle.tall_local.specs.Values.{datastore};
ghost use Rattle.tall_outside.specs.Shelf.{Files};
ghost use Rattle.tall_script.specs.BlockLaws.{IsStoreOrStop};
ghost use Rattle.tall_store.specs.Blocks.{in_blocks};
ghost use Rattle.tall_cut.specs.Rows.{Fields};
ghost use Rattle.tall_script.specs.AnswerLaws.{HasOneAllowance, HasOneAnswer};
ghost use Rattle.tall_script.specs.Gathers.{gather_all, gather_value, gathered_value, talls_in};
ghost use Rattle.tall_script.specs.MapReduce.{map_phase, pairs_table, reduce_phase};
ghost use Rattle.tall_script.specs.MapReduceLaws.{joined_results, mapped_block, reduced_key};
ghost use Rattle.tall_script.specs.NumberLaws.{AreBelow, AreInTurn, Ascends, numbers_of, numbers_of_body, numbers_of_script, numbers_of_statements};
ghost use Rattle.tall_script.specs.Numbering.{numbered, numbered_script};
ghost use Rattle.tall_script.specs.OpeningLaws.{IsQuiet, opens_none};
ghost use Rattle.tall_script.specs.RunLaws.{BeginsWith, IsRunOf, continued};
ghost use Rattle.tall_script.specs.Runs.{run_from};
ghost use Rattle.tall_script.specs.ScriptLanguage.{Setting, script_language, script_value};
ghost use Rattle.tall_script.specs.ScriptValues.{TallValue, application_value, index_value_of};
ghost use Rattle.tall_script.specs.SizeLaws.{RunsNone, opened_in, reduce_none, resized, sizeless_run, sizeless_state, with_size};
ghost use Rattle.tall_script.specs.Statements.{body};
ghost use Rattle.tall_script.specs.States.{State, Store, empty_state, times_allowed};
ghost use Rattle.tall_script.specs.StatesFollow.{Follows, done_state};
ghost use Rattle.tall_script.specs.TallTables.{tall_of_store};
ghost use Rattle.tall_local.specs.Applications.{Application};
ghost use Rattle.tall_local.specs.Arguments.{Index, index_by};
ghost use Rattle.tall_script.specs.AddedValues.{AddsFor, AddsForIndex, AreInGraph, CellsHaveClass, HeldCellsHaveClass, IndexIsInGraph, IsInGraph, IsInMemory, PlacedValue, application_by, value_by};
ghost use Rattle.tall_script.specs.VertexLaws.{Adds, IsLower, MayFollow, MayStandBeside, variable_of};
ghost use Rattle.tall_semantics.specs.Deferred.{IsMeaning, IsOrdered, Vertex};
ghost use Rattle.tall_semantics.specs.RowsOfSpaces.{AreColumns};
ghost use Rattle.tall_semantics.specs.Faults.{At};
ghost use Rattle.tall_value.specs.declared.class.Class.{Class};
ghost use Rattle.tall_script.specs.WellFormed.{GivesStanding, GiveStanding, HaveNoFault, IsWellFormed, Stands};
ghost use Rattle.tall_semantics.specs.Talls.{Columns, Tall};
ghost use Rattle.tall_store.specs.Opening.{opening};
ghost use Rattle.tall_store.specs.Options.{SeenOptions, is_size};
ghost use Rattle.tall_store.specs.declared.faults.ReadingFault.{ReadingFault};
ghost use Rattle.tall_value.specs.Cells.{Seen};

/// The expressions of the grammar's scripts have the numbers that `numbered_script` gives: the parts in their order, then
/// the whole, from 1 on through the script.
pub fn scripts_are_numbered_in_order()
    ensures expressions { (l m n : ℕ) (ts : List Lexeme) (e : Tree) → IsExpr l m ts e n → numbered e l m ≡ (e, n) }
    ensures scripts { (ts : List Lexeme) (p : SeenScript) → IsScript ts p → numbered_script p ≡ p }
{}

/// The numbers of a script's expressions, in the order of evaluation, are 1, 2, 3 and so on: those of a statement are above
/// those of the statements before it, and those of its functions above all of them.
pub fn numbers_are_in_turn()
    ensures expressions { (l m n : ℕ) (ts : List Lexeme) (e : Tree) → IsExpr l m ts e n → AreInTurn m (numbers_of e) n }
    ensures scripts { (ts : List Lexeme) (p : SeenScript) → IsScript ts p → (next : ℕ) × AreInTurn 1 (numbers_of_script p) next }
    ensures later { (ts : List Lexeme) (p : SeenScript) (front rest : List SeenStatement) (entry : SeenStatement) → IsScript ts p → p.statements ≡ front ++ entry ∷ rest
        → AreBelow (numbers_of_statements front) (numbers_of_body entry.form) }
{}

/// An expression's number is above those of its parts, and so it is in each part.
pub fn wholes_are_above_their_parts()
    ensures { (l m n : ℕ) (ts : List Lexeme) (e : Tree) → IsExpr l m ts e n → Ascends e }
{}

/// Each vertex that an expression of a script adds to a graph keeps what the graph keeps of its numbers: of the operations of an
/// expression, where those so far have lower numbers, as `later` says of statements and `wholes_are_above_their_parts` of parts; and
/// of the variables of a datastore, which have the number and the line of its call.
pub fn added_vertices_keep_the_numbers()
    ensures expressions { (vs ws : List Vertex) (at : At) → All (IsLower at) vs → Adds at (length vs) ws → MayFollow vs ws }
    ensures variables { (vs : List Vertex) (at : At) (place : ℕ) (xs : List (ℕ × Class)) → All (MayStandBeside at place) vs → MayFollow vs (map (variable_of at place) xs) }
{}

/// The vertices that an operator, a function or an index adds to a graph, in order, are those of which its values are solutions: in
/// any solution of the longer graph the word of the definitions over the values of the operands is the value of the added places. They
/// stand in one of the forms that keep the numbers, and each value that isn't in memory is such a one.
pub fn values_are_those_of_added_vertices()
    ensures applications { (columns : Columns) (f : ℕ → Tall) (vs ws : List Vertex) (at : At) (a : Application PlacedValue) (w : PlacedValue) → AddsFor at (length vs) a ws w
        → IsMeaning columns (vs ++ ws) f → application_value at (application_by f a) ≡ Ok (value_by f w) }
    ensures indexes { (columns : Columns) (f : ℕ → Tall) (vs ws : List Vertex) (at : At) (v : PlacedValue) (i : Index PlacedValue) (w : PlacedValue) → AddsForIndex at (length vs) v i ws w
        → IsMeaning columns (vs ++ ws) f → index_value_of at (value_by f v) (Some (index_by (value_by f) i)) ≡ Ok (value_by f w) }
    ensures added { (at : At) (n : ℕ) (a : Application PlacedValue) (ws : List Vertex) (w : PlacedValue) → AddsFor at n a ws w → AreInGraph n a → Adds at n ws }
    ensures applications_complete { (at : At) (n : ℕ) (f : ℕ → Tall) (a : Application PlacedValue) (w : TallValue) → application_value at (application_by f a) ≡ Ok w
        → IsInMemory w ⊎ ((ws : List Vertex) × (v : PlacedValue) × AddsFor at n a ws v) }
    ensures indexes_complete { (at : At) (n : ℕ) (f : ℕ → Tall) (v : PlacedValue) (i : Index PlacedValue) (w : TallValue) → index_value_of at (value_by f v) (Some (index_by (value_by f) i)) ≡ Ok w
        → IsInMemory w ⊎ ((ws : List Vertex) × (x : PlacedValue) × AddsForIndex at n v i ws x) }
    ensures added_by_index { (at : At) (n : ℕ) (v : PlacedValue) (i : Index PlacedValue) (ws : List Vertex) (w : PlacedValue) → AddsForIndex at n v i ws w → IsInGraph n v → IndexIsInGraph n i → Adds at n ws }
{}

/// What a gather gives of the values of a graph has cells of its columns' classes.
pub fn gathered_values_have_their_classes()
    ensures { (columns : Columns) (of_stores : ℕ → List ℕ) (vs : List Vertex) (f : ℕ → Tall) → IsMeaning columns vs f → IsOrdered vs → AreColumns columns of_stores vs
        → (v : PlacedValue) (m : Memory) → IsInGraph (length vs) v → HeldCellsHaveClass v → gathered_value (value_by f v) ≡ Ok m → CellsHaveClass m }
{}

/// For each name of a script and files there is exactly one answer, and one number of times that a file may be opened.
pub fn a_script_has_one_answer()
    ensures answer { (files : Files) (name : List ℕ) → HasOneAnswer files name }
    ensures openings { (files : Files) (name file : List ℕ) → HasOneAllowance files name file }
{}

/// A run is that of its statements, each from the state that the one before it left, up to the first that fails: its text
/// is theirs, one after another, and its ending is that one's fault.
pub fn a_run_is_its_statements()
    ensures { (setting : Setting) (entries : List SeenStatement) (s : State Tall) → IsRunOf setting s entries (run_from setting entries s) }
{}

/// The run of a longer script is that of the shorter one, continued, and it begins with its text; after a fault nothing
/// more runs.
pub fn a_longer_run_begins_with_the_shorter()
    ensures continued { (setting : Setting) (entries more : List SeenStatement) (s : State Tall)
        → run_from setting (entries ++ more) s ≡ continued setting (run_from setting entries s) more }
    ensures text { (setting : Setting) (entries more : List SeenStatement) (s : State Tall)
        → BeginsWith (run_from setting entries s).text (run_from setting (entries ++ more) s).text }
{}

/// A run only adds datastores and openings, so each datastore keeps its place.
pub fn datastores_keep_their_places()
    ensures { (setting : Setting) (entries : List SeenStatement) (s : State Tall) → Follows s (run_from setting entries s).state }
{}

/// A longer run may open a file no less often.
pub fn openings_only_grow()
    ensures { (setting : Setting) (entries more : List SeenStatement) (s : State Tall) (file : List ℕ)
        → times_allowed file (run_from setting entries s).state.opened ≤ times_allowed file (run_from setting (entries ++ more) s).state.opened }
{}

/// A statement that makes no datastore by a call, gathers nothing and runs no mapreduce leaves what was opened.
pub fn other_statements_open_nothing()
    ensures { (setting : Setting) (line : ℕ) (shown : Bool) (b : Body) (s : State Tall) → opens_none b ≡ true → (done_state (body setting line shown b s)).opened ≡ s.opened }
{}

/// A statement that makes no datastore by a call, gathers no tall value and runs no mapreduce leaves how often each file may be
/// opened: by the calls that it made, whatever was written. To list the calls of an expression changes nothing of it.
pub fn calls_that_open_nothing_leave_what_was_opened()
    ensures statements { (setting : Setting) (line : ℕ) (shown : Bool) (b : Body) (s : State Tall) (file : List ℕ) → IsQuiet setting b s
        → times_allowed file (done_state (body setting line shown b s)).opened ≡ times_allowed file s.opened }
    ensures listed { (setting : Setting) (e : Tree) (s : State Tall) → unlisted (value (listing (script_language setting)) e (s, [])) ≡ script_value setting e s }
{}

/// ReadSize changes mapreduce alone. Options with another ReadSize open to the same datastore, in blocks of that size; it leaves
/// a datastore's tall table, with its values and faults; and a run in which no call ran a mapreduce, whatever was written, shows and
/// ends as one from a state that differs in ReadSizes alone, also in its gathers. None runs where no statement calls `mapreduce`.
pub fn read_size_changes_mapreduce_alone()
    ensures openings { (size : ReadSize) (o : SeenOptions) (files : Files) → is_size size ≡ true → is_size o.size ≡ true → opening files (with_size size o) ≡ opened_in size (opening files o) }
    ensures tables { (size : ReadSize) (d : Store) (files : Files) (place : ℕ) → tall_of_store files place (Some (resized size d)) ≡ tall_of_store files place (Some d) }
    ensures runs { (setting : Setting) (entries : List SeenStatement) (s t : State Tall) → RunsNone setting entries s → sizeless_state s ≡ sizeless_state t
        → sizeless_run (run_from setting entries s) ≡ sizeless_run (run_from setting entries t) }
    ensures uncalled { (setting : Setting) (entries : List SeenStatement) (s : State Tall) → reduce_none entries ≡ true → RunsNone setting entries s }
{}

/// Both phases of mapreduce are calls on empty stores, appended in the order of blocks and of keys. So the calls need nothing of
/// each other.
pub fn mapreduce_is_made_of_calls_on_empty_stores()
    ensures map_phase { (d : Store) (f : SeenFunction) (blocks : List (Result (List (List ℕ × SeenColumn)) ReadingFault)) (pairs : List Pair)
        → map_phase d f blocks pairs ≡ joined_results (map (mapped_block d f) blocks) pairs }
    ensures reduce_phase { (f : SeenFunction) (pairs : List Pair) (keys : List Seen) (out : List Pair) → reduce_phase f pairs keys out ≡ joined_results (map (reduced_key f pairs) keys) out }
{}

/// Each phase of mapreduce keeps the rules of its store: keys that a store takes, of one class, values of one class, and fewer than
/// 2^40 pairs; so the table of the output's pairs has cells of its columns' classes. With 'file' a block is all of a file that has a record, and of one without there is none.
pub fn phases_keep_their_stores()
    ensures map_phase { (d : Store) (f : SeenFunction) (blocks : List (Result (List (List ℕ × SeenColumn)) ReadingFault)) (pairs : List Pair) → IsStore pairs → IsStoreOrStop (map_phase d f blocks pairs) }
    ensures reduce_phase { (f : SeenFunction) (pairs : List Pair) (keys : List Seen) (out : List Pair) → IsStore out → IsStoreOrStop (reduce_phase f pairs keys out) }
    ensures table { (out : List Pair) → IsStore out → CanBeHeld (pairs_table out) }
    ensures whole_file { (first : Fields) (rest : List Fields) → in_blocks File (first ∷ rest) ≡ (first ∷ rest) ∷ [] }
    ensures no_record { in_blocks File [] ≡ [] }
{}

/// What is named in a script's state is there: the place of a datastore is that of one that was made, tall values read such
/// datastores alone, and their reading faults are those of such datastores, each at a row. A run keeps it so, and it is so at its
/// start; and the values inside a statement are such values too, which operators, indexes, gathers and mapreduce are given.
pub fn what_is_named_is_there()
    ensures start { IsWellFormed empty_state }
    ensures runs { (setting : Setting) (entries : List SeenStatement) (s : State Tall) → IsWellFormed s → IsWellFormed (run_from setting entries s).state }
    ensures expressions { (setting : Setting) (e : Tree) (s : State Tall) → IsWellFormed s → GivesStanding (script_value setting e s) }
    ensures arguments { (setting : Setting) (args : Args) (takes : Bool) (s : State Tall) → IsWellFormed s → GiveStanding (arguments (script_language setting) args takes s) }
    ensures stores { (s : State Tall) (place : ℕ) → Stands (length s.stores) (datastore place) → (d : Store) × (slice_get s.stores place ≡ Some d) }
{}

/// Where a gather gives values, no tall value among its arguments has a fault: so the cells of a fault are never taken for a value's.
pub fn a_gather_gives_values_without_faults()
    ensures one { (line : ℕ) (v : TallValue) (s t : State Tall) (m : Memory) → gather_value line v s ≡ gives m t → HaveNoFault (flat_map talls_in (v ∷ [])) }
    ensures all { (line : ℕ) (vs : List TallValue) (s t : State Tall) (ms : List Memory) → gather_all line vs s ≡ gives ms t → HaveNoFault (flat_map talls_in vs) }
{}
