//! Laws of the definitions, each the contract of a function without a body.
ghost use Rattle.std.specs.Prelude.{◌≡◌, ◌≤◌, ◌<◌, ℕ, false, length, List, [], None, Ok, Option, Some, true};
ghost use Rattle.tall_grammar.specs.Trees.{SeenFunction, Steps, Tree};
ghost use Rattle.tall_local.specs.CallLaws.{Proceeds, HaveOneClass, state_of_run};
ghost use Rattle.tall_column.specs.Columns.{SeenColumn};
ghost use Rattle.tall_local.specs.Calls.{behind_pairs, call_map, call_of, call_reduce, local_value, run_steps, turn_limit, while_turns};
ghost use Rattle.tall_local.specs.Expressions.{value};
ghost use Rattle.tall_local.specs.FunctionFaults.{IsOfFunctions};
ghost use Rattle.tall_local.specs.declared.functions.ValueFunction.{ValueFunction};
ghost use Rattle.tall_local.specs.Applications.{Application, application, takes};
ghost use Rattle.tall_local.specs.Arguments.{Index};
ghost use Rattle.tall_local.specs.Memory.{Memory, scalar_in};
ghost use Rattle.tall_local.specs.MemoryFunctions.{memory_application, memory_summary};
ghost use Rattle.tall_local.specs.MemoryIndexing.{memory_index, memory_member};
ghost use Rattle.tall_local.specs.MemoryLaws.{CanBeHeld, GivesHeld, HasItsClass, IsTableOf, NamesCanBeHeld, OnGiven, OperandsCanBeHeld};
ghost use Rattle.tall_local.specs.MemoryOperators.{memory_binary, memory_unary};
ghost use Rattle.tall_local.specs.Locals.{Held, Locals, function_language};
ghost use Rattle.tall_local.specs.Pairs.{Pair, appended, is_key_of, same_class, with_pair};
ghost use Rattle.tall_local.specs.StateLaws.{TakesOn, state_after};
ghost use Rattle.tall_local.specs.StoreLaws.{IsStore};
ghost use Rattle.tall_value.specs.Cells.{Seen};
ghost use Rattle.tall_value.specs.FunctionClasses.{summary_classes};
ghost use Rattle.tall_value.specs.SummaryNames.{summary_names};
ghost use Rattle.tall_value.specs.declared.class.Class.{Class};
ghost use Rattle.tall_value.specs.declared.functions.Method.{Method};
ghost use Rattle.tall_value.specs.declared.operators.Binary.{Binary};
ghost use Rattle.tall_value.specs.declared.operators.Unary.{Unary};

/// An expression of a function takes values of the iterator, which never goes back, and changes nothing else.
pub fn expressions_of_functions_take_values_alone()
    ensures { (key_values : List Seen) (e : Tree) (s : Locals) → TakesOn s (state_after (value (function_language key_values) e s)) }
{}

/// The statements of a function begin turns, whose number stays below the limit, take values of the iterator, and add pairs
/// behind those of the store, whose keys then still have one class, and whose values have one.
pub fn statements_of_functions_go_on()
    ensures { (key_values : List Seen) (bs : Steps) (s : Locals) → Proceeds s (state_of_run (run_steps key_values bs s)) }
{}

/// After a call the keys of its store have one class, and the values have one, if they had before it.
pub fn a_store_keeps_its_classes()
    ensures { (f : SeenFunction) (arguments : List Held) (key_values : List Seen) (pairs : List Pair) → HaveOneClass pairs → HaveOneClass (call_of f arguments key_values pairs).pairs }
{}

/// A call on a store is the call on an empty store, appended: the first of its pairs that doesn't fit the store comes before
/// the call's own fault.
pub fn a_call_on_a_store_is_appended()
    ensures { (f : SeenFunction) (arguments : List Held) (key_values : List Seen) (pairs : List Pair) → call_of f arguments key_values pairs ≡ behind_pairs pairs (call_of f arguments key_values []) }
{}

/// The fault of a call of a map or of a reduce function is one of the list of docs/LANGUAGE.md, mapreduce: none of files, of
/// their fields, or of tall values of different rows.
pub fn functions_have_the_faults_of_their_list()
    ensures map { (f : SeenFunction) (block : List (List ℕ × SeenColumn)) (pairs : List Pair) → IsOfFunctions (call_map f block pairs).stop }
    ensures reduce { (f : SeenFunction) (key : Seen) (key_values : List Seen) (pairs : List Pair) → IsOfFunctions (call_reduce f key key_values pairs).stop }
{}

/// A store has keys that a store takes, of one class, values of one class, and fewer than 2^40 pairs: at its start, with each
/// pair that it takes, with the pairs of another store appended to it, and after each call. Of one class, keys are equal where their
/// values are.
pub fn a_store_keeps_its_rules()
    ensures start { IsStore [] }
    ensures pair { (pairs more : List Pair) (p : Pair) → IsStore pairs → with_pair pairs p ≡ Ok more → IsStore more }
    ensures appended { (pairs own : List Pair) → IsStore pairs → IsStore (appended pairs own).pairs }
    ensures same_key { (key : Seen) (p : Pair) → same_class key p.key ≡ true → is_key_of key p ≡ true → key ≡ p.key }
    ensures own_key { (p : Pair) → is_key_of p.key p ≡ true }
    ensures calls { (f : SeenFunction) (arguments : List Held) (key_values : List Seen) (pairs : List Pair) → IsStore pairs → IsStore (call_of f arguments key_values pairs).pairs }
{}

/// Values in memory are such as columns and tables can hold: cells have the class of their column, and a table has distinct names
/// and columns of one height. Operators, indexes and functions give such values of such values, and so do the expressions and statements of
/// a function. The table of `groupsummary` has the names and the classes that its tables say, and no column more or less.
pub fn values_in_memory_have_their_classes()
    ensures unary { (op : Unary) (v : Memory) → CanBeHeld v → OnGiven CanBeHeld (memory_unary op v) }
    ensures binary { (op : Binary) (v w : Memory) → CanBeHeld v → CanBeHeld w → OnGiven CanBeHeld (memory_binary op v w) }
    ensures index { (v : Memory) (i : Option (Index Memory)) → CanBeHeld v → OnGiven CanBeHeld (memory_index v i) }
    ensures member { (v : Memory) (name : List ℕ) → CanBeHeld v → OnGiven CanBeHeld (memory_member v name) }
    ensures functions { (a : Application Memory) → OperandsCanBeHeld a → OnGiven CanBeHeld (memory_application a) }
    ensures expressions { (key_values : List Seen) (e : Tree) (s : Locals) → NamesCanBeHeld s.names → GivesHeld (value (function_language key_values) e s) }
    ensures statements { (key_values : List Seen) (bs : Steps) (s : Locals) → NamesCanBeHeld s.names → NamesCanBeHeld (state_of_run (run_steps key_values bs s)).names }
    ensures groups { (m : Method) (key data' : List ℕ) (g v : SeenColumn) (classes : List Class) (w : Memory) → length g.cells ≡ length v.cells → HasItsClass g → HasItsClass v
        → summary_classes m g.class v.class ≡ Ok classes → memory_summary m (summary_names m key data') g v ≡ Ok w → IsTableOf (summary_names m key data') classes w }
{}

/// `takes` says of numbers of arguments what `application` says of arguments: so many are too few or too many exactly where no
/// arguments in memory of that number have an application.
pub fn numbers_of_arguments_are_those_of_applications()
    ensures refused { (f : ValueFunction) (vs : List Memory) → takes f (length vs) ≡ false → application scalar_in f vs ≡ None }
    ensures taken { (f : ValueFunction) (n : ℕ) → takes f n ≡ true → (vs : List Memory) × (a : Application Memory) × (length vs ≡ n) × (application scalar_in f vs ≡ Some a) }
{}

/// The turns that a `while` is given never run out, since turn 2^24 is refused before: with more of them it comes to the same.
pub fn the_turns_of_a_loop_suffice()
    ensures { (key_values : List Seen) (m line : ℕ) (e : Tree) (b : Steps) (s : Locals) → s.turns < turn_limit → turn_limit ≤ m
        → while_turns m line e (local_value key_values e) (λ t. run_steps key_values b t) s
        ≡ while_turns turn_limit line e (local_value key_values e) (λ t. run_steps key_values b t) s }
{}
