//! Laws of the definitions, each the contract of a function without a body.
ghost use Rattle.std.specs.Prelude.{◌≡◌, ◌≤◌, ◌+◌, ◌++◌, ◌⊎◌, ◌↔◌, ℕ, List, [], ◌∷◌, length, map, Option, None, Some, Ok, slice_get};
ghost use Rattle.std.specs.Bool.{Decides};
ghost use Rattle.tall_semantics.specs.ClassesOfCells.{HaveClass};
ghost use Rattle.tall_semantics.specs.Deferred.{AllBelow, AreThere, DependsOn, IsAmong, IsMeaning, IsOrdered, Under, Vertex, fault_in, least_in, own_in};
ghost use Rattle.tall_semantics.specs.DeferredRows.{added, both_columns};
ghost use Rattle.tall_semantics.specs.Equality.{same_op, same_space, same_tree};
ghost use Rattle.tall_semantics.specs.Faults.{Fault, earlier, fault_seen, precedes};
ghost use Rattle.tall_semantics.specs.Forms.{form, space_number};
ghost use Rattle.tall_semantics.specs.InOrder.{IsAccepted, IsSound, tall_in, talls};
ghost use Rattle.tall_semantics.specs.Least.{IsBelow, IsLeast};
ghost use Rattle.tall_semantics.specs.Levels.{After, IsBefore, IsNumbered, IsWork, Nodes, Passed, UpTo};
ghost use Rattle.tall_semantics.specs.Numbered.{AreLevels, AreNumbered, AreReadings, IsGather, levels_in, nodes_by, number_at};
ghost use Rattle.tall_semantics.specs.Operations.{Op, Tree};
ghost use Rattle.tall_semantics.specs.Passes.{of_store, passes_up_to};
ghost use Rattle.tall_semantics.specs.Ranks.{ranks_in};
ghost use Rattle.tall_semantics.specs.RowsOfSpaces.{AreColumns, Fits, numbers_in, row_numbers, tree_tall};
ghost use Rattle.tall_semantics.specs.Spaces.{Space};
ghost use Rattle.tall_semantics.specs.Talls.{Columns, Tall, made_tall};
ghost use Rattle.tall_value.specs.FaultOrder.{precedes as operator_precedes};
ghost use Rattle.tall_value.specs.declared.faults.Fault.{Fault as OperatorFault};

/// The tests for equal operations, trees and spaces mean equality.
pub fn tests_mean_equality()
    ensures operations { (f g : Op) → Decides (same_op f g) (f ≡ g) }
    ensures trees { (x y : Tree) → Decides (same_tree x y) (x ≡ y) }
    ensures spaces { (s t : Space) → Decides (same_space s t) (s ≡ t) }
{}

/// Faults of operators alone are ordered as in tall_value.
pub fn operator_faults_keep_their_order()
    ensures { (f g : OperatorFault) → precedes (fault_seen f) (fault_seen g) ≡ operator_precedes f g }
{}

/// Two members of a list have one number exactly where they are equal, and a longer list keeps the numbers.
pub fn numbers_are_equal_for_equal_trees()
    ensures forms { (ts : List Tree) (i j : ℕ) (x y : Tree) → slice_get ts i ≡ Some x → slice_get ts j ≡ Some y → (form x ts ≡ form y ts) ↔ (x ≡ y) }
    ensures spaces { (ts : List Space) (i j : ℕ) (x y : Space) → slice_get ts i ≡ Some x → slice_get ts j ≡ Some y → (space_number x ts ≡ space_number y ts) ↔ (x ≡ y) }
    ensures kept_forms { (ts us : List Tree) (i : ℕ) (x : Tree) → slice_get ts i ≡ Some x → form x (ts ++ us) ≡ form x ts }
    ensures kept_spaces { (ts us : List Space) (i : ℕ) (x : Space) → slice_get ts i ≡ Some x → space_number x (ts ++ us) ≡ space_number x ts }
{}

/// Values with equal trees have equal classes, spaces and chains, and where neither has a fault they are equal.
pub fn equal_trees_have_equal_values()
    ensures shapes { (columns : Columns) (vs : List Vertex) (f : ℕ → Tall) → IsMeaning columns vs f → IsOrdered vs
        → (i j : ℕ) (v w : Vertex) → slice_get vs i ≡ Some v → slice_get vs j ≡ Some w → (f i).shape.tree ≡ (f j).shape.tree → (f i).shape ≡ (f j).shape }
    ensures values { (columns : Columns) (vs : List Vertex) (f : ℕ → Tall) → IsMeaning columns vs f → IsOrdered vs
        → (i j : ℕ) (v w : Vertex) → slice_get vs i ≡ Some v → slice_get vs j ≡ Some w → (f i).shape.tree ≡ (f j).shape.tree
        → fault_in f i ≡ None → fault_in f j ≡ None → f i ≡ f j }
{}

/// A value without a fault is a scalar exactly where its space says so, has the rows of its space, and is the value that
/// its tree tells. So two values of one space have the same rows.
pub fn values_have_the_rows_of_their_space()
    ensures scalars { (columns : Columns) (of_stores : ℕ → List ℕ) (vs : List Vertex) (f : ℕ → Tall) → IsMeaning columns vs f → IsOrdered vs → AreColumns columns of_stores vs
        → (i : ℕ) (v : Vertex) → slice_get vs i ≡ Some v → fault_in f i ≡ None → Fits (f i).shape (f i).outcome }
    ensures numbers { (columns : Columns) (of_stores : ℕ → List ℕ) (vs : List Vertex) (f : ℕ → Tall) → IsMeaning columns vs f → IsOrdered vs → AreColumns columns of_stores vs
        → (i : ℕ) (v : Vertex) → slice_get vs i ≡ Some v → fault_in f i ≡ None → numbers_in (f i).outcome ≡ row_numbers columns of_stores (f i).shape.space }
    ensures told { (columns : Columns) (of_stores : ℕ → List ℕ) (vs : List Vertex) (f : ℕ → Tall) → IsMeaning columns vs f → IsOrdered vs → AreColumns columns of_stores vs
        → (i : ℕ) (v : Vertex) → slice_get vs i ≡ Some v → fault_in f i ≡ None → tree_tall columns (f i).shape.tree ≡ f i }
{}

/// Each cell of a value has the class of its shape.
pub fn values_have_their_class()
    ensures { (columns : Columns) (of_stores : ℕ → List ℕ) (vs : List Vertex) (f : ℕ → Tall) → IsMeaning columns vs f → IsOrdered vs → AreColumns columns of_stores vs
        → (i : ℕ) (v : Vertex) → slice_get vs i ≡ Some v → HaveClass (f i).shape.class (f i).outcome }
{}

/// A value's fault is the least of the own faults of all that it depends on, and the least fault of several values is
/// that of all that these depend on.
pub fn a_fault_is_the_least_own_fault()
    ensures value { (columns : Columns) (vs : List Vertex) (f : ℕ → Tall) → IsMeaning columns vs f → IsOrdered vs
        → (i : ℕ) (v : Vertex) → slice_get vs i ≡ Some v → IsLeast (own_in vs f) (DependsOn vs i) (fault_in f i) }
    ensures roots { (columns : Columns) (vs : List Vertex) (f : ℕ → Tall) → IsMeaning columns vs f → IsOrdered vs
        → (roots : List ℕ) → AreThere vs roots → IsLeast (own_in vs f) (Under vs roots) (least_in f roots) }
{}

/// Of a sound list of vertices the values by recursion solve its equations, and no other function on its places does.
pub fn values_in_order_are_the_solution()
    ensures solution { (columns : Columns) (vs : List Vertex) → IsSound columns vs → IsMeaning columns vs (tall_in (talls columns vs)) }
    ensures only { (columns : Columns) (vs : List Vertex) (f g : ℕ → Tall) → IsMeaning columns vs f → IsMeaning columns vs g → IsOrdered vs
        → (i : ℕ) (v : Vertex) → slice_get vs i ≡ Some v → f i ≡ g i }
{}

/// A sound list with one accepted vertex more is sound; what solves the longer list's equations solves those of the
/// shorter, and gives the new value.
pub fn a_vertex_more_keeps_the_values()
    ensures sound { (columns : Columns) (vs : List Vertex) (v : Vertex) → IsSound columns vs → AllBelow (length vs) v.args → IsAccepted columns vs v → IsSound columns (vs ++ v ∷ []) }
    ensures kept { (columns : Columns) (vs ws : List Vertex) (f : ℕ → Tall) → IsMeaning columns (vs ++ ws) f → IsMeaning columns vs f }
    ensures last { (columns : Columns) (vs : List Vertex) (v : Vertex) (f : ℕ → Tall) → IsMeaning columns (vs ++ v ∷ []) f
        → made_tall columns v.at v.made (map f v.args) ≡ Ok (f (length vs)) }
{}

/// What holds after the passes of the levels up to k holds after those of the next level too, with the earlier of both
/// candidates: what is known then was known before, or is work of the new level below both candidates. The passes of one
/// level join to one, since each has the candidate of the lower levels.
pub fn a_level_keeps_the_candidate()
    ensures step { (ns : Nodes) (needed known known' : List ℕ) (k : ℕ) (c p : Option Fault) → IsNumbered ns → After ns (IsAmong needed) (IsAmong known) k c
        → Passed ns (IsAmong needed) (IsAmong known) (IsAmong known') (k + 1) c p → After ns (IsAmong needed) (IsAmong known') (k + 1) (earlier p c) }
    ensures covered { (ns : Nodes) (needed : List ℕ) (k : ℕ) (c p : Option Fault) (i : ℕ) → UpTo ns (IsAmong needed) (k + 1) i → IsBelow (earlier p c) (ns.number i)
        → (UpTo ns (IsAmong needed) k i × IsBelow c (ns.number i)) ⊎ (IsWork ns (IsAmong needed) (k + 1) c i × IsBelow p (ns.number i)) }
    ensures joined { (own : ℕ → Option Fault) (work others : List ℕ) (c d : Option Fault) → IsLeast own (IsAmong work) c → IsLeast own (IsAmong others) d
        → IsLeast own (IsAmong (work ++ others)) (earlier c d) }
{}

/// What a graph keeps of numbers gives what levels need: a fault has its expression's number, expressions of one number
/// that can fail have one level, faults of one place are one fault; and an operand has no greater number and no greater
/// level than what is made of it. The same holds of ranks: within a level, what passes compute comes before the rest; and
/// before the first rank nothing is known and there is no candidate.
pub fn a_graph_keeps_what_levels_need()
    ensures levels { (columns : Columns) (vs : List Vertex) (f : ℕ → Tall) → IsMeaning columns vs f → AreNumbered vs → AreReadings columns vs → AreLevels vs f (levels_in f) }
    ensures ranks { (columns : Columns) (vs : List Vertex) (f : ℕ → Tall) → IsMeaning columns vs f → AreNumbered vs → AreReadings columns vs → AreLevels vs f (ranks_in vs f) }
    ensures start { (columns : Columns) (vs : List Vertex) (f : ℕ → Tall) → IsMeaning columns vs f → AreNumbered vs
        → (needed : List ℕ) → AreThere vs needed → After (nodes_by vs f (ranks_in vs f)) (IsAmong needed) (IsAmong []) 0 None }
{}

/// What these laws ask of a list of vertices can be met: two variables of one datastore and their sum.
pub fn premises_can_be_met()
    ensures sound { IsSound both_columns added }
    ensures numbered { AreNumbered added }
    ensures readings { AreReadings both_columns added }
    ensures stores { AreColumns both_columns (λ s. 1 ∷ 2 ∷ []) added }
{}

/// An operand of a level's work is known from the lower levels, or is work of the same level.
pub fn the_work_of_a_level_is_ready()
    ensures { (ns : Nodes) (needed : List ℕ) (k : ℕ) (c : Option Fault) (i a : ℕ) → IsWork ns (IsAmong needed) (k + 1) c i → IsAmong needed a → IsBefore ns a i
        → (UpTo ns (IsAmong needed) k a × IsBelow c (ns.number a)) ⊎ IsWork ns (IsAmong needed) (k + 1) c a }
{}

/// Where the candidate is the least fault of the levels up to k, what is numbered below it has no fault; where these are
/// all levels, it is the least fault among the roots' values. There is but one least fault. Ranks serve as levels too.
pub fn the_last_candidate_is_the_fault()
    ensures known { (columns : Columns) (vs : List Vertex) (f : ℕ → Tall) (levels : ℕ → ℕ) (roots needed : List ℕ) → IsGather columns vs f levels roots needed
        → (k : ℕ) (c : Option Fault) → IsLeast (own_in vs f) (UpTo (nodes_by vs f levels) (IsAmong needed) k) c
        → (i : ℕ) (v : Vertex) → slice_get vs i ≡ Some v → UpTo (nodes_by vs f levels) (IsAmong needed) k i → IsBelow c (number_at (slice_get vs i)) → fault_in f i ≡ None }
    ensures last { (columns : Columns) (vs : List Vertex) (f : ℕ → Tall) (levels : ℕ → ℕ) (roots needed : List ℕ) → IsGather columns vs f levels roots needed
        → (k : ℕ) (c : Option Fault) → IsLeast (own_in vs f) (UpTo (nodes_by vs f levels) (IsAmong needed) k) c
        → ((j : ℕ) → IsAmong needed j → levels j ≤ k) → c ≡ least_in f roots }
    ensures only { (ns : Nodes) (work : List ℕ) (c d : Option Fault) → IsNumbered ns → IsLeast ns.own (IsAmong work) c → IsLeast ns.own (IsAmong work) d → c ≡ d }
{}

/// Over each datastore there are at most as many passes as levels.
pub fn one_pass_a_level_and_datastore()
    ensures { (work : (store level : ℕ) → List ℕ) (store n k : ℕ) → of_store store (passes_up_to work n k) ≤ k }
{}
