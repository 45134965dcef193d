//! Laws of lists of vertices, as a graph keeps them: shapes, and the numbers of expressions.
ghost use Rattle.std.specs.Prelude.{◌≡◌, ◌<◌, ◌≤◌, ◌++◌, ◌↔◌, ℕ, true, List, [], ◌∷◌, length, map, Some, Ok, slice_get};
ghost use Rattle.std.specs.Bool.{Decides};
ghost use Rattle.tall_semantics.specs.Additions.{MayAdd, may_add, may_follow};
ghost use Rattle.tall_semantics.specs.Chains.{Path};
ghost use Rattle.tall_semantics.specs.Deferred.{AllBelow, IsAmong, IsMeaning, IsOrdered, Vertex};
ghost use Rattle.tall_semantics.specs.InOrder.{IsSound};
ghost use Rattle.tall_semantics.specs.Numbered.{AreNumbered};
ghost use Rattle.tall_semantics.specs.Operations.{reads};
ghost use Rattle.tall_semantics.specs.Reach.{IsOfStore, Reaches};
ghost use Rattle.tall_semantics.specs.ShapesInOrder.{CanBeMade, IsMade, made_shape, shape_at};
ghost use Rattle.tall_semantics.specs.Spaces.{store_of};
ghost use Rattle.tall_semantics.specs.Talls.{Columns, Tall};

/// What is accepted follows from shapes alone, and so do the shapes of values: whatever the columns are, a list is sound
/// exactly where its shapes can be made, and each solution has these shapes. A longer list keeps them. A chain is at most
/// as long as there are vertices before.
pub fn shapes_follow_from_the_list()
    ensures sound { (columns : Columns) (vs : List Vertex) → IsMade vs ↔ IsSound columns vs }
    ensures values { (columns : Columns) (vs : List Vertex) (f : ℕ → Tall) → IsMade vs → IsMeaning columns vs f
        → (i : ℕ) (v : Vertex) → slice_get vs i ≡ Some v → (f i).shape ≡ shape_at vs i }
    ensures equations { (vs : List Vertex) → IsMade vs → (i : ℕ) (v : Vertex) → slice_get vs i ≡ Some v → made_shape v.made (map (shape_at vs) v.args) ≡ Ok (shape_at vs i) }
    ensures kept { (vs ws : List Vertex) (i : ℕ) → i < length vs → shape_at (vs ++ ws) i ≡ shape_at vs i }
    ensures pushed { (vs : List Vertex) (v : Vertex) → IsMade vs → AllBelow (length vs) v.args → CanBeMade vs v.made v.args → IsMade (vs ++ v ∷ []) }
    ensures chains { (vs : List Vertex) → IsMade vs → (i : ℕ) (v : Vertex) → slice_get vs i ≡ Some v → (shape_at vs i).chain ≤ i }
{}

/// What is asked for where a vertex is added keeps a list's operands before what is made of them, and its numbers; and it
/// is no more than that needs. The tests decide it, so a list whose vertices may follow each other keeps its numbers.
pub fn an_added_vertex_keeps_the_numbers()
    ensures kept { (vs : List Vertex) (v : Vertex) → IsOrdered vs → AreNumbered vs → MayAdd vs v → IsOrdered (vs ++ v ∷ []) × AreNumbered (vs ++ v ∷ []) }
    ensures needed { (vs : List Vertex) (v : Vertex) → IsOrdered (vs ++ v ∷ []) → AreNumbered (vs ++ v ∷ []) → MayAdd vs v }
    ensures empty { AreNumbered [] }
    ensures tested { (vs : List Vertex) (v : Vertex) → Decides (may_add vs v) (MayAdd vs v) }
    ensures followed { (vs : List Vertex) → may_follow [] vs ≡ true → IsOrdered vs × AreNumbered vs }
{}

/// A tree reads a datastore exactly where the value is computed from one of its variables. The rows of a space are read,
/// and so are those of what a value is made of. So no number is below that of a call whose datastore is read.
pub fn a_tree_reads_what_the_value_reaches()
    ensures exact { (vs : List Vertex) → IsMade vs → (store i : ℕ) (v : Vertex) → slice_get vs i ≡ Some v → Decides (reads store (shape_at vs i).tree) (Reaches vs store i) }
    ensures rows { (vs : List Vertex) → IsMade vs → (store i : ℕ) (v : Vertex) → slice_get vs i ≡ Some v → store_of (shape_at vs i).space ≡ Some store → reads store (shape_at vs i).tree ≡ true }
    ensures operands { (vs : List Vertex) → IsMade vs → (store i a : ℕ) (v : Vertex) → slice_get vs i ≡ Some v → IsAmong v.args a → reads store (shape_at vs a).tree ≡ true → reads store (shape_at vs i).tree ≡ true }
    ensures numbers { (vs : List Vertex) → IsMade vs → AreNumbered vs → (store i j : ℕ) (v w : Vertex) → slice_get vs i ≡ Some v → slice_get vs j ≡ Some w
        → IsOfStore store w.made → reads store (shape_at vs i).tree ≡ true → w.at.number ≤ v.at.number }
{}

/// A value's chain is the greatest number of operations that need all rows of a datastore on a path to what it depends on.
pub fn the_chain_is_the_longest()
    ensures there { (vs : List Vertex) → IsMade vs → (i : ℕ) (v : Vertex) → slice_get vs i ≡ Some v → Path vs i (shape_at vs i).chain }
    ensures greatest { (vs : List Vertex) → IsMade vs → (i n : ℕ) (v : Vertex) → slice_get vs i ≡ Some v → Path vs i n → n ≤ (shape_at vs i).chain }
{}
