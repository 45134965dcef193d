//! What the outcome of rows has to do with the outcome of an operation.
ghost use Rattle.std.specs.Prelude.{◌≡◌, ℕ, None, Some, true, Bool, List, [], ◌∷◌, slice_get};
ghost use Rattle.tall_value.specs.declared.functions.Method.{Method};
ghost use Rattle.tall_semantics.specs.Faults.{At};
ghost use Rattle.tall_semantics.specs.Deferred.{Vertex, fault_in};
ghost use Rattle.tall_semantics.specs.Operations.{Op, operation};
ghost use Rattle.tall_semantics.specs.Outcomes.{rows_in};
ghost use Rattle.tall_semantics.specs.ShapesInOrder.{IsMade, shape_at};
ghost use Rattle.tall_semantics.specs.Talls.{Columns, Tall, own_outcome};
ghost use Rattle.tall_blocks.specs.Blocks.{Block};
ghost use Rattle.tall_blocks.specs.Pieces.{pass_blocks};
ghost use Rattle.tall_blocks.specs.SeenFaults.{IsBlockwise};
ghost use Rattle.tall_blocks.specs.ValuesOver.{rows_of_blocks};
ghost use Rattle.tall_part.specs.declared.operation.EndOperation.{EndOperation};
ghost use Rattle.tall_part.specs.declared.operation.EndOperation.TheVariants as end;
ghost use Rattle.tall_part.specs.Operations.{is_end, op_of, outcome_of_rows};
ghost use Rattle.tall_part.specs.Results.{IsAccepted};

/// Over operands without a fault the outcome of an operation is told by their rows; a group has two operands where its method
/// looks at data.
pub fn all_rows_give_the_outcome()
    ensures one { (at : At) (e : EndOperation) (n : ℕ) (x : Tall) → own_outcome at (op_of e n) (x ∷ []) ≡ outcome_of_rows at e n x.shape.class x.shape.class (rows_in x.outcome) (rows_in x.outcome) }
    ensures two { (at : At) (m : Method) (n : ℕ) (x y : Tall) → own_outcome at (op_of (end.Group m) n) (x ∷ y ∷ []) ≡ outcome_of_rows at (end.Group m) n x.shape.class y.shape.class (rows_in x.outcome) (rows_in y.outcome) }
{}

/// What needs all rows of its operands and is no scan is one of these operations.
pub fn ends_are_all_but_scans()
    ensures { (op : Op) → is_end (operation op) ≡ true → (e : EndOperation) × (n : ℕ) × (op ≡ op_of e n) }
{}

/// A node of one of these operations, whatever the columns are: the classes of its operands are such that the operation takes
/// them, and its own class is that of its column.
pub fn accepted_ends_are_taken()
    ensures one { (vs : List Vertex) → IsMade vs → (i a n : ℕ) (v : Vertex) (e : EndOperation) → slice_get vs i ≡ Some v → v.made ≡ operation (op_of e n) → v.args ≡ a ∷ []
        → IsAccepted e n (shape_at vs a).class (shape_at vs a).class (shape_at vs i).class }
    ensures two { (vs : List Vertex) → IsMade vs → (i a b n : ℕ) (v : Vertex) (e : EndOperation) → slice_get vs i ≡ Some v → v.made ≡ operation (op_of e n) → v.args ≡ a ∷ b ∷ []
        → IsAccepted e n (shape_at vs a).class (shape_at vs b).class (shape_at vs i).class }
{}

/// A node of one of these operations, over operands that a pass computes block by block and that have no fault: its outcome is
/// told by their rows of each block, one block after the other.
pub fn rows_of_blocks_give_the_outcome()
    ensures one { (columns : Columns) (of_stores : ℕ → List ℕ) (vs : List Vertex) (f : ℕ → Tall) (store : ℕ) (cut : ℕ → Bool) (bs : List Block) → IsBlockwise columns of_stores vs f store cut bs
        → (i a n : ℕ) (v w : Vertex) (e : EndOperation) → slice_get vs i ≡ Some v → v.made ≡ operation (op_of e n) → v.args ≡ a ∷ [] → slice_get vs a ≡ Some w → cut a ≡ true → fault_in f a ≡ None
        → (f i).outcome ≡ outcome_of_rows v.at e n (f a).shape.class (f a).shape.class (rows_of_blocks (pass_blocks vs f cut bs) a) (rows_of_blocks (pass_blocks vs f cut bs) a) }
    ensures two { (columns : Columns) (of_stores : ℕ → List ℕ) (vs : List Vertex) (f : ℕ → Tall) (store : ℕ) (cut : ℕ → Bool) (bs : List Block) → IsBlockwise columns of_stores vs f store cut bs
        → (i a b n : ℕ) (v w x : Vertex) (m : Method) → slice_get vs i ≡ Some v → v.made ≡ operation (op_of (end.Group m) n) → v.args ≡ a ∷ b ∷ [] → slice_get vs a ≡ Some w → slice_get vs b ≡ Some x
        → cut a ≡ true → cut b ≡ true → fault_in f a ≡ None → fault_in f b ≡ None
        → (f i).outcome ≡ outcome_of_rows v.at (end.Group m) n (f a).shape.class (f b).shape.class (rows_of_blocks (pass_blocks vs f cut bs) a) (rows_of_blocks (pass_blocks vs f cut bs) b) }
{}
