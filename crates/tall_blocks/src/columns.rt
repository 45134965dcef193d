//! Laws of functions of whole columns over the blocks of a pass, each the contract of a function without a body.
ghost use Rattle.std.specs.Prelude.{◌≡◌, ℕ, Bool, true, false, List, [], ◌∷◌, None, Some, slice_get};
ghost use Rattle.tall_value.specs.declared.class.Kind.{Kind};
ghost use Rattle.tall_value.specs.declared.functions.Reduction.{Reduction};
ghost use Rattle.tall_value.specs.Distinct.{distinct};
ghost use Rattle.tall_value.specs.Ends.{first_rows, last_rows};
ghost use Rattle.tall_value.specs.Reductions.{reduced, used};
ghost use Rattle.tall_semantics.specs.Chains.{needs_all_rows};
ghost use Rattle.tall_semantics.specs.Operations.{Op, operation};
ghost use Rattle.tall_semantics.specs.Plans.{is_scan};
ghost use Rattle.tall_semantics.specs.Outcomes.{Outcome, cells_in, rows_in};
ghost use Rattle.tall_semantics.specs.Talls.{Columns, Tall};
ghost use Rattle.tall_semantics.specs.Deferred.{IsAmong, Vertex, fault_in};
ghost use Rattle.tall_blocks.specs.Blocks.{Block};
ghost use Rattle.tall_blocks.specs.Folds.{Fold, Kept, reduction_fold, more, omits, part_of, reduction_result, start, with_part};
ghost use Rattle.tall_blocks.specs.FoldsOfBlocks.{distinct_of_blocks, first_of_blocks, groups_of_blocks, kept_of_blocks, last_of_blocks};
ghost use Rattle.tall_blocks.specs.Gathered.{Gathered, block_part, end_outcome, gathered_from, gathered_more, gathered_with};
ghost use Rattle.tall_blocks.specs.GroupsOver.{groups_of};
ghost use Rattle.tall_blocks.specs.Pieces.{pass_blocks};
ghost use Rattle.tall_blocks.specs.ScanFolds.{carry_result, scan_fold, scan_omits};
ghost use Rattle.tall_semantics.specs.ScanCarries.{fold_of};
ghost use Rattle.tall_value.specs.declared.functions.Scan.{Scan};
ghost use Rattle.tall_value.specs.Cells.{Seen};
ghost use Rattle.tall_blocks.specs.SeenFaults.{IsBlockwise};
ghost use Rattle.tall_blocks.specs.ValuesOver.{block_outcomes, no_cells};

/// What functions of a whole column take of a value without a fault is told by its rows of each block, in order: what a
/// reduction keeps, the first and the last rows, the distinct cells, and the groups of two values of one space.
pub fn functions_of_columns_go_on_block_by_block()
    ensures reductions { (columns : Columns) (of_stores : ℕ → List ℕ) (vs : List Vertex) (f : ℕ → Tall) (store : ℕ) (cut : ℕ → Bool) (bs : List Block) → IsBlockwise columns of_stores vs f store cut bs
        → (i : ℕ) (v : Vertex) → slice_get vs i ≡ Some v → cut i ≡ true → fault_in f i ≡ None
        → (r : Reduction) (a : Kind) → reduced r a (cells_in (f i).outcome) ≡ reduction_result r a (kept_of_blocks (reduction_fold r a) (omits r) (start (reduction_fold r a)) (block_outcomes vs f cut no_cells bs) i) }
    ensures first { (columns : Columns) (of_stores : ℕ → List ℕ) (vs : List Vertex) (f : ℕ → Tall) (store : ℕ) (cut : ℕ → Bool) (bs : List Block) → IsBlockwise columns of_stores vs f store cut bs
        → (i : ℕ) (v : Vertex) → slice_get vs i ≡ Some v → cut i ≡ true → fault_in f i ≡ None
        → (k : ℕ) → first_rows k (rows_in (f i).outcome) ≡ first_of_blocks k [] (block_outcomes vs f cut no_cells bs) i }
    ensures last { (columns : Columns) (of_stores : ℕ → List ℕ) (vs : List Vertex) (f : ℕ → Tall) (store : ℕ) (cut : ℕ → Bool) (bs : List Block) → IsBlockwise columns of_stores vs f store cut bs
        → (i : ℕ) (v : Vertex) → slice_get vs i ≡ Some v → cut i ≡ true → fault_in f i ≡ None
        → (k : ℕ) → last_rows k (rows_in (f i).outcome) ≡ last_of_blocks k [] (block_outcomes vs f cut no_cells bs) i }
    ensures distinct_cells { (columns : Columns) (of_stores : ℕ → List ℕ) (vs : List Vertex) (f : ℕ → Tall) (store : ℕ) (cut : ℕ → Bool) (bs : List Block) → IsBlockwise columns of_stores vs f store cut bs
        → (i : ℕ) (v : Vertex) → slice_get vs i ≡ Some v → cut i ≡ true → fault_in f i ≡ None
        → distinct (cells_in (f i).outcome) ≡ distinct_of_blocks [] (block_outcomes vs f cut no_cells bs) i }
    ensures groups { (columns : Columns) (of_stores : ℕ → List ℕ) (vs : List Vertex) (f : ℕ → Tall) (store : ℕ) (cut : ℕ → Bool) (bs : List Block) → IsBlockwise columns of_stores vs f store cut bs
        → (i j : ℕ) (v w : Vertex) → slice_get vs i ≡ Some v → slice_get vs j ≡ Some w → cut i ≡ true → cut j ≡ true → (f i).shape.space ≡ (f j).shape.space → fault_in f i ≡ None → fault_in f j ≡ None
        → (g : Fold) (passes_nan : Bool) → groups_of g passes_nan (cells_in (f i).outcome) (cells_in (f j).outcome) ≡ groups_of_blocks g passes_nan [] (block_outcomes vs f cut no_cells bs) i j }
{}

/// A value that needs all rows of its operands comes to what is kept of their rows, block by block: a reduction, the first
/// or the last rows, distinct cells, a column of `groupsummary`, each with its fault. A further block is joined to what is
/// kept.
pub fn values_that_need_all_rows_go_on_block_by_block()
    ensures value { (columns : Columns) (of_stores : ℕ → List ℕ) (vs : List Vertex) (f : ℕ → Tall) (store : ℕ) (cut : ℕ → Bool) (bs : List Block) → IsBlockwise columns of_stores vs f store cut bs
        → (i : ℕ) (v : Vertex) (op : Op) → slice_get vs i ≡ Some v → v.made ≡ operation op → needs_all_rows v.made ≡ true → is_scan v.made ≡ false
        → ((a : ℕ) → IsAmong v.args a → (cut a ≡ true) × (fault_in f a ≡ None)) → (f i).outcome ≡ end_outcome v.at f (pass_blocks vs f cut bs) op v.args }
    ensures parts { (op : Op) (a : Kind) (s : Gathered op a) (x y : Outcome) → gathered_more op a s x y ≡ gathered_with op a s (block_part op a x y) }
    ensures carries { (s : Scan) (a : Kind) (cs : List Seen) → fold_of s a cs ≡ carry_result s a (more (scan_fold s a) (start (scan_fold s a)) (used (scan_omits s a) cs)) }
    ensures carry_parts { (g : Fold) (s : Kept g) (cs : List Seen) → more g s cs ≡ with_part g s (part_of g cs) }
    ensures one_more { (op : Op) (a : Kind) (s : Gathered op a) (h : ℕ → Outcome) (hs : List (ℕ → Outcome)) (i j : ℕ) → gathered_from op a s (h ∷ hs) i j ≡ gathered_from op a (gathered_more op a s (h i) (h j)) hs i j }
{}
