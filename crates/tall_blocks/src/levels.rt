//! Laws of the pass over a datastore at one level, each the contract of a function without a body.
ghost use Rattle.std.specs.Prelude.{◌≡◌, ◌≤◌, ◌+◌, ◌⊎◌, ◌↔◌, ℕ, Bool, true, List, None, Option, Some, slice_get};
ghost use Rattle.tall_semantics.specs.Faults.{Fault, earlier};
ghost use Rattle.tall_semantics.specs.Operations.{Op, operation};
ghost use Rattle.tall_semantics.specs.Outcomes.{rows};
ghost use Rattle.tall_semantics.specs.Spaces.{has_rows};
ghost use Rattle.tall_semantics.specs.Talls.{Columns, Tall};
ghost use Rattle.tall_semantics.specs.Deferred.{IsAmong, IsMeaning, Vertex, fault_in, own_in};
ghost use Rattle.tall_semantics.specs.Least.{IsBelow, IsLeast};
ghost use Rattle.tall_semantics.specs.Levels.{UpTo};
ghost use Rattle.tall_semantics.specs.Numbered.{AreNumbered, IsGather, levels_in, nodes_by, number_at};
ghost use Rattle.tall_semantics.specs.Plans.{is_scan_at};
ghost use Rattle.tall_semantics.specs.Ranks.{ranks_in};
ghost use Rattle.tall_semantics.specs.RowsOfSpaces.{AreColumns};
ghost use Rattle.tall_semantics.specs.ScanLevels.{AreScans, scans_by};
ghost use Rattle.tall_blocks.specs.Blocks.{AreAscending, AreBlocksOf, AreTables, Block};
ghost use Rattle.tall_blocks.specs.Cut.{IsCutWork, IsOfRows};
ghost use Rattle.tall_blocks.specs.Gathered.{end_outcome};
ghost use Rattle.tall_blocks.specs.PassWork.{AreAsked, AreScalarsLower, IsCutAt, IsCutFor, IsDueOf, IsEndOf, IsWorkOf, cut_at, cut_under};
ghost use Rattle.tall_blocks.specs.Pieces.{AreScansFree, carry_in, fault_from, has_rows_of, pass_blocks, store_blocks};
ghost use Rattle.tall_blocks.specs.SeenFaults.{IsBlockwise};
ghost use Rattle.tall_blocks.specs.ValuesOver.{rows_of_blocks};

/// All that a pass may compute is told by a test, and serves; so does what it asks for with all that this is made of; all
/// that has rows of a datastore has them with its operands. By levels and by ranks a scalar that a value with rows is made
/// of comes before the value's pass.
pub fn the_values_of_a_pass_are_told()
    ensures tested { (store : ℕ) (vs : List Vertex) (f : ℕ → Tall) (levels : ℕ → ℕ) (needed : List ℕ) (k : ℕ) (c : Option Fault) → IsCutAt store vs f levels needed k c (cut_at store vs f levels needed k c) }
    ensures largest { (columns : Columns) (of_stores : ℕ → List ℕ) (vs : List Vertex) (f : ℕ → Tall) (levels carried : ℕ → ℕ) (roots needed : List ℕ) → IsGather columns vs f levels roots needed
        → (store k : ℕ) (c : Option Fault) → (cut : ℕ → Bool) → IsCutAt store vs f levels needed (k + 1) c cut
        → ((i a : ℕ) (v : Vertex) → is_scan_at (slice_get vs i) ≡ true → has_rows (f i).shape.space ≡ true → slice_get vs i ≡ Some v → IsAmong v.args a → levels a ≤ carried i) → IsCutFor store vs f levels carried needed (k + 1) c cut }
    ensures least { (columns : Columns) (of_stores : ℕ → List ℕ) (vs : List Vertex) (f : ℕ → Tall) (levels carried : ℕ → ℕ) (roots needed : List ℕ) → IsGather columns vs f levels roots needed
        → (store k : ℕ) (c : Option Fault) → (asked : List ℕ) → AreAsked store vs f levels carried needed (k + 1) c asked → IsCutFor store vs f levels carried needed (k + 1) c (cut_under store vs f asked) }
    ensures rows { (store : ℕ) (vs : List Vertex) (f : ℕ → Tall) → IsOfRows store vs f (has_rows_of store f) }
    ensures levels { (columns : Columns) (vs : List Vertex) (f : ℕ → Tall) → IsMeaning columns vs f → AreScalarsLower vs f (levels_in f) }
    ensures ranks { (columns : Columns) (vs : List Vertex) (f : ℕ → Tall) → IsMeaning columns vs f → AreScalarsLower vs f (ranks_in vs f) }
{}

/// After the passes of the levels up to k, with the candidate c, what the next level's pass computes can be cut into
/// blocks, with all that its work needs of the lower levels. What stands below the level has no own fault, so the least
/// fault that is found block by block is that of the level's work with rows of the datastore; what is cut and numbered
/// below it has no fault, nor has the operand of a scan. The carries that the pass needs, and those that are due, are those
/// of the datastore's blocks. The least fault of all work of the pass is the earlier of it and of those of the reductions,
/// ends, distinct values and groups: of these only the ones numbered below it are looked at.
/// What is numbered below the fault of the work with rows has its defined outcome, told by the outcomes of the blocks.
pub fn a_pass_finds_the_fault_of_its_level()
    ensures blockwise { (columns : Columns) (of_stores : ℕ → List ℕ) (vs : List Vertex) (f : ℕ → Tall) (levels carried : ℕ → ℕ) (roots needed : List ℕ) → IsGather columns vs f levels roots needed
        → (store k : ℕ) (c : Option Fault) → IsLeast (own_in vs f) (UpTo (nodes_by vs f levels) (IsAmong needed) k) c → (cut : ℕ → Bool) → IsCutFor store vs f levels carried needed (k + 1) c cut
        → AreNumbered vs → AreColumns columns of_stores vs → AreScalarsLower vs f levels → (bs : List Block) → AreBlocksOf columns vs cut bs → AreTables vs cut bs → AreAscending bs
        → IsBlockwise columns of_stores vs f store cut bs }
    ensures work { (columns : Columns) (of_stores : ℕ → List ℕ) (vs : List Vertex) (f : ℕ → Tall) (levels carried : ℕ → ℕ) (roots needed : List ℕ) → IsGather columns vs f levels roots needed
        → (store k : ℕ) (c : Option Fault) → IsLeast (own_in vs f) (UpTo (nodes_by vs f levels) (IsAmong needed) k) c → (cut : ℕ → Bool) → IsCutFor store vs f levels carried needed (k + 1) c cut
        → (all : List ℕ) → ((i : ℕ) → IsAmong all i ↔ (cut i ≡ true)) → IsCutWork vs cut (IsAmong all) }
    ensures found { (columns : Columns) (of_stores : ℕ → List ℕ) (vs : List Vertex) (f : ℕ → Tall) (levels carried : ℕ → ℕ) (roots needed : List ℕ) → IsGather columns vs f levels roots needed
        → (store k : ℕ) (c : Option Fault) → IsLeast (own_in vs f) (UpTo (nodes_by vs f levels) (IsAmong needed) k) c → (cut : ℕ → Bool) → IsCutFor store vs f levels carried needed (k + 1) c cut
        → (all : List ℕ) → ((i : ℕ) → IsAmong all i ↔ (cut i ≡ true)) → (p : Option Fault) → IsLeast (own_in vs f) (IsAmong all) p ↔ IsLeast (own_in vs f) (IsWorkOf store vs f levels needed (k + 1) c) p }
    ensures seen { (columns : Columns) (of_stores : ℕ → List ℕ) (vs : List Vertex) (f : ℕ → Tall) (levels carried : ℕ → ℕ) (roots needed : List ℕ) → IsGather columns vs f levels roots needed
        → (store k : ℕ) (c : Option Fault) → IsLeast (own_in vs f) (UpTo (nodes_by vs f levels) (IsAmong needed) k) c → (cut : ℕ → Bool) → IsCutFor store vs f levels carried needed (k + 1) c cut
        → (all : List ℕ) → ((i : ℕ) → IsAmong all i ↔ (cut i ≡ true)) → AreNumbered vs → AreColumns columns of_stores vs → AreScalarsLower vs f levels → (bs : List Block) → AreBlocksOf columns vs cut bs → AreTables vs cut bs → AreAscending bs
        → IsLeast (own_in vs f) (IsWorkOf store vs f levels needed (k + 1) c) (fault_from vs f all None (pass_blocks vs f cut bs)) }
    ensures no_fault { (columns : Columns) (of_stores : ℕ → List ℕ) (vs : List Vertex) (f : ℕ → Tall) (levels carried : ℕ → ℕ) (roots needed : List ℕ) → IsGather columns vs f levels roots needed
        → (store k : ℕ) (c : Option Fault) → IsLeast (own_in vs f) (UpTo (nodes_by vs f levels) (IsAmong needed) k) c → (cut : ℕ → Bool) → IsCutFor store vs f levels carried needed (k + 1) c cut
        → (all : List ℕ) → ((i : ℕ) → IsAmong all i ↔ (cut i ≡ true)) → AreNumbered vs → AreColumns columns of_stores vs → AreScalarsLower vs f levels → (bs : List Block) → AreBlocksOf columns vs cut bs → AreTables vs cut bs → AreAscending bs
        → (i : ℕ) → cut i ≡ true → IsBelow (fault_from vs f all None (pass_blocks vs f cut bs)) (number_at (slice_get vs i)) → fault_in f i ≡ None }
    ensures scans { (columns : Columns) (of_stores : ℕ → List ℕ) (vs : List Vertex) (f : ℕ → Tall) (levels carried : ℕ → ℕ) (roots needed : List ℕ) → IsGather columns vs f levels roots needed
        → (store k : ℕ) (c : Option Fault) → IsLeast (own_in vs f) (UpTo (nodes_by vs f levels) (IsAmong needed) k) c → (cut : ℕ → Bool) → IsCutFor store vs f levels carried needed (k + 1) c cut
        → (all : List ℕ) → ((i : ℕ) → IsAmong all i ↔ (cut i ≡ true)) → AreScans vs (scans_by vs f carried) levels → AreScansFree vs f all }
    ensures carries { (columns : Columns) (of_stores : ℕ → List ℕ) (vs : List Vertex) (f : ℕ → Tall) (levels carried : ℕ → ℕ) (roots needed : List ℕ) → IsGather columns vs f levels roots needed
        → (store k : ℕ) (c : Option Fault) → (cut : ℕ → Bool) → IsCutFor store vs f levels carried needed (k + 1) c cut
        → (bs : List Block) (n i : ℕ) → (cut i ≡ true) ⊎ IsDueOf store vs f carried needed (k + 1) c i → carry_in vs f (pass_blocks vs f cut bs) i n ≡ carry_in vs f (store_blocks vs f store bs) i n }
    ensures ends { (columns : Columns) (of_stores : ℕ → List ℕ) (vs : List Vertex) (f : ℕ → Tall) (levels carried : ℕ → ℕ) (roots needed : List ℕ) → IsGather columns vs f levels roots needed
        → (store k : ℕ) (c : Option Fault) → IsLeast (own_in vs f) (UpTo (nodes_by vs f levels) (IsAmong needed) k) c → (cut : ℕ → Bool) → IsCutFor store vs f levels carried needed (k + 1) c cut
        → (all : List ℕ) → ((i : ℕ) → IsAmong all i ↔ (cut i ≡ true)) → AreNumbered vs → AreColumns columns of_stores vs → AreScalarsLower vs f levels → (bs : List Block) → AreBlocksOf columns vs cut bs → AreTables vs cut bs → AreAscending bs
        → (ends : List ℕ) → ((i : ℕ) → IsAmong ends i → IsEndOf store vs f levels needed (k + 1) c i) → ((i : ℕ) → IsEndOf store vs f levels needed (k + 1) c i → IsBelow (fault_from vs f all None (pass_blocks vs f cut bs)) (number_at (slice_get vs i)) → IsAmong ends i)
        → (q : Option Fault) → IsLeast (own_in vs f) (IsAmong ends) q → IsLeast (own_in vs f) (λ i. IsWorkOf store vs f levels needed (k + 1) c i ⊎ IsEndOf store vs f levels needed (k + 1) c i) (earlier (fault_from vs f all None (pass_blocks vs f cut bs)) q) }
    ensures columns { (columns : Columns) (of_stores : ℕ → List ℕ) (vs : List Vertex) (f : ℕ → Tall) (levels carried : ℕ → ℕ) (roots needed : List ℕ) → IsGather columns vs f levels roots needed
        → (store k : ℕ) (c : Option Fault) → IsLeast (own_in vs f) (UpTo (nodes_by vs f levels) (IsAmong needed) k) c → (cut : ℕ → Bool) → IsCutFor store vs f levels carried needed (k + 1) c cut
        → (all : List ℕ) → ((i : ℕ) → IsAmong all i ↔ (cut i ≡ true)) → AreNumbered vs → AreColumns columns of_stores vs → AreScalarsLower vs f levels → (bs : List Block) → AreBlocksOf columns vs cut bs → AreTables vs cut bs → AreAscending bs
        → (i : ℕ) (v : Vertex) → slice_get vs i ≡ Some v → cut i ≡ true → IsBelow (fault_from vs f all None (pass_blocks vs f cut bs)) (number_at (slice_get vs i)) → (f i).outcome ≡ rows (rows_of_blocks (pass_blocks vs f cut bs) i) }
    ensures results { (columns : Columns) (of_stores : ℕ → List ℕ) (vs : List Vertex) (f : ℕ → Tall) (levels carried : ℕ → ℕ) (roots needed : List ℕ) → IsGather columns vs f levels roots needed
        → (store k : ℕ) (c : Option Fault) → IsLeast (own_in vs f) (UpTo (nodes_by vs f levels) (IsAmong needed) k) c → (cut : ℕ → Bool) → IsCutFor store vs f levels carried needed (k + 1) c cut
        → (all : List ℕ) → ((i : ℕ) → IsAmong all i ↔ (cut i ≡ true)) → AreNumbered vs → AreColumns columns of_stores vs → AreScalarsLower vs f levels → (bs : List Block) → AreBlocksOf columns vs cut bs → AreTables vs cut bs → AreAscending bs
        → (i : ℕ) (v : Vertex) (op : Op) → IsEndOf store vs f levels needed (k + 1) c i → slice_get vs i ≡ Some v → v.made ≡ operation op → IsBelow (fault_from vs f all None (pass_blocks vs f cut bs)) (number_at (slice_get vs i)) → (f i).outcome ≡ end_outcome v.at f (pass_blocks vs f cut bs) op v.args }
{}
