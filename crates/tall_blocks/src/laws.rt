//! Laws of the definitions, each the contract of a function without a body.
ghost use Rattle.std.specs.Prelude.{◌≡◌, ◌<◌, ◌≤◌, ◌⊎◌, ℕ, Bool, true, List, [], ◌∷◌, ◌++◌, length, map, take, Option, None, Some, Ok, Err, slice_get};
ghost use Rattle.tall_value.specs.declared.class.Kind.{Kind};
ghost use Rattle.tall_value.specs.declared.functions.Scan.{Scan};
ghost use Rattle.tall_value.specs.Cells.{Seen, seen_kind};
ghost use Rattle.tall_value.specs.FunctionClasses.{scan_kind};
ghost use Rattle.tall_value.specs.Scans.{scanned};
ghost use Rattle.tall_semantics.specs.Faults.{Fault, least_fault};
ghost use Rattle.tall_semantics.specs.Outcomes.{Outcome, rows, fault_of};
ghost use Rattle.tall_semantics.specs.Talls.{Columns, Tall};
ghost use Rattle.tall_semantics.specs.Deferred.{IsAmong, IsMeaning, IsOrdered, Vertex, fault_in, own_in};
ghost use Rattle.tall_semantics.specs.Least.{IsLeast};
ghost use Rattle.tall_semantics.specs.Levels.{UpTo};
ghost use Rattle.tall_semantics.specs.Numbered.{IsGather, levels_in, nodes_by};
ghost use Rattle.tall_semantics.specs.Plans.{needed_of};
ghost use Rattle.tall_semantics.specs.ScanLevels.{AreScans, chains_in, scans_by};
ghost use Rattle.tall_blocks.specs.Blocks.{AreAscending, AreBlocksOf, AreTables, Block, all_rows, block_columns};
ghost use Rattle.tall_blocks.specs.BlockSamples.{blocks, cut, value, vertices, whole_columns};
ghost use Rattle.tall_blocks.specs.Carries.{AllCells, HasScanKind, IsInClass, Rows, carry_for, flat, rows_joined, scanned_behind};
ghost use Rattle.tall_semantics.specs.ScanCarries.{fold_of};
ghost use Rattle.tall_value.specs.Columns.{cells};
ghost use Rattle.tall_value.specs.declared.faults.CellFault.{CellFault};
ghost use Rattle.tall_blocks.specs.Cut.{AreAligned, AreCut, AreOfStore, IsCutWork};
ghost use Rattle.tall_blocks.specs.FoldsOfBlocks.{AreAsLong};
ghost use Rattle.tall_blocks.specs.PassWork.{AreScalarsLower, IsCutFor, cut_at};
ghost use Rattle.tall_blocks.specs.SeenFaults.{AreSeen, IsBlockwise};
ghost use Rattle.tall_blocks.specs.ValuesOver.{AreParts, IsOver, block_outcomes, next_cells, outcomes_over, rows_of_blocks, no_cells};

/// Behind no cells a scan is that of the definition; behind some rows it goes on behind their cells too. The fold of the
/// cells before, where it is there, stands for all of them as one cell, of the scan's class: a block is scanned from its
/// carry. Where there is no fold the scan has failed before.
pub fn scans_go_on_from_a_carry()
    ensures start { (s : Scan) (a : Kind) (rs : Rows) → AllCells (HasScanKind a) (cells rs) → scanned_behind s a [] rs ≡ scanned s a rs }
    ensures goes_on { (s : Scan) (a : Kind) (before : List Seen) (rs ss : Rows) → scanned_behind s a before (rs ++ ss) ≡ rows_joined (scanned_behind s a before rs) (scanned_behind s a (before ++ cells rs) ss) }
    ensures stands { (s : Scan) (a : Kind) (before cs : List Seen) (c : Seen) → fold_of s a before ≡ Some c → AllCells (IsInClass a) cs → fold_of s a (c ∷ cs) ≡ fold_of s a (before ++ cs) }
    ensures from_its_carry { (s : Scan) (a : Kind) (before : List Seen) (rs : Rows) (c : Seen) → fold_of s a before ≡ Some c → AllCells (IsInClass a) (cells rs) → scanned_behind s a (c ∷ []) rs ≡ scanned_behind s a before rs }
    ensures class { (s : Scan) (a k : Kind) (cs : List Seen) (c : Seen) → scan_kind s a ≡ Ok k → AllCells (HasScanKind a) cs → fold_of s a cs ≡ Some c → seen_kind c ≡ k }
    ensures failed { (s : Scan) (a : Kind) (rs : Rows) → fold_of s a (cells rs) ≡ None → (e : ℕ × CellFault) × (scanned_behind s a [] rs ≡ Err e) }
{}

/// The carry of a block, where it is there, is the fold of the cells of all blocks before; where it isn't, the fold is out
/// of range before this block or an earlier one, and the scan over the blocks before has failed.
pub fn a_carry_is_the_fold_before_the_block()
    ensures there { (s : Scan) (a : Kind) (blocks : List (List Seen)) (n : ℕ) (c : Seen) → carry_for s a blocks n ≡ Some c → fold_of s a (flat (take n blocks)) ≡ Some c }
    ensures missing { (s : Scan) (a : Kind) (blocks : List (List Seen)) (n : ℕ) → n < length blocks → carry_for s a blocks n ≡ None → (m : ℕ) × (m ≤ n) × (fold_of s a (flat (take m blocks)) ≡ None) }
    ensures failed { (s : Scan) (a : Kind) (blocks : List Rows) (n : ℕ) → n < length blocks → carry_for s a (map cells blocks) n ≡ None → (e : ℕ × CellFault) × (scanned_behind s a [] (flat (take n blocks)) ≡ Err e) }
{}

/// The values over some rows exist, and are the only ones; what has a datastore's rows is made of variables by operators,
/// filters and scans.
pub fn values_over_some_rows_exist()
    ensures exist { (columns : Columns) (so_far : ℕ → List Seen) (vs : List Vertex) (f : ℕ → Tall) (cut : ℕ → Bool) → IsOrdered vs → IsOver columns so_far vs f cut (outcomes_over columns so_far vs f cut) }
    ensures only { (columns : Columns) (so_far : ℕ → List Seen) (vs : List Vertex) (f : ℕ → Tall) (cut : ℕ → Bool) (h k : ℕ → Outcome) → IsOrdered vs → IsOver columns so_far vs f cut h → IsOver columns so_far vs f cut k
        → (i : ℕ) (v : Vertex) → slice_get vs i ≡ Some v → h i ≡ k i }
    ensures cut { (columns : Columns) (vs : List Vertex) (f : ℕ → Tall) (cut : ℕ → Bool) (store : ℕ) → IsMeaning columns vs f → AreOfStore store vs f cut → AreCut f cut vs }
{}

/// Over a block and the blocks behind it a value has no fault exactly where it has none over either, and then it has the
/// rows of both, in order.
pub fn a_value_has_the_rows_of_its_parts()
    ensures { (vs : List Vertex) (f : ℕ → Tall) (cut : ℕ → Bool) (b : Block) (bs : List Block) (so_far : ℕ → List Seen) (h g k : ℕ → Outcome) → IsOrdered vs → AreCut f cut vs
        → IsOver (block_columns (all_rows (b ∷ bs))) so_far vs f cut h → IsOver (block_columns b) so_far vs f cut g → IsOver (block_columns (all_rows bs)) (next_cells vs g so_far) vs f cut k → AreAligned vs cut g
        → (i : ℕ) (v : Vertex) → slice_get vs i ≡ Some v → (cut i ≡ true) → (fault_of (h i) ≡ None) ⊎ ((fault_of (g i) ≡ None) × (fault_of (k i) ≡ None)) → AreParts (h i) (g i) (k i) }
{}

/// The values over all blocks are those of the definition: a value without a fault has its rows of each block in order, two
/// of one space have equally many in each, and the least own fault is the least of those seen block by block.
pub fn a_pass_by_blocks_gives_the_values()
    ensures whole { (columns : Columns) (of_stores : ℕ → List ℕ) (vs : List Vertex) (f : ℕ → Tall) (store : ℕ) (cut : ℕ → Bool) (bs : List Block) → IsBlockwise columns of_stores vs f store cut bs
        → IsOver (block_columns (all_rows bs)) no_cells vs f cut (λ i. (f i).outcome) }
    ensures rows { (columns : Columns) (of_stores : ℕ → List ℕ) (vs : List Vertex) (f : ℕ → Tall) (store : ℕ) (cut : ℕ → Bool) (bs : List Block) → IsBlockwise columns of_stores vs f store cut bs
        → (i : ℕ) (v : Vertex) → slice_get vs i ≡ Some v → cut i ≡ true → fault_in f i ≡ None → (f i).outcome ≡ rows (rows_of_blocks (block_outcomes vs f cut no_cells bs) i) }
    ensures lengths { (columns : Columns) (of_stores : ℕ → List ℕ) (vs : List Vertex) (f : ℕ → Tall) (store : ℕ) (cut : ℕ → Bool) (bs : List Block) → IsBlockwise columns of_stores vs f store cut bs
        → (i j : ℕ) (v w : Vertex) → slice_get vs i ≡ Some v → slice_get vs j ≡ Some w → cut i ≡ true → cut j ≡ true → (f i).shape.space ≡ (f j).shape.space → fault_in f i ≡ None → fault_in f j ≡ None
        → AreAsLong (block_outcomes vs f cut no_cells bs) i j }
    ensures least { (columns : Columns) (of_stores : ℕ → List ℕ) (vs : List Vertex) (f : ℕ → Tall) (store : ℕ) (cut : ℕ → Bool) (bs : List Block) → IsBlockwise columns of_stores vs f store cut bs
        → (work : List ℕ) → IsCutWork vs cut (IsAmong work) → (cs : List (Option Fault)) → AreSeen vs f cut (IsAmong work) no_cells bs cs → IsLeast (own_in vs f) (IsAmong work) (least_fault cs) }
{}

/// What a pass over blocks stands on can be met: a column, its logical cells, a constant over these, and a running sum, over
/// two blocks of a row each. So can all together that is asked of the pass of the first level, with no candidate yet.
pub fn premises_can_be_met()
    ensures blockwise { IsBlockwise whole_columns (λ s. 1 ∷ 2 ∷ []) vertices value 0 cut blocks }
    ensures gather { IsGather whole_columns vertices value (levels_in value) (3 ∷ 4 ∷ []) (needed_of vertices (3 ∷ 4 ∷ [])) }
    ensures candidate { IsLeast (own_in vertices value) (UpTo (nodes_by vertices value (levels_in value)) (IsAmong (needed_of vertices (3 ∷ 4 ∷ []))) 0) None }
    ensures pass { IsCutFor 0 vertices value (levels_in value) (chains_in value) (needed_of vertices (3 ∷ 4 ∷ [])) 1 None (cut_at 0 vertices value (levels_in value) (needed_of vertices (3 ∷ 4 ∷ [])) 1 None) }
    ensures scalars { AreScalarsLower vertices value (levels_in value) }
    ensures scans { AreScans vertices (scans_by vertices value (chains_in value)) (levels_in value) }
    ensures parts { AreBlocksOf whole_columns vertices (cut_at 0 vertices value (levels_in value) (needed_of vertices (3 ∷ 4 ∷ [])) 1 None) blocks
        × AreTables vertices (cut_at 0 vertices value (levels_in value) (needed_of vertices (3 ∷ 4 ∷ [])) 1 None) blocks × AreAscending blocks }
{}
