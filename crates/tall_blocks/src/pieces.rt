//! Laws of a pass block by block, each the contract of a function without a body.
ghost use Rattle.std.specs.Prelude.{◌≡◌, ◌<◌, ℕ, suc, Bool, true, List, [], ◌∷◌, length, Option, None, Some, take, slice_get};
ghost use Rattle.tall_value.specs.declared.functions.Scan.{Scan};
ghost use Rattle.tall_value.specs.Cells.{Seen};
ghost use Rattle.tall_value.specs.Classes.{kind_of};
ghost use Rattle.tall_semantics.specs.Operations.{operation, scan};
ghost use Rattle.tall_semantics.specs.Faults.{Fault, earlier};
ghost use Rattle.tall_semantics.specs.Outcomes.{Outcome, cells_in, fault_of, row_by_row, rows_in};
ghost use Rattle.tall_semantics.specs.Talls.{Columns, Tall};
ghost use Rattle.tall_semantics.specs.Deferred.{IsAmong, IsOrdered, Vertex, own_in};
ghost use Rattle.tall_semantics.specs.Least.{IsLeast};
ghost use Rattle.tall_semantics.specs.Numbered.{AreNumbered};
ghost use Rattle.tall_semantics.specs.Plans.{is_scan_at};
ghost use Rattle.tall_blocks.specs.Blocks.{AreInTheirClasses, Block, all_rows, block_columns};
ghost use Rattle.tall_semantics.specs.ClassesOfCells.{HaveClass};
ghost use Rattle.tall_blocks.specs.Carries.{AllCells, IsInClass, flat, scanned_behind};
ghost use Rattle.tall_blocks.specs.Cut.{IsCutWork, IsOfRows};
ghost use Rattle.tall_blocks.specs.Pieces.{AreScansFree, IsLookedAt, carry_in, cells_by_block, fault_from, looked_at, pass_blocks};
ghost use Rattle.tall_blocks.specs.SeenFaults.{IsBlockwise};
ghost use Rattle.tall_blocks.specs.ValuesOver.{IsOver, no_cells, value_over};

/// Over a block the values are those of its rows, each scan behind the cells that its operand has in the blocks before.
/// Where the scan's carry for the block is there, it is the scan from that one cell. What a value is over a block, and so
/// the carries, are the same in each pass that computes it.
pub fn a_block_is_computed_from_its_carries()
    ensures over { (columns : Columns) (of_stores : ℕ → List ℕ) (vs : List Vertex) (f : ℕ → Tall) (store : ℕ) (cut : ℕ → Bool) (bs : List Block) → IsBlockwise columns of_stores vs f store cut bs
        → (n : ℕ) (h : ℕ → Outcome) → slice_get (pass_blocks vs f cut bs) n ≡ Some h → (b : Block) × (before : ℕ → List Seen) × (slice_get bs n ≡ Some b) × IsOver (block_columns b) before vs f cut h
        × ((i a : ℕ) (v : Vertex) (s : Scan) → slice_get vs i ≡ Some v → v.made ≡ operation (scan s) → v.args ≡ a ∷ [] → before i ≡ flat (take n (cells_by_block (pass_blocks vs f cut bs) a))) }
    ensures scans { (columns : Columns) (of_stores : ℕ → List ℕ) (vs : List Vertex) (f : ℕ → Tall) (store : ℕ) (cut : ℕ → Bool) (bs : List Block) → IsBlockwise columns of_stores vs f store cut bs
        → (n : ℕ) (h : ℕ → Outcome) → slice_get (pass_blocks vs f cut bs) n ≡ Some h → (i a : ℕ) (v : Vertex) (s : Scan) (c : Seen) → slice_get vs i ≡ Some v → v.made ≡ operation (scan s) → v.args ≡ a ∷ [] → cut i ≡ true
        → carry_in vs f (pass_blocks vs f cut bs) i n ≡ Some c → fault_of (h a) ≡ None → AllCells (IsInClass (kind_of (f a).shape.class)) (cells_in (h a))
        → h i ≡ row_by_row v.at (scanned_behind s (kind_of (f a).shape.class) (c ∷ []) (rows_in (h a))) }
    ensures same_outcomes { (store : ℕ) (vs : List Vertex) (f : ℕ → Tall) (cut other : ℕ → Bool) → IsOrdered vs → IsOfRows store vs f cut → IsOfRows store vs f other
        → (bs : List Block) (n : ℕ) (h g : ℕ → Outcome) → slice_get (pass_blocks vs f cut bs) n ≡ Some h → slice_get (pass_blocks vs f other bs) n ≡ Some g
        → (i : ℕ) (v : Vertex) → slice_get vs i ≡ Some v → cut i ≡ true → other i ≡ true → h i ≡ g i }
    ensures same_carries { (store : ℕ) (vs : List Vertex) (f : ℕ → Tall) (cut other : ℕ → Bool) → IsOrdered vs → IsOfRows store vs f cut → IsOfRows store vs f other
        → (bs : List Block) (n i a : ℕ) (v w : Vertex) → slice_get vs i ≡ Some v → v.args ≡ a ∷ [] → slice_get vs a ≡ Some w → cut a ≡ true → other a ≡ true
        → carry_in vs f (pass_blocks vs f cut bs) i n ≡ carry_in vs f (pass_blocks vs f other bs) i n }
{}

/// Over a block each cell of a value that is computed block by block has the class of its shape, and a number of an integer class is
/// within the class, where it is so of the stored columns. So a scan goes on from its one carry in each block where it has it.
pub fn values_over_a_block_are_within_their_class()
    ensures values { (columns : Columns) (of_stores : ℕ → List ℕ) (vs : List Vertex) (f : ℕ → Tall) (store : ℕ) (cut : ℕ → Bool) (bs : List Block) → IsBlockwise columns of_stores vs f store cut bs → AreInTheirClasses columns vs
        → (n : ℕ) (h : ℕ → Outcome) → slice_get (pass_blocks vs f cut bs) n ≡ Some h → (i : ℕ) (v : Vertex) → slice_get vs i ≡ Some v → cut i ≡ true
        → AllCells (IsInClass (kind_of (f i).shape.class)) (cells_in (h i)) }
    ensures kinds { (columns : Columns) (of_stores : ℕ → List ℕ) (vs : List Vertex) (f : ℕ → Tall) (store : ℕ) (cut : ℕ → Bool) (bs : List Block) → IsBlockwise columns of_stores vs f store cut bs → AreInTheirClasses columns vs
        → (n : ℕ) (h : ℕ → Outcome) → slice_get (pass_blocks vs f cut bs) n ≡ Some h → (i : ℕ) (v : Vertex) → slice_get vs i ≡ Some v → cut i ≡ true
        → HaveClass (f i).shape.class (h i) }
    ensures scans { (columns : Columns) (of_stores : ℕ → List ℕ) (vs : List Vertex) (f : ℕ → Tall) (store : ℕ) (cut : ℕ → Bool) (bs : List Block) → IsBlockwise columns of_stores vs f store cut bs → AreInTheirClasses columns vs
        → (n : ℕ) (h : ℕ → Outcome) → slice_get (pass_blocks vs f cut bs) n ≡ Some h → (i a : ℕ) (v : Vertex) (s : Scan) (c : Seen) → slice_get vs i ≡ Some v → v.made ≡ operation (scan s) → v.args ≡ a ∷ [] → cut i ≡ true
        → carry_in vs f (pass_blocks vs f cut bs) i n ≡ Some c → fault_of (h a) ≡ None → h i ≡ row_by_row v.at (scanned_behind s (kind_of (f a).shape.class) (c ∷ []) (rows_in (h a))) }
{}

/// The least fault of a pass goes from block to block: it is the earlier of what was found before and what is seen in the
/// block. So it is over the first blocks, and over all. A block's work may leave out what isn't numbered below the least
/// fault of the blocks before; and where a scan's carry is missing, the scan and all that isn't numbered below it are not,
/// since the scan's own fault lies in an earlier block. An operand is looked at with what is made of it, and each scan that
/// is looked at has its carry.
pub fn the_least_fault_goes_from_block_to_block()
    ensures all { (columns : Columns) (of_stores : ℕ → List ℕ) (vs : List Vertex) (f : ℕ → Tall) (store : ℕ) (cut : ℕ → Bool) (bs : List Block) → IsBlockwise columns of_stores vs f store cut bs
        → (work : List ℕ) → IsCutWork vs cut (IsAmong work) → IsLeast (own_in vs f) (IsAmong work) (fault_from vs f work None (pass_blocks vs f cut bs)) }
    ensures first { (columns : Columns) (of_stores : ℕ → List ℕ) (vs : List Vertex) (f : ℕ → Tall) (store : ℕ) (cut : ℕ → Bool) (bs : List Block) → IsBlockwise columns of_stores vs f store cut bs
        → (work : List ℕ) → IsCutWork vs cut (IsAmong work) → (n : ℕ) (h : ℕ → Outcome) → IsOver (block_columns (all_rows (take n bs))) no_cells vs f cut h
        → IsLeast (own_in vs (value_over f h)) (IsAmong work) (fault_from vs f work None (take n (pass_blocks vs f cut bs))) }
    ensures looked { (columns : Columns) (of_stores : ℕ → List ℕ) (vs : List Vertex) (f : ℕ → Tall) (store : ℕ) (cut : ℕ → Bool) (bs : List Block) → IsBlockwise columns of_stores vs f store cut bs
        → (work : List ℕ) → IsCutWork vs cut (IsAmong work) → (n : ℕ) (h : ℕ → Outcome) → slice_get (pass_blocks vs f cut bs) n ≡ Some h
        → (looked : List ℕ) → IsLookedAt vs work (fault_from vs f work None (take n (pass_blocks vs f cut bs))) looked → (c : Option Fault) → IsLeast (own_in vs (value_over f h)) (IsAmong looked) c
        → earlier (fault_from vs f work None (take n (pass_blocks vs f cut bs))) c ≡ fault_from vs f work None (take (suc n) (pass_blocks vs f cut bs)) }
    ensures missing { (columns : Columns) (of_stores : ℕ → List ℕ) (vs : List Vertex) (f : ℕ → Tall) (store : ℕ) (cut : ℕ → Bool) (bs : List Block) → IsBlockwise columns of_stores vs f store cut bs
        → (work : List ℕ) → IsCutWork vs cut (IsAmong work) → AreScansFree vs f work → (n : ℕ) → n < length (pass_blocks vs f cut bs)
        → IsLookedAt vs work (fault_from vs f work None (take n (pass_blocks vs f cut bs))) (looked_at vs (λ i. carry_in vs f (pass_blocks vs f cut bs) i n) work) }
    ensures closed { (vs : List Vertex) → AreNumbered vs → (carry : ℕ → Option Seen) (work : List ℕ) (i a : ℕ) (v w : Vertex) → IsAmong (looked_at vs carry work) i → slice_get vs i ≡ Some v → IsAmong v.args a → slice_get vs a ≡ Some w
        → IsAmong work a → IsAmong (looked_at vs carry work) a }
    ensures carried { (vs : List Vertex) (carry : ℕ → Option Seen) (work : List ℕ) (i : ℕ) → IsAmong (looked_at vs carry work) i → is_scan_at (slice_get vs i) ≡ true → (c : Seen) × (carry i ≡ Some c) }
    ensures associative { (c d e : Option Fault) → earlier c (earlier d e) ≡ earlier (earlier c d) e }
    ensures none_behind { (c : Option Fault) → earlier c None ≡ c }
{}
