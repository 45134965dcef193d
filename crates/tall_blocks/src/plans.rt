//! Laws of the passes of a plan, each the contract of a function without a body.
ghost use Rattle.std.specs.Prelude.{◌≡◌, ◌<◌, ◌+◌, ◌*◌, ◌⊎◌, ◌↔◌, ℕ, List, Option, Some, slice_get};
ghost use Rattle.tall_semantics.specs.Deferred.{AreThere, IsAmong, IsMeaning, IsOrdered, Vertex, own_in};
ghost use Rattle.tall_semantics.specs.Faults.{Fault};
ghost use Rattle.tall_semantics.specs.Least.{IsBelow, IsLeast};
ghost use Rattle.tall_semantics.specs.Levels.{IsWork};
ghost use Rattle.tall_semantics.specs.Numbered.{levels_in, nodes_by, number_at};
ghost use Rattle.tall_semantics.specs.Plans.{collected, needed_of, plan_of, stores_in, work_of};
ghost use Rattle.tall_semantics.specs.Ranks.{ranks_in};
ghost use Rattle.tall_semantics.specs.ScanLevels.{AfterScans, chain_ranks_in, chains_in, scans_by};
ghost use Rattle.tall_semantics.specs.Shapes.{level};
ghost use Rattle.tall_semantics.specs.ShapesInOrder.{IsMade, shape_at};
ghost use Rattle.tall_semantics.specs.Spaces.{store_of};
ghost use Rattle.tall_semantics.specs.Talls.{Columns, Tall};
ghost use Rattle.tall_blocks.specs.LevelWork.{AreInOrder, earliest, rest_of};
ghost use Rattle.tall_blocks.specs.PassWork.{IsDueOf, IsEndOf, IsWorkOf};

/// The passes of a plan stand in the order of their levels, and those of a level in the order of their datastores. A root's
/// column is kept by the pass of its level where its rows are the pass's datastore's, and by no other; it is work of this
/// pass.
pub fn passes_go_level_by_level()
    ensures order { (vs : List Vertex) (roots : List ℕ) → AreInOrder (plan_of vs roots) }
    ensures collected { (vs : List Vertex) → IsOrdered vs → (roots : List ℕ) → AreThere vs roots → (s k i : ℕ) → IsAmong (collected vs roots s k) i ↔ (IsAmong roots i × (store_of (shape_at vs i).space ≡ Some s) × (level (shape_at vs i) ≡ k)) }
    ensures of_work { (vs : List Vertex) → IsOrdered vs → (roots : List ℕ) → AreThere vs roots → (s k i : ℕ) → IsAmong (collected vs roots s k) i → IsAmong (work_of vs (needed_of vs roots) s k) i }
{}

/// By ranks the work of the plan's pass, below a candidate, is the level's work over its datastore and the scans whose
/// carries are due. What the passes of a level compute is the work of one of them, so their least faults join to the
/// level's. What stands in no pass is the work of the rank behind. Before the first level no scan is due.
pub fn the_work_of_a_pass_is_that_of_its_level()
    ensures work { (columns : Columns) (vs : List Vertex) (f : ℕ → Tall) → IsMade vs → IsMeaning columns vs f → IsOrdered vs → (needed : List ℕ) → AreThere vs needed → (c : Option Fault) (s k i : ℕ)
        → (IsAmong (work_of vs needed s k) i × IsBelow c (number_at (slice_get vs i)))
        ↔ ((IsWorkOf s vs f (ranks_in vs f) needed (2 * k) c i ⊎ IsEndOf s vs f (ranks_in vs f) needed (2 * k) c i) ⊎ IsDueOf s vs f (chain_ranks_in f) needed (2 * k) c i) }
    ensures joined { (columns : Columns) (vs : List Vertex) (f : ℕ → Tall) → IsMade vs → IsMeaning columns vs f → IsOrdered vs → (needed : List ℕ) → AreThere vs needed → (c : Option Fault) (k : ℕ) (found : ℕ → Option Fault)
        → ((s : ℕ) → s < stores_in vs → IsLeast (own_in vs f) (λ i. IsWorkOf s vs f (ranks_in vs f) needed (2 * k) c i ⊎ IsEndOf s vs f (ranks_in vs f) needed (2 * k) c i) (found s))
        → IsLeast (own_in vs f) (IsWork (nodes_by vs f (ranks_in vs f)) (IsAmong needed) (2 * k) c) (earliest found (stores_in vs)) }
    ensures rest { (columns : Columns) (vs : List Vertex) (f : ℕ → Tall) → IsMade vs → IsMeaning columns vs f → IsOrdered vs → (needed : List ℕ) → AreThere vs needed → (c : Option Fault) (k i : ℕ)
        → (IsAmong (rest_of vs needed k) i × IsBelow c (number_at (slice_get vs i))) ↔ IsWork (nodes_by vs f (ranks_in vs f)) (IsAmong needed) (2 * k + 1) c i }
    ensures start { (columns : Columns) (vs : List Vertex) (f : ℕ → Tall) → IsMade vs → IsMeaning columns vs f → IsOrdered vs → (needed carried : List ℕ) (c : Option Fault)
        → AfterScans (nodes_by vs f (levels_in f)) (scans_by vs f (chains_in f)) (IsAmong needed) (IsAmong carried) 0 c }
    ensures start_ranks { (columns : Columns) (vs : List Vertex) (f : ℕ → Tall) → IsMade vs → IsMeaning columns vs f → IsOrdered vs → (needed carried : List ℕ) (c : Option Fault)
        → AfterScans (nodes_by vs f (ranks_in vs f)) (scans_by vs f (chain_ranks_in f)) (IsAmong needed) (IsAmong carried) 0 c }
{}
