//! Laws of plans: what is needed for the roots of a gather, and the passes over datastores that compute it.
ghost use Rattle.std.specs.Prelude.{◌≡◌, ◌<◌, ◌≤◌, ◌+◌, ◌↔◌, ℕ, List, map, Option, Some, slice_get, true};
ghost use Rattle.tall_semantics.specs.Deferred.{AreThere, AreUnder, IsAmong, IsMeaning, IsOrdered, Vertex};
ghost use Rattle.tall_semantics.specs.Faults.{Fault, earlier};
ghost use Rattle.tall_semantics.specs.Levels.{IsWork, Nodes};
ghost use Rattle.tall_semantics.specs.Numbered.{levels_in};
ghost use Rattle.tall_semantics.specs.Openings.{share};
ghost use Rattle.tall_semantics.specs.Passes.{Pass, of_store};
ghost use Rattle.tall_semantics.specs.Plans.{HasRowsOf, IsPass, IsPlanned, is_scan_at, needed_of, plan_of, store_at, work_of};
ghost use Rattle.tall_semantics.specs.Ranks.{ranks_in};
ghost use Rattle.tall_semantics.specs.ScanLevels.{AfterScans, AreScans, PassedScans, Scans, chain_ranks_in, chains_in, scans_by};
ghost use Rattle.tall_semantics.specs.Shapes.{greatest_level, level};
ghost use Rattle.tall_semantics.specs.ShapesInOrder.{IsMade, shape_at};
ghost use Rattle.tall_semantics.specs.Talls.{Columns, Tall};

/// The needed places are those of all that the roots depend on, and none has a greater level than the roots. What a pass
/// goes over for a value is one datastore, with which all rows of the value and of its operands are.
pub fn what_is_needed()
    ensures under { (vs : List Vertex) (roots : List ℕ) → IsOrdered vs → AreThere vs roots → AreUnder vs roots (needed_of vs roots) }
    ensures levels { (vs : List Vertex) → IsMade vs → (roots : List ℕ) → AreThere vs roots → (i : ℕ) → IsAmong (needed_of vs roots) i → level (shape_at vs i) ≤ greatest_level (map (shape_at vs) roots) }
    ensures one_datastore { (vs : List Vertex) → IsMade vs → (i store : ℕ) (v : Vertex) → slice_get vs i ≡ Some v → (store_at vs i ≡ Some store) ↔ HasRowsOf vs store i }
{}

/// Each needed value with a datastore's rows, or with an operand that has them, is computed in the plan's pass of its level
/// over this datastore; a scan is also gone through in the pass of its chain. A pass has no other work, and over a datastore
/// there are at most as many passes as its share of the roots, so none where no root reads it.
pub fn a_plan_has_a_pass_for_each_level_and_datastore()
    ensures computed { (vs : List Vertex) → IsMade vs → (roots : List ℕ) → AreThere vs roots → (i store : ℕ) → IsAmong (needed_of vs roots) i → store_at vs i ≡ Some store → IsPlanned vs roots store (level (shape_at vs i)) i }
    ensures scanned { (vs : List Vertex) → IsMade vs → (roots : List ℕ) → AreThere vs roots → (i store : ℕ) → IsAmong (needed_of vs roots) i → store_at vs i ≡ Some store
        → is_scan_at (slice_get vs i) ≡ true → IsPlanned vs roots store (shape_at vs i).chain i }
    ensures work { (vs : List Vertex) (roots : List ℕ) (p : Pass) → IsPass (plan_of vs roots) p → p.work ≡ work_of vs (needed_of vs roots) p.store p.level }
    ensures passes { (vs : List Vertex) → IsMade vs → (roots : List ℕ) → AreThere vs roots → (store : ℕ) → of_store store (plan_of vs roots) ≤ share store (map (shape_at vs) roots) }
{}

/// After the passes of the levels up to k each needed scan over a datastore's rows with a chain of at most k, numbered below
/// the candidate, has its carries, and the next level's passes keep this. So a scan that is work of a level has them. They
/// come after the operand and before the scan, by levels and by ranks.
pub fn a_level_keeps_the_carries()
    ensures step { (ns : Nodes) (scans : Scans) (needed carried carried' : List ℕ) (k : ℕ) (c p : Option Fault) → AfterScans ns scans (IsAmong needed) (IsAmong carried) k c
        → PassedScans ns scans (IsAmong needed) (IsAmong carried) (IsAmong carried') (k + 1) c p → AfterScans ns scans (IsAmong needed) (IsAmong carried') (k + 1) (earlier p c) }
    ensures ready { (ns : Nodes) (scans : Scans) (needed carried : List ℕ) (k : ℕ) (c : Option Fault) (i : ℕ) → AfterScans ns scans (IsAmong needed) (IsAmong carried) k c
        → IsWork ns (IsAmong needed) (k + 1) c i → scans.is_scan i ≡ true → scans.carried_at i < ns.level i → IsAmong carried i }
    ensures levels { (columns : Columns) (vs : List Vertex) (f : ℕ → Tall) → IsMeaning columns vs f → IsOrdered vs → AreScans vs (scans_by vs f (chains_in f)) (levels_in f) }
    ensures ranks { (columns : Columns) (vs : List Vertex) (f : ℕ → Tall) → IsMeaning columns vs f → IsOrdered vs → AreScans vs (scans_by vs f (chain_ranks_in f)) (ranks_in vs f) }
{}
