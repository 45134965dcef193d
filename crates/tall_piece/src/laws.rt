//! Laws of the definitions, the contracts of functions without a body.
ghost use Rattle.std.specs.Prelude.{◌≡◌, ◌+◌, ◌⊎◌, ℕ, Bool, true, List, Option, length, slice_get};
ghost use Rattle.tall_value.specs.declared.functions.Scan.{Scan};
ghost use Rattle.tall_value.specs.Cells.{Seen};
ghost use Rattle.tall_semantics.specs.Faults.{Fault, earlier};
ghost use Rattle.tall_semantics.specs.Outcomes.{rows};
ghost use Rattle.tall_semantics.specs.Deferred.{IsAmong, Vertex, own_in};
ghost use Rattle.tall_semantics.specs.Least.{IsBelow, IsLeast};
ghost use Rattle.tall_semantics.specs.Numbered.{number_at};
ghost use Rattle.tall_semantics.specs.ShapesInOrder.{IsMade};
ghost use Rattle.tall_blocks.specs.Carries.{flat};
ghost use Rattle.tall_blocks.specs.PassWork.{IsEndOf, IsWorkOf};
ghost use Rattle.tall_part.specs.Operations.{outcome_of_rows};
ghost use Rattle.tall_part.specs.declared.operation.EndOperation.{EndOperation};
ghost use Rattle.tall_piece.specs.declared.wanted.Wanted.{Wanted};
ghost use Rattle.tall_piece.specs.declared.wanted.Way.TheVariants as way;
ghost use Rattle.tall_piece.specs.Carried.{AreAllCarries, AreCarries};
ghost use Rattle.tall_piece.specs.Passes.{PassOver, blocks_up_to, carry_of, fault_up_to, outcomes};
ghost use Rattle.tall_blocks.specs.BlockSamples as sample;
ghost use Rattle.tall_piece.specs.SamplePasses as samples;
ghost use Rattle.tall_piece.specs.Wants.{IsOfWay, class_at};

/// The sums behind the last block give the answer of a pass. Let p be the least fault of all blocks. A value that is computed
/// and numbered below p has the rows of its blocks; one at the end has the outcome of its operands' rows; the carries that were
/// kept of a scan are all that it has. The least fault of the pass's work is the earlier of p and of the least own fault of the
/// ends that are numbered below p.
pub fn all_blocks_give_the_answer_of_a_pass()
    ensures rows { (vs : List Vertex) (store : ℕ) (all : List ℕ) (wanted : List Wanted) (p : PassOver vs store all wanted) → (i : ℕ) → p.cut i ≡ true → IsBelow (fault_up_to p (length (outcomes p))) (number_at (slice_get vs i))
        → (p.f i).outcome ≡ rows (flat (blocks_up_to p (length (outcomes p)) i)) }
    ensures ends { (vs : List Vertex) (store : ℕ) (all : List ℕ) (wanted : List Wanted) (p : PassOver vs store all wanted) → IsMade vs → (i : ℕ) (e : EndOperation) (a b : ℕ) (w : IsOfWay vs i (way.End e a b))
        → IsEndOf store vs p.f p.levels p.needed (p.before + 1) p.candidate i → IsBelow (fault_up_to p (length (outcomes p))) (number_at (slice_get vs i))
        → (p.f i).outcome ≡ outcome_of_rows w.0.at e w.1 (class_at vs a) (class_at vs b) (flat (blocks_up_to p (length (outcomes p)) a)) (flat (blocks_up_to p (length (outcomes p)) b)) }
    ensures carries { (vs : List Vertex) (store : ℕ) (all : List ℕ) (wanted : List Wanted) (p : PassOver vs store all wanted) → IsMade vs → (i : ℕ) (s : Scan) (a : ℕ) → IsOfWay vs i (way.Carries s a)
        → (cells : List Seen) → AreCarries (λ b. carry_of p b i) (length (blocks_up_to p (length (outcomes p)) a)) cells → AreAllCarries (λ b. carry_of p b i) cells }
    ensures fault { (vs : List Vertex) (store : ℕ) (all : List ℕ) (wanted : List Wanted) (p : PassOver vs store all wanted) → (ends : List ℕ)
        → ((i : ℕ) → IsAmong ends i → IsEndOf store vs p.f p.levels p.needed (p.before + 1) p.candidate i)
        → ((i : ℕ) → IsEndOf store vs p.f p.levels p.needed (p.before + 1) p.candidate i → IsBelow (fault_up_to p (length (outcomes p))) (number_at (slice_get vs i)) → IsAmong ends i)
        → (q : Option Fault) → IsLeast (own_in vs p.f) (IsAmong ends) q
        → IsLeast (own_in vs p.f) (λ i. IsWorkOf store vs p.f p.levels p.needed (p.before + 1) p.candidate i ⊎ IsEndOf store vs p.f p.levels p.needed (p.before + 1) p.candidate i) (earlier (fault_up_to p (length (outcomes p))) q) }
{}

/// What a pass asks for can be met: two blocks of a column, of which an operator's column and the carries of a running sum are
/// wanted.
pub fn premises_can_be_met()
    ensures { PassOver sample.vertices 0 samples.all samples.wanted }
{}
