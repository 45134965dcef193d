//! Laws of the definitions, each the contract of a function without a body.
ghost use Rattle.std.specs.Prelude.{◌≡◌, ℕ, Bool, List, Option, Some, slice_get};
ghost use Rattle.tall_value.specs.Cells.{Seen};
ghost use Rattle.tall_dense.specs.Columns.{SeenColumn};
ghost use Rattle.tall_semantics.specs.Outcomes.{Outcome};
ghost use Rattle.tall_semantics.specs.Talls.{Columns, Tall};
ghost use Rattle.tall_semantics.specs.Deferred.{Vertex};
ghost use Rattle.tall_semantics.specs.ShapesInOrder.{IsMade};
ghost use Rattle.tall_blocks.specs.Blocks.{Block, block_columns};
ghost use Rattle.tall_blocks.specs.Pieces.{pass_blocks};
ghost use Rattle.tall_blocks.specs.SeenFaults.{IsBlockwise};
ghost use Rattle.tall_block.specs.BlockWork.{IsBlock};
ghost use Rattle.tall_block.specs.PassBlocks.{IsTold};

/// Each block of a pass is one whose values `block_values` computes, where its table has the block's variables, scalars are known,
/// and the carries that are known are the defined ones.
pub fn a_block_of_a_pass_can_be_computed()
    ensures { (columns : Columns) (of_stores : ℕ → List ℕ) (vs : List Vertex) (f : ℕ → Tall) (store : ℕ) (cut : ℕ → Bool) (bs : List Block) → IsBlockwise columns of_stores vs f store cut bs → IsMade vs
        → (n : ℕ) (h : ℕ → Outcome) (b : Block) → slice_get (pass_blocks vs f cut bs) n ≡ Some h → slice_get bs n ≡ Some b
        → (table : List (List ℕ × SeenColumn)) (scalars carries : ℕ → Option Seen) (first : ℕ) (work : List ℕ) → IsTold vs table scalars carries first work f cut (pass_blocks vs f cut bs) n b
        → (so_far : ℕ → List Seen) × IsBlock vs table scalars carries first work (block_columns b) so_far f cut h }
{}
