//! Folds of rows, and of rows cut into blocks.
ghost use Rattle.std.specs.Prelude.{◌≡◌, ◌^◌, ◌<◌, length};
ghost use Rattle.std.specs.List.{All, flat_map};
ghost use Rattle.tall_clamp.specs.Folds.{of_rows};

use crate::folds::Fold;

/// The fold of rows in order; there are fewer than 2^40.
pub fn fold_rows<F: Fold>(rows: &[F::Input]) -> F
    requires { length rows.now < 2 ^ 40 }
    ensures value { result ≡ of_rows F.joined F.one F.nothing rows.now }
    ensures rows { F.rows result ≡ length rows.now }
    ensures fold { F.is_fold result }
    ensures inputs { All F.is_input rows.now }
{
    let mut total = F::unit();
    for v in rows {
        total = total.step(*v);
    }
    total
}

/// The folds of blocks, joined in order: the fold of all their rows, wherever the cuts are.
pub fn fold_blocks<F: Fold>(blocks: &[Vec<F::Input>]) -> F
    requires { length (flat_map (λ b. b.items) blocks.now) < 2 ^ 40 }
    ensures value { result ≡ of_rows F.joined F.one F.nothing (flat_map (λ b. b.items) blocks.now) }
    ensures inputs { All F.is_input (flat_map (λ b. b.items) blocks.now) }
{
    let mut total = F::unit();
    for block in blocks {
        total = total.join(fold_rows(block.as_slice()));
    }
    total
}

/// What rows give that are folded in blocks: what the list of all rows gives by definition.
pub fn outcome<F: Fold>(blocks: &[Vec<F::Input>]) -> F::Output
    requires { length (flat_map (λ b. b.items) blocks.now) < 2 ^ 40 }
    ensures { F.defined (flat_map (λ b. b.items) blocks.now) result }
{
    let total: F = fold_blocks(blocks);
    total.finish()
}
