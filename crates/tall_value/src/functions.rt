//! The functions of whole columns.
ghost use Rattle.std.specs.Prelude.{◌≡◌, List, Ok, false, length, true, ℕ};
ghost use Rattle.std.specs.List.{All};
ghost use Rattle.tall_value.specs.declared.class.Kind.{Kind};
ghost use Rattle.tall_value.specs.Cells.{Seen, seen_kind};
ghost use Rattle.tall_value.specs.ClassTables.{binary_kind, unary_kind};
ghost use Rattle.tall_value.specs.Columns.{HasKind, RowHasKind};
ghost use Rattle.tall_value.specs.Distinct.{distinct};
ghost use Rattle.tall_value.specs.Elementwise.{binary_rows, scalar_rows, unary_rows};
ghost use Rattle.tall_value.specs.FunctionClasses.{reduction_kind, scan_kind, summary_kinds};
ghost use Rattle.tall_value.specs.GroupKinds.{HaveKinds};
ghost use Rattle.tall_value.specs.GroupSummary.{summary_columns};
ghost use Rattle.tall_value.specs.Reductions.{reduced};
ghost use Rattle.tall_value.specs.Scans.{scanned};

use crate::operators::{Binary, Unary};

/// A function of all rows of a column that gives one cell (docs/LANGUAGE.md, functions).
#[derive(Clone, Copy, Debug, PartialEq, Eq)]
pub enum Reduction {
    /// `sum(x)`, with `'native'` and with `'omitnan'`
    Sum { native: bool, omitnan: bool },
    /// `min(x)`
    Min,
    /// `max(x)`
    Max,
    /// `any(x)`
    Any,
    /// `all(x)`
    All,
    /// `nnz(x)`
    Nnz,
    /// `numel(x)`
    Numel,
    /// `height(T)`, taken over the table's first column
    Height,
}

/// A function that gives each row the fold of the rows up to it (docs/LANGUAGE.md, functions).
#[derive(Clone, Copy, Debug, PartialEq, Eq)]
pub enum Scan {
    /// `cumsum(x)`
    CumSum,
    /// `cummin(x)`
    CumMin,
    /// `cummax(x)`
    CumMax,
}

/// A method of `groupsummary` (docs/LANGUAGE.md, functions).
#[derive(Clone, Copy, Debug, PartialEq, Eq)]
pub enum Method {
    /// No method: the rows of each group alone.
    Count,
    /// `'sum'`
    Sum,
    /// `'sumnative'`
    SumNative,
    /// `'min'`
    Min,
    /// `'max'`
    Max,
    /// `'nnz'`
    Nnz,
    /// `'nummissing'`
    Nummissing,
}

/// What the definitions make of columns of a kind has the kind that the tables of classes say: operators row by row, with
/// a column or with a scalar, reductions, scans and distinct values.
pub fn columns_have_their_kind()
    ensures one { (op : Unary) (k j : Kind) (rows outs : List (ℕ × Seen)) → All (RowHasKind k) rows → unary_kind op k ≡ Ok j → unary_rows op rows ≡ Ok outs → All (RowHasKind j) outs }
    ensures two { (op : Binary) (k l j : Kind) (rows others outs : List (ℕ × Seen)) → All (RowHasKind k) rows → All (RowHasKind l) others → binary_kind op k false l false ≡ Ok j → binary_rows op rows others ≡ Ok outs → All (RowHasKind j) outs }
    ensures left { (op : Binary) (x : Seen) (k j : Kind) (rows outs : List (ℕ × Seen)) → All (RowHasKind k) rows → binary_kind op (seen_kind x) true k false ≡ Ok j → scalar_rows op true x rows ≡ Ok outs → All (RowHasKind j) outs }
    ensures right { (op : Binary) (x : Seen) (k j : Kind) (rows outs : List (ℕ × Seen)) → All (RowHasKind k) rows → binary_kind op k false (seen_kind x) true ≡ Ok j → scalar_rows op false x rows ≡ Ok outs → All (RowHasKind j) outs }
    ensures reduced { (r : Reduction) (k j : Kind) (cs : List Seen) (c : Seen) → All (HasKind k) cs → reduction_kind r k ≡ Ok j → reduced r k cs ≡ Ok c → HasKind j c }
    ensures scanned { (s : Scan) (k j : Kind) (rows outs : List (ℕ × Seen)) → All (RowHasKind k) rows → scan_kind s k ≡ Ok j → scanned s k rows ≡ Ok outs → All (RowHasKind j) outs }
    ensures distinct { (k : Kind) (cs : List Seen) → All (HasKind k) cs → All (HasKind k) (distinct cs) }
{}

/// The columns of `groupsummary` have the kinds that its table of classes says: the key, the counts, the values.
pub fn groups_have_their_kinds()
    ensures { (m : Method) (key a : Kind) (kinds : List Kind) (keys data' : List Seen) (columns : List (List Seen)) → length keys ≡ length data' → All (HasKind key) keys → All (HasKind a) data' → summary_kinds m key a ≡ Ok kinds → summary_columns m a keys data' ≡ Ok columns → HaveKinds kinds columns }
{}
