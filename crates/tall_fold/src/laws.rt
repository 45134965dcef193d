//! What the definition of a scan over parts has to do with the scan of a whole column.
ghost use Rattle.std.specs.Prelude.{◌≡◌, ◌++◌, [], IsOk, List, ℕ};
ghost use Rattle.std.specs.List.{All};
ghost use Rattle.tall_value.specs.declared.class.Kind.{Kind};
ghost use Rattle.tall_value.specs.declared.functions.Scan.{Scan};
ghost use Rattle.tall_value.specs.Cells.{Seen};
ghost use Rattle.tall_value.specs.Columns.{RowHasKind, cells};
ghost use Rattle.tall_value.specs.FunctionClasses.{scan_kind};
ghost use Rattle.tall_value.specs.Scans.{scanned};
ghost use Rattle.tall_fold.specs.Carries.{followed, result_kind, scan_rows};

/// From no rows on, the folds up to each row are the scan of the column, of a kind that the scan takes; and those of two
/// parts, one after the other, are those of both, of which the first fault is the fault.
pub fn scans_are_of_the_whole()
    ensures whole { (op : Scan) (a : Kind) (rows : List (ℕ × Seen)) → IsOk (scan_kind op a) → All (RowHasKind a) rows → scan_rows op (result_kind a) [] rows ≡ scanned op a rows }
    ensures parts { (op : Scan) (a : Kind) (before : List Seen) (rows more : List (ℕ × Seen)) → scan_rows op a before (rows ++ more) ≡ followed (scan_rows op a before rows) (scan_rows op a (before ++ cells rows) more) }
{}
