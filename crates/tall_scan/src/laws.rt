// The laws that cutting rests on.

ghost use Rattle.tall_scan.specs.Laws.{CountsEnds, CutsBetween, ScanCounts, ScanCuts};

/// Nothing at run time. Its clauses are the laws of cutting.
pub fn laws()
    ensures cuts { CutsBetween }
    ensures counts { CountsEnds }
    ensures scan_cuts { ScanCuts }
    ensures scan_counts { ScanCounts }
{}
