//! Laws of functions of columns over some rows and then others, each the contract of a function without a body.
ghost use Rattle.std.specs.Prelude.{◌≡◌, Result, ◌≤◌, ◌<◌, ◌-◌, ℕ, pos, Bool, false, List, [], ◌++◌, Some, length, map};
ghost use Rattle.tall_value.specs.declared.class.Kind.{Kind};
ghost use Rattle.tall_value.specs.declared.faults.CellFault.{CellFault};
ghost use Rattle.tall_value.specs.declared.functions.Method.{Method};
ghost use Rattle.tall_value.specs.declared.functions.Reduction.{Reduction};
ghost use Rattle.tall_value.specs.declared.functions.Scan.{Scan};
ghost use Rattle.tall_value.specs.Columns.{cells, numbered};
ghost use Rattle.tall_value.specs.Elementwise.{each_pair, each_row};
ghost use Rattle.tall_value.specs.Filters.{kept};
ghost use Rattle.tall_value.specs.Cells.{Seen, double};
ghost use Rattle.tall_value.specs.Distinct.{distinct, distinct_rows};
ghost use Rattle.tall_value.specs.Ends.{first_rows, last_rows};
ghost use Rattle.tall_value.specs.Groups.{all_values, group_counts, group_keys, group_value, group_values};
ghost use Rattle.tall_value.specs.Reductions.{reduced, used, every_cell};
ghost use Rattle.tall_blocks.specs.Carries.{Rows, scanned_behind};
ghost use Rattle.tall_blocks.specs.Folds.{Fold, Kept, PartFold, Value, by_parts, reduction_fold, joined, method_fold, method_omits, method_result, more, number_of, omits, reduction_result, start, value_of};
ghost use Rattle.tall_blocks.specs.RowPlaces.{kept_place, row_number_at, renumbered, with_numbers};
ghost use Rattle.tall_blocks.specs.GroupsOver.{groups_joined, groups_more, groups_of, keys_of};

/// Over the rows of a value operators, scans and filters give what they give over its cells, counted from 0, with the
/// numbers of the rows: of the rows that have a cell, and of the row of the fault.
pub fn places_and_numbers_of_rows_agree()
    ensures one { (g : Seen → Result Seen CellFault) (rs : Rows) → each_row g rs ≡ with_numbers rs (each_row g (numbered 0 (cells rs))) }
    ensures two { (g : Seen → Seen → Result Seen CellFault) (rs ss : Rows) → each_pair g rs ss ≡ with_numbers rs (each_pair g (numbered 0 (cells rs)) (numbered 0 (cells ss))) }
    ensures scans { (s : Scan) (a : Kind) (before : List Seen) (rs : Rows) → scanned_behind s a before rs ≡ with_numbers rs (scanned_behind s a before (numbered 0 (cells rs))) }
    ensures same_cells { (rs others : Rows) → length others ≡ length rs → cells (renumbered rs others) ≡ cells others }
    ensures kept_cells { (rs : Rows) (mask : List Seen) → cells (kept rs mask) ≡ kept (cells rs) mask }
    ensures kept_numbers { (rs : Rows) (mask : List Seen) (k : ℕ) → k < length (kept rs mask) → row_number_at (kept rs mask) k ≡ row_number_at rs (kept_place mask k) }
{}

/// What a reduction and a method of groups give is told by what is kept of the cells; with further cells it goes on from
/// there. What is kept of two parts joins, but for the sum in an integer class; joining is associative, and what is kept of
/// no cells changes nothing on either side.
pub fn reductions_go_on_from_what_is_kept()
    ensures reductions { (r : Reduction) (a : Kind) (cs : List Seen) → reduced r a cs ≡ reduction_result r a (more (reduction_fold r a) (start (reduction_fold r a)) (used (omits r) cs)) }
    ensures methods { (m : Method) (a : Kind) (cs : List Seen) → group_value m a cs ≡ method_result m a (more (method_fold m a) (start (method_fold m a)) (used (method_omits m) cs)) }
    ensures goes_on { (g : Fold) (s : Kept g) (cs ds : List Seen) → more g s (cs ++ ds) ≡ more g (more g s cs) ds }
    ensures used { (passes_nan : Bool) (cs ds : List Seen) → used passes_nan (cs ++ ds) ≡ used passes_nan cs ++ used passes_nan ds }
    ensures whole { (r : Reduction) (a : Kind) (cs ds : List Seen) → reduced r a (cs ++ ds) ≡ reduction_result r a (more (reduction_fold r a) (more (reduction_fold r a) (start (reduction_fold r a)) (used (omits r) cs)) (used (omits r) ds)) }
    ensures joins { (p : PartFold) (cs ds : List Seen) → value_of p (cs ++ ds) ≡ joined p (value_of p cs) (value_of p ds) }
    ensures associative { (p : PartFold) (s t u : Value p) → joined p s (joined p t u) ≡ joined p (joined p s t) u }
    ensures none_before { (p : PartFold) (s : Value p) → joined p (value_of p []) s ≡ s }
    ensures none_behind { (p : PartFold) (s : Value p) → joined p s (value_of p []) ≡ s }
{}

/// The first and the last rows of some rows and then others are among those of both parts.
pub fn ends_of_parts_give_the_ends()
    ensures first { (k : ℕ) (rs ss : Rows) → first_rows k (rs ++ ss) ≡ first_rows k (first_rows k rs ++ first_rows k ss) }
    ensures first_missing { (k : ℕ) (rs ss : Rows) → first_rows k (rs ++ ss) ≡ first_rows k rs ++ first_rows (k - length rs) ss }
    ensures first_enough { (k : ℕ) (rs ss : Rows) → k ≤ length rs → first_rows k (rs ++ ss) ≡ first_rows k rs }
    ensures last { (k : ℕ) (rs ss : Rows) → last_rows k (rs ++ ss) ≡ last_rows k (last_rows k rs ++ last_rows k ss) }
    ensures last_missing { (k : ℕ) (rs ss : Rows) → last_rows k (rs ++ ss) ≡ last_rows (k - length ss) rs ++ last_rows k ss }
{}

/// The distinct cells of some cells and then others are the distinct ones of both parts' distinct cells.
pub fn distinct_cells_of_parts_give_the_distinct_cells()
    ensures cells { (cs ds : List Seen) → distinct (cs ++ ds) ≡ distinct (distinct cs ++ distinct ds) }
    ensures rows { (cs ds : List Seen) → distinct_rows (cs ++ ds) ≡ distinct_rows (distinct cs ++ distinct ds) }
{}

/// The columns of `groupsummary` are told by the groups with what is kept of each. The groups of some rows and then others
/// are told by those of the first and the others' rows, and by both parts' groups where what is kept joins.
pub fn groups_of_parts_give_the_groups()
    ensures keys { (g : Fold) (passes_nan : Bool) (keys data' : List Seen) → keys_of (groups_of g passes_nan keys data') ≡ group_keys keys }
    ensures counts { (keys : List Seen) → group_counts keys ≡ map (λ (e : Seen × ℕ). double (Some (pos e.1))) (groups_of (by_parts (number_of every_cell)) false keys keys) }
    ensures values { (m : Method) (a : Kind) (keys data' : List Seen) → group_values m a keys data' ≡ all_values (map (λ (e : Seen × Kept (method_fold m a)). method_result m a e.1) (groups_of (method_fold m a) (method_omits m) keys data')) }
    ensures goes_on { (g : Fold) (passes_nan : Bool) (keys others data' more_data : List Seen) → length keys ≡ length data'
        → groups_of g passes_nan (keys ++ others) (data' ++ more_data) ≡ groups_more g passes_nan (groups_of g passes_nan keys data') others more_data }
    ensures joins { (p : PartFold) (passes_nan : Bool) (keys others data' more_data : List Seen) → length keys ≡ length data'
        → groups_of (by_parts p) passes_nan (keys ++ others) (data' ++ more_data) ≡ groups_joined p (groups_of (by_parts p) passes_nan keys data') (groups_of (by_parts p) passes_nan others more_data) }
{}
