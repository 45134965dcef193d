//! Laws of the definitions, the contracts of functions without a body.
ghost use Rattle.std.specs.Prelude.{◌≡◌, ℕ, List, Some, slice_get};
ghost use Rattle.std.specs.List.{All};
ghost use Rattle.tall_outside.specs.Shelf.{Files};
ghost use Rattle.tall_value.specs.declared.class.Class.{Class};
ghost use Rattle.tall_value.specs.Cells.{seen_kind};
ghost use Rattle.tall_value.specs.Classes.{class_of};
ghost use Rattle.tall_semantics.specs.Deferred.{Vertex};
ghost use Rattle.tall_semantics.specs.Operations.{stored};
ghost use Rattle.tall_semantics.specs.Outcomes.{cells_in};
ghost use Rattle.tall_semantics.specs.Numbered.{AreReadings};
ghost use Rattle.tall_semantics.specs.RowsOfSpaces.{AreColumns};
ghost use Rattle.tall_semantics.specs.Talls.{Columns};
ghost use Rattle.tall_stored.specs.StoredColumns.{AreStored, Store, rows_of_stores};

/// Columns of files are what a graph asks of its columns: those of one datastore have its first reading fault, with the
/// number of its call, or else all have its rows, numbered over all its files, and cells of the class of their variable.
pub fn stored_columns_are_columns()
    ensures readings { (files : Files) (stores : List Store) (vs : List Vertex) (columns : Columns) → AreStored files stores vs columns → AreReadings columns vs }
    ensures classes { (files : Files) (stores : List Store) (vs : List Vertex) (columns : Columns) → AreStored files stores vs columns → (i : ℕ) (v : Vertex) (place variable : ℕ) (class : Class) → slice_get vs i ≡ Some v → v.made ≡ stored place variable class → All (λ c. class_of (seen_kind c) ≡ class) (cells_in (columns place variable)) }
    ensures columns { (files : Files) (stores : List Store) (vs : List Vertex) (columns : Columns) → AreStored files stores vs columns → AreColumns columns (rows_of_stores files stores) vs }
{}
