//! Laws of what is kept of datastores and of a graph: each the contract of a function without a body.
ghost use Rattle.std.specs.Prelude.{◌≡◌, ◌<◌, ◌∷◌, ◌++◌, [], ℕ, List, Option, Some, slice_get};
ghost use Rattle.std.specs.List.{All};
ghost use Rattle.tall_outside.specs.Shelf.{Files};
ghost use Rattle.tall_semantics.specs.Deferred.{IsMeaning, Vertex};
ghost use Rattle.tall_semantics.specs.Faults.{At};
ghost use Rattle.tall_semantics.specs.Talls.{Columns, Tall};
ghost use Rattle.tall_store.specs.Options.{SeenOptions};
ghost use Rattle.tall_store.specs.Stores.{SeenStore};
ghost use Rattle.tall_stored.specs.StoredColumns.{AreStored, Store};
ghost use Rattle.tall_local.specs.Arguments.{Argument};
ghost use Rattle.tall_script.specs.Datastores.{datastore_call, options_in, store_with};
ghost use Rattle.tall_script.specs.ScriptValues.{TallValue};
ghost use Rattle.tall_script.specs.States.{State, with_openings};
ghost use Rattle.tall_script.specs.VertexLaws.{IsLower, MayStandBeside};
ghost use Rattle.tall_deferred.specs.Answers.{Extends};
ghost use Rattle.tall_sources.specs.Kept.{AreKept, CallsAreLower};
ghost use Rattle.tall_sources.specs.Opened.{makes, openings_due, store_due};
ghost use Rattle.tall_sources.specs.Talls.{AddsVariables};

/// A call of `tabularTextDatastore` makes the datastore that is due, or is refused as that is; what it may open is told by the
/// options.
pub fn calls_of_datastores()
    ensures options { (files : Files) (at : At) (wanted : Option SeenOptions) (s : State Tall) → store_with files at wanted s ≡ makes at (store_due files wanted) (with_openings (openings_due wanted) s) }
    ensures calls { (files : Files) (at : At) (args : List (Argument TallValue)) (s : State Tall) → datastore_call files at args s ≡ makes at (store_due files (options_in args)) (with_openings (openings_due (options_in args)) s) }
{}

/// The variables of a datastore that is there may be added with the number and the line of its call.
pub fn variables_may_be_added()
    ensures { (stores : List Store) (vs : List Vertex) (place : ℕ) (d : Store) → AreKept stores vs → slice_get stores place ≡ Some d → All (MayStandBeside d.at place) vs }
{}

/// What is kept of datastores and a graph holds at the start of a script, and each step keeps it: an expression whose number
/// is above those of the datastores' calls, `tall`, a datastore more by a call whose number is above those of the graph, and one
/// more by a property statement.
pub fn datastores_are_kept()
    ensures start { AreKept [] [] }
    ensures computed { (stores : List Store) (at : At) (old new : List Vertex) → AreKept stores old → CallsAreLower at stores → Extends at old new → AreKept stores new }
    ensures tall { (stores : List Store) (place : ℕ) (d : Store) (old new : List Vertex) → AreKept stores old → slice_get stores place ≡ Some d → AddsVariables d.at place d.store old new → AreKept stores new }
    ensures made { (stores : List Store) (at : At) (store : SeenStore) (vs : List Vertex) → AreKept stores vs → All (IsLower at) vs → AreKept (stores ++ record { at = at; store = store } ∷ []) vs }
    ensures changed { (stores : List Store) (place : ℕ) (d : Store) (store : SeenStore) (vs : List Vertex) → AreKept stores vs → slice_get stores place ≡ Some d → AreKept (stores ++ record { at = d.at; store = store } ∷ []) vs }
    ensures lower { (at next : At) (place : ℕ) (store : SeenStore) (old new : List Vertex) → at.number < next.number → AddsVariables at place store old new → All (IsLower next) old → All (IsLower next) new }
{}

/// Columns of a graph that are those of datastores were so of each earlier graph and of the datastores that there were; and a
/// solution was one.
pub fn earlier_columns_are_stored()
    ensures stored { (files : Files) (stores later : List Store) (old more : List Vertex) (columns : Columns) → AreKept stores old → AreStored files (stores ++ later) (old ++ more) columns → AreStored files stores old columns }
    ensures before { (at : At) (place : ℕ) (store : SeenStore) (old new : List Vertex) (columns : Columns) (f : ℕ → Tall) → AddsVariables at place store old new → IsMeaning columns new f → IsMeaning columns old f }
{}
