//! Laws of the definitions, the contracts of functions without a body.
ghost use Rattle.std.specs.Prelude.{◌≡◌, ◌<◌, ◌≤◌, ◌+◌, ◌^◌, ◌∷◌, ℕ, Bool, true, List, None, Option, Some, length, slice_get};
ghost use Rattle.tall_outside.specs.Shelf.{Files};
ghost use Rattle.tall_value.specs.declared.class.Class.{Class};
ghost use Rattle.tall_cut.specs.Rows.{Fields};
ghost use Rattle.tall_semantics.specs.Deferred.{IsMeaning, Vertex};
ghost use Rattle.tall_semantics.specs.InOrder.{tall_in, talls};
ghost use Rattle.tall_semantics.specs.Operations.{stored};
ghost use Rattle.tall_semantics.specs.Outcomes.{fault, rows};
ghost use Rattle.tall_semantics.specs.Talls.{Columns, Tall};
ghost use Rattle.tall_blocks.specs.Blocks.{AreAscending, AreBlocksOf, AreInTheirClasses, AreTables, IsVariable, block_columns};
ghost use Rattle.tall_column.specs.Columns.{SeenColumn};
ghost use Rattle.tall_value.specs.Columns.{numbered};
ghost use Rattle.tall_store.specs.declared.faults.ReadingFault.{ReadingFault};
ghost use Rattle.tall_store.specs.Blocks.{Block, HasRows, IsCutting, all_blocks, block_variables, blocks_from, first_block_fault};
ghost use Rattle.tall_store.specs.Stores.{SeenStore};
ghost use Rattle.tall_store.specs.Stored.{first_fault};
ghost use Rattle.tall_stored.specs.StoredColumns.{AreStored, Store, fault_of_reading, variable_class};
ghost use Rattle.tall_stored_blocks.specs.BlocksOfFiles.{held, stores, vertices, y_of_two_files};
ghost use Rattle.tall_stored_blocks.specs.StoredBlocks.{block_of, blocks_of, columns_of};

/// The columns of a list of datastores are stored columns of each graph whose variables are theirs.
pub fn columns_of_datastores_are_stored()
    ensures { (files : Files) (stores : List Store) (vs : List Vertex)
        → ((i : ℕ) (v : Vertex) (place variable : ℕ) (class : Class) → slice_get vs i ≡ Some v → v.made ≡ stored place variable class
        → (d : Store) × (slice_get stores place ≡ Some d) × (v.at ≡ d.at) × (variable < length d.store.selected) × (class ≡ variable_class d.store variable))
        → AreStored files stores vs (columns_of files stores) }
{}

/// However the records of each file are cut into blocks, these are blocks of the datastore's stored columns, where it has no
/// reading fault: in each block its variables have equal row numbers, and the numbers ascend from block to block. The blocks
/// of its ReadSize are such blocks. Where it has a reading fault, the first one is the outcome of each of its columns.
pub fn blocks_of_files_are_blocks_of_columns()
    ensures blocks { (files : Files) (stores : List Store) (vs : List Vertex) (columns : Columns) → AreStored files stores vs columns → (place : ℕ) (d : Store) → slice_get stores place ≡ Some d
        → (cut : ℕ → Bool) → ((i : ℕ) (v : Vertex) (s a : ℕ) → slice_get vs i ≡ Some v → cut i ≡ true → IsVariable v.made s a → s ≡ place) → first_fault d.store files ≡ None
        → (cutting : List Fields → List (List Fields)) → IsCutting cutting → AreBlocksOf columns vs cut (blocks_of d.store (blocks_from cutting d.store files 0 1 d.store.files)) }
    ensures tables { (files : Files) (stores : List Store) (vs : List Vertex) (columns : Columns) → AreStored files stores vs columns → (place : ℕ) (d : Store) → slice_get stores place ≡ Some d
        → (cut : ℕ → Bool) → ((i : ℕ) (v : Vertex) (s a : ℕ) → slice_get vs i ≡ Some v → cut i ≡ true → IsVariable v.made s a → s ≡ place) → first_fault d.store files ≡ None
        → (cutting : List Fields → List (List Fields)) → IsCutting cutting → AreTables vs cut (blocks_of d.store (blocks_from cutting d.store files 0 1 d.store.files)) }
    ensures ascending { (files : Files) (d : Store) → first_fault d.store files ≡ None
        → (cutting : List Fields → List (List Fields)) → IsCutting cutting → AreAscending (blocks_of d.store (blocks_from cutting d.store files 0 1 d.store.files)) }
    ensures sizes { (files : Files) (stores : List Store) (vs : List Vertex) (columns : Columns) → AreStored files stores vs columns → (place : ℕ) (d : Store) → slice_get stores place ≡ Some d
        → (cut : ℕ → Bool) → ((i : ℕ) (v : Vertex) (s a : ℕ) → slice_get vs i ≡ Some v → cut i ≡ true → IsVariable v.made s a → s ≡ place) → first_fault d.store files ≡ None → HasRows d.store.size
        → AreBlocksOf columns vs cut (blocks_of d.store (all_blocks d.store files)) × AreTables vs cut (blocks_of d.store (all_blocks d.store files)) × AreAscending (blocks_of d.store (all_blocks d.store files)) }
    ensures reading { (files : Files) (stores : List Store) (vs : List Vertex) (columns : Columns) → AreStored files stores vs columns → (place : ℕ) (d : Store) → slice_get stores place ≡ Some d
        → (g : ReadingFault) → first_fault d.store files ≡ Some g → (i : ℕ) (v : Vertex) (variable : ℕ) (class : Class) → slice_get vs i ≡ Some v → v.made ≡ stored place variable class
        → columns place variable ≡ fault (fault_of_reading place d.at g) }
{}

/// A block of records as a table, and its rows in a pass, are the same: each selected variable has the class and the cells of the table's
/// column, numbered from the block's first row. Where the block has no reading fault, each column has as many cells as the block has
/// records, and the number behind the last row is at most 2^40.
pub fn a_block_has_the_rows_of_its_table()
    ensures variable { (store : SeenStore) (block : Block) (s x : ℕ) → x < length store.selected
        → (e : List ℕ × SeenColumn) × (slice_get (block_variables store block) x ≡ Some e) × (e.1.class ≡ variable_class store x) × (block_columns (block_of store block) s x ≡ rows (numbered block.row e.1.cells)) }
    ensures height { (store : SeenStore) (block : Block) → first_block_fault store block ≡ None → (x : ℕ) (e : List ℕ × SeenColumn) → x < length store.selected
        → slice_get (block_variables store block) x ≡ Some e → length e.1.cells ≡ length block.records }
    ensures numbers { (store : SeenStore) (block : Block) (fields : Fields) (more : List Fields) → first_block_fault store block ≡ None → block.records ≡ fields ∷ more → block.row + length block.records ≤ 2 ^ 40 }
{}

/// The cells of stored columns are within their class, so those of all that a pass computes from them block by block are.
pub fn stored_columns_are_within_their_classes()
    ensures { (files : Files) (stores : List Store) (vs : List Vertex) (columns : Columns) → AreStored files stores vs columns → AreInTheirClasses columns vs }
{}

/// What these laws ask for can be met: a datastore of two files with a variable, and its sum.
pub fn premises_can_be_met()
    ensures stored { AreStored held stores vertices (columns_of held stores) }
    ensures meaning { IsMeaning (columns_of held stores) vertices (tall_in (talls (columns_of held stores) vertices)) }
    ensures no_fault { first_fault y_of_two_files held ≡ None }
    ensures sizes { HasRows y_of_two_files.size }
{}
