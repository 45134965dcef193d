//! Laws of the definitions, the contracts of functions without a body.
ghost use Rattle.tall_store.specs.FileEnds.{FilesFollow};
ghost use Rattle.tall_store.specs.Blocks.{CellsJoin, FaultsJoin, SizesCut, SizesHold, TablesJoin};

/// Blocks make the whole: however the records of each file are cut into blocks, the cells of a variable in the blocks, one
/// after the other, are its stored cells, and the first reading fault that is met file by file and block by block is the
/// first of the datastore. Each ReadSize cuts so: a block has its number of records of one file, and the last of a file what
/// is left. The tables that a map function is called with end at the datastore's first fault.
pub fn blocks_make_the_whole()
    ensures cells { CellsJoin }
    ensures faults { FaultsJoin }
    ensures sizes { SizesCut }
    ensures tables { TablesJoin }
    ensures full { SizesHold }
{}

/// The walk over the files of a datastore goes from file to file: from a place in the list on it is the file there, with its own
/// fault or none and its records, and then the walk from the next place and the row that comes next behind them.
pub fn files_follow()
    ensures { FilesFollow }
{}
