//! What datastores give of small files, against values that were written by hand.

ghost use Rattle.std.specs.Prelude.{◌≡◌, ◌<◌, ◌^◌, length};
ghost use Rattle.tall_cut.specs.Asked.{Asks};
ghost use Rattle.tall_store.specs.FileEnds.{name_of_file};

use crate::cases::CALLS;
use crate::counting::count_records;
use std::alloc::{AllocError, Global};
use std::fmt::Write;
use std::marker::Brand;
use std::process::Abort;
use std::test::Fail;
use tall_column::Table;
use tall_cut::{Lent, OpenedFile, ReadSize, Records};
use tall_outside::{MemShelf, Shelf, has_distinct_names};
use tall_store::{
    ColumnsFault, Datastore, FileEnd, FileRows, FileStep, Format, Options, ReadingFault, StoreFault,
};
use tall_value::{Cell, Class, Content};

/// The texts of a list that commas part; none of an empty text.
fn strings(alloc: Global, list: &str) -> Result<Vec<String>, AllocError> {
    let mut strings = Vec::new(alloc);
    if !list.is_empty() {
        for text in list.split(',') {
            strings.push(String::from_str(alloc, text)?)?;
        }
    }
    Ok(strings)
}

/// The format of a conversion without its `%`.
fn format_of(text: &str) -> Format {
    if text == "d8" {
        Format::Int8
    } else if text == "f" {
        Format::Double
    } else {
        Format::Text
    }
}

/// The formats of a list that commas part; none of an empty text.
fn formats_of(alloc: Global, list: &str) -> Result<Vec<Format>, AllocError> {
    let mut formats = Vec::new(alloc);
    if !list.is_empty() {
        for text in list.split(',') {
            formats.push(format_of(text))?;
        }
    }
    Ok(formats)
}

/// Sets an option.
fn set(alloc: Global, options: &mut Options, name: &str, value: &str) -> Result<(), AllocError> {
    if name == "size" {
        options.size = match value.parse::<u32>() {
            Ok(rows) => ReadSize::Rows(rows),
            Err(_) => ReadSize::File,
        };
    } else if name == "files" {
        options.files = strings(alloc, value)?;
    } else if name == "select" {
        options.selected = Some(strings(alloc, value)?);
    } else {
        options.formats = Some(formats_of(alloc, value)?);
    }
    Ok(())
}

/// The options of a plan: the file a.csv with all defaults, but for `NAME VALUE|NAME VALUE`.
fn options_of(alloc: Global, plan: &str) -> Result<Options, AllocError> {
    let mut options = Options {
        files: strings(alloc, "a.csv")?,
        delimiter: b',',
        size: ReadSize::Rows(20000),
        missing: Vec::new(alloc),
        selected: None,
        formats: None,
        header: true,
    };
    for part in plan.split('|') {
        if let Some((name, value)) = part.split_once(' ') {
            set(alloc, &mut options, name, value)?;
        }
    }
    Ok(options)
}

/// Writes a cell.
fn write_cell(text: &mut String, cell: &Cell<'_>) -> Result<(), AllocError> {
    match cell.content() {
        Content::Whole(_, n) => write!(text, " {n}")?,
        Content::Logical(_) => write!(text, " ?")?,
        Content::Double(d) => match d.get() {
            Some(n) => write!(text, " {n}")?,
            None => write!(text, " NaN")?,
        },
        Content::Text(t) => write!(text, " {t:?}")?,
    }
    Ok(())
}

/// Writes each row of a table as a line.
fn write_rows(text: &mut String, table: &Table) -> Result<(), AllocError> {
    for row in 0..table.height() {
        for k in 0..table.width() {
            let column = table.at(k);
            if row < column.len() {
                write_cell(text, &column.get(row))?;
            }
        }
        writeln!(text)?;
    }
    Ok(())
}

/// Writes a fault as a line.
fn write_fault(text: &mut String, fault: ReadingFault) -> Result<(), AllocError> {
    let ReadingFault {
        kind,
        file,
        row,
        column,
    } = fault;
    writeln!(text, "{kind:?} at file {file} row {row} column {column}")?;
    Ok(())
}

/// Writes a block; whether it has no fault.
fn write_block(
    text: &mut String,
    store: &Datastore,
    block: &Records,
    file: u32,
    row: u64,
) -> Result<bool, AllocError> {
    if file >= store.file_count() || row < 1 || row > 1 << 40 {
        return Ok(false);
    }
    match store.to_columns(block, file, row) {
        Ok(table) => write_rows(text, &table)?,
        Err(ColumnsFault::Reading(fault)) => {
            write_fault(text, fault)?;
            return Ok(false);
        }
        Err(ColumnsFault::Memory) => return Err(AllocError),
    }
    Ok(true)
}

/// Writes how the reading of a file ended, and moves the row past its records.
fn write_end(text: &mut String, end: FileEnd, row: &mut u64) -> Result<(), AllocError> {
    match end {
        FileEnd::Whole(records) => *row = row.saturating_add(records),
        FileEnd::Reading(fault) => write_fault(text, fault)?,
        other => writeln!(text, "{other:?}")?,
    }
    Ok(())
}

/// Writes the blocks of a file; how it ended, or none where a block has a fault.
fn write_blocks<'s, S: Shelf, K: OpenedFile>(
    alloc: Global,
    text: &mut String,
    store: &Datastore,
    rows: &mut FileRows<'s, S, K>,
) -> Result<Option<FileEnd>, AllocError>
    requires { K.limit ≡ 2 ^ 50 }
{
    let mut records = Records::new(alloc);
    for _turn in 0..100u32 {
        match rows.next(1) {
            FileStep::Block(block) => {
                records.parse(alloc, &block.raw)?;
                if !write_block(text, store, &records, block.file, block.row)? {
                    return Ok(None);
                }
                rows.give_back(block.raw);
            }
            FileStep::Ended(end) => return Ok(Some(end)),
        }
    }
    Ok(None)
}

/// Writes the rows of a file of a lent shelf; the shelf comes back.
fn write_file<'s, S: Shelf, K: OpenedFile>(
    alloc: Global,
    lent: Lent<'s, S>,
    store: &Datastore,
    file: u32,
    row: &mut u64,
    text: &mut String,
) -> Lent<'s, S>
    requires file { file < length store.now.files }
    requires asks { Asks S.Shelf K.OpenedFile lent.shelf.ghost_name lent.shelf.now (name_of_file store.now file) (2 ^ 50) }
{
    match FileRows::<'s, S, K>::open(store, lent, file, *row) {
        Ok(rows) => {
            let mut rows = rows;
            if let Ok(Some(end)) = write_blocks(alloc, text, store, &mut rows) {
                let _ = write_end(text, end, row);
            }
            rows.into_lent()
        }
        Err(refused) => {
            let _ = write_end(text, refused.end, row);
            refused.lent
        }
    }
}

/// Writes the rows of a file of a shelf.
fn write_rows_of<S: Shelf>(
    alloc: Global,
    shelf: &mut S,
    store: &Datastore,
    file: u32,
    row: &mut u64,
    text: &mut String,
)
    requires { file < length store.now.files }
{
    let _lent = write_file::<S, Brand>(alloc, Lent { shelf }, store, file, row, text);
}

/// Writes the variables and all rows of a datastore, or why there is none.
fn write_store(
    alloc: Global,
    shelf: &mut MemShelf,
    opened: Result<Datastore, StoreFault>,
    text: &mut String,
) -> Result<(), AllocError> {
    let store = match opened {
        Ok(store) => store,
        Err(fault) => {
            write!(text, "{fault:?}")?;
            return Ok(());
        }
    };
    for column in 1..store.variable_count() + 1 {
        let name = store.variable_name(column as u32);
        if let Some(k) = store.find(name) {
            if k < store.selected_count() {
                write!(text, "{name}:{:?} ", store.class_at(k))?;
            }
        }
    }
    writeln!(text)?;
    let mut row = 1;
    for file in 0..store.file_count() {
        write_rows_of(alloc, shelf, &store, file, &mut row, text);
    }
    Ok(())
}

/// A shelf with these files.
fn shelf_of(
    rt: &impl Abort,
    alloc: Global,
    files: &[(&str, &[u8])],
) -> Result<MemShelf, AllocError> {
    let mut held = Vec::new(alloc);
    for (name, bytes) in files {
        held.push((String::from_str(alloc, name)?, bytes.to_vec(alloc)?))?;
    }
    assert!(rt; has_distinct_names(held.as_slice()));
    MemShelf::new(alloc, held)
}

/// The variables and rows of a datastore over these files, as text.
fn text_of(
    rt: &impl Abort,
    alloc: Global,
    files: &[(&str, &[u8])],
    plan: &str,
) -> Result<String, AllocError> {
    let mut text = String::new(alloc);
    let mut shelf = shelf_of(rt, alloc, files)?;
    let options = options_of(alloc, plan)?;
    if options.files.len() < 1 << 20 {
        let opened = Datastore::open(alloc, &mut shelf, options);
        write_store(alloc, &mut shelf, opened, &mut text)?;
    }
    Ok(text)
}

/// Each file gives its text.
fn all_give(
    rt: &impl Abort,
    alloc: Global,
    rows: &[(&[u8], &str, &str)],
) -> Result<(), AllocError> {
    for row in rows {
        let text = text_of(rt, alloc, &[("a.csv", row.0)], row.1)?;
        assert_eq!(rt; text.as_str(), row.2);
    }
    Ok(())
}

#[test]
fn small_files_are_read(rt: HostRuntime) -> Result<(), Fail> {
    all_give(&rt, rt.alloc(), &CALLS)?;
    Ok(())
}

#[test]
fn files_follow_each_other(rt: HostRuntime) -> Result<(), Fail> {
    let files: [(&str, &[u8]); 3] = [
        ("a.csv", b"x\n1\n2\n3\n"),
        ("b.csv", b"x\n4\n"),
        ("c.csv", b"y\n5\n"),
    ];
    let plan = "files a.csv,b.csv,c.csv,d.csv|size 2|formats d8";
    let text = text_of(&rt, rt.alloc(), &files, plan)?;
    let mut shelf = shelf_of(&rt, rt.alloc(), &files)?;
    let store = changed(open_plan(&rt, rt.alloc(), &mut shelf, plan)?)?;
    assert!(rt; store.file_count() > 1);
    let end = count_records(&mut shelf, &store, 0, 1);
    assert_eq!(rt; end, FileEnd::Whole(3));
    assert_eq!(rt;
        text.as_str(),
        "x:Int8 \n 1\n 2\n 3\n 4\nHeaderDiffers at file 2 row 5 column 0\nNoFile at file 3 row 5 column 0\n"
    );
    Ok(())
}

/// The datastore of a plan over a shelf.
fn open_plan(
    rt: &impl Abort,
    alloc: Global,
    shelf: &mut MemShelf,
    plan: &str,
) -> Result<Result<Datastore, StoreFault>, AllocError> {
    let options = options_of(alloc, plan)?;
    assert!(rt; options.files.len() < 1 << 20);
    Ok(Datastore::open(alloc, shelf, options))
}

/// A datastore of the variables x and y.
fn xy(rt: &impl Abort, alloc: Global) -> Result<Datastore, AllocError> {
    let mut shelf = shelf_of(rt, alloc, &[("a.csv", b"x,y\n1,b\n")])?;
    match open_plan(rt, alloc, &mut shelf, "")? {
        Ok(store) => Ok(store),
        Err(_) => Err(AllocError),
    }
}

/// The datastore that a change made.
fn changed(answer: Result<Datastore, StoreFault>) -> Result<Datastore, AllocError> {
    match answer {
        Ok(store) => Ok(store),
        Err(_) => Err(AllocError),
    }
}

/// The place of a name in the selection, as a number that is -1 where there is none.
fn place(store: &Datastore, name: &str) -> i64 {
    match store.find(name) {
        Some(k) => k as i64,
        None => -1,
    }
}

/// The selection of y alone.
fn y_alone(alloc: Global, store: &Datastore) -> Result<Datastore, AllocError> {
    let names = strings(alloc, "y")?;
    changed(store.with_selected(names.as_slice()))
}

/// What is told of a datastore of y alone.
fn is_y_alone(store: &Datastore) -> bool {
    place(store, "y") == 0 && place(store, "x") == -1 && store.selected_count() == 1
}

#[test]
fn a_change_keeps_the_rest(rt: HostRuntime) -> Result<(), Fail> {
    let selected = y_alone(rt.alloc(), &xy(&rt, rt.alloc())?)?;
    let sized = changed(selected.with_size(ReadSize::File))?;
    assert!(rt; is_y_alone(&sized) && sized.size() == ReadSize::File);
    let formatted = changed(sized.with_formats(&[Format::Text, Format::Uint8]))?;
    assert!(rt; formatted.selected_count() > 0 && formatted.class_at(0) == Class::Uint8);
    Ok(())
}

/// The opening of the shelf fails, or the read of this number, counted from 1; the answer tells it.
fn tells_failure(rt: &impl Abort, alloc: Global, call: u64) -> Result<(), AllocError> {
    let mut shelf = shelf_of(rt, alloc, &[("a.csv", b"x\n1\n")])?;
    shelf.give_at_most(1);
    if call == 0 {
        shelf.fail_open(1)?;
    } else {
        shelf.fail_read(call)?;
    }
    let has_failed = match open_plan(rt, alloc, &mut shelf, "")? {
        Ok(_) => false,
        Err(fault) => fault == StoreFault::Failed,
    };
    assert!(rt; has_failed == (shelf.faults() > 0), "call {call}");
    Ok(())
}

#[test]
fn failures_of_the_shelf_are_told(rt: HostRuntime) -> Result<(), Fail> {
    for call in 0..6u64 {
        tells_failure(&rt, rt.alloc(), call)?;
    }
    Ok(())
}
