//! The making of a datastore (docs/LANGUAGE.md, datastores in scripts).
ghost use Rattle.std.specs.Prelude.{◌≡◌, ◌≢◌, ◌<◌, ◌^◌, ◌∷◌, [], IfErr, IfSome, Err, Some, false, ℕ, length, map, option_and_then};
ghost use Rattle.tall_outside.specs.OpenedNames.{Adds, OpensOnce};
ghost use Rattle.tall_outside.specs.ShelfCounts.{IsLater, shelf_counts};
ghost use Rattle.tall_store.specs.Causes.{HasOpened, IsExplained, RefusesUnopened};
ghost use Rattle.tall_store.specs.Opening.{IsWithin, first_name};
ghost use Rattle.tall_store.specs.Options.{is_accepted, options_seen};
ghost use Rattle.tall_store.specs.declared.faults.StoreFault.TheVariants as store_fault;
ghost use Rattle.tall_semantics.specs.Talls.{Tall};
ghost use Rattle.tall_local.specs.Lists.{all_of};
ghost use Rattle.tall_script.specs.Datastores.{value_in_memory};
ghost use Rattle.tall_script.specs.OpeningLaws.{makes_datastore};
ghost use Rattle.tall_script.specs.StoreArguments as arguments;
ghost use Rattle.tall_deferred.specs.Values.{lent_at};
ghost use Rattle.tall_sources.specs.Given.{options_lent};
ghost use Rattle.tall_sources.specs.Opened.{FirstIsWithin, IsOf, OpensTo, first_given, store_due, unnamed, without_name};

use crate::options::options_given;
use std::alloc::Global;
use tall_deferred::ScriptRef;
use tall_outside::Shelf;
use tall_store::{Datastore, Options, StoreFault};
use tall_value::Text;

/// Why a call makes no datastore. A file is named where the fault is the file's.
#[derive(Drop)]
pub enum OpenFault {
    /// The options are not accepted.
    BadArgument,
    /// The first file isn't there.
    NoFile(Text),
    /// The first file has no record, or a field of its header isn't UTF-8.
    NoHeader(Text),
    /// The shelf failed.
    Failed(Text),
    /// More than 2^50 bytes came of the first file.
    TooLarge(Text),
    /// Memory was wanting.
    Memory,
}

/// The files of one datastore are fewer than this.
const FILE_LIMIT: usize = 1 << 20;

/// The fault of an opening, with the name of the file.
fn of_store(fault: StoreFault, first: Text) -> OpenFault
    ensures fault { without_name result ≡ fault }
    ensures file { IsOf first result }
{
    match fault {
        StoreFault::BadArgument => OpenFault::BadArgument,
        StoreFault::NoFile => OpenFault::NoFile(first),
        StoreFault::Failed => OpenFault::Failed(first),
        StoreFault::TooLarge => OpenFault::TooLarge(first),
        StoreFault::NoHeader => OpenFault::NoHeader(first),
        StoreFault::Memory => OpenFault::Memory,
    }
}

/// The datastore of options, whose first file has this name.
fn open_named<S: Shelf>(
    alloc: Global,
    shelf: &mut S,
    options: Options,
    first: Text,
) -> Result<Datastore, OpenFault>
    requires few { length options.files.items < 2 ^ 20 }
    requires first { first ≡ first_name (options_seen options).files }
    ensures told { IfSome (S.held shelf.old) (λ files. OpensTo (store_due files (Some (options_seen options))) result) }
    ensures within { IfSome (S.held shelf.old) (λ files. IsWithin files (options_seen options) → unnamed result ≢ Err store_fault.TooLarge) }
    ensures held { S.held shelf.new ≡ S.held shelf.old }
    ensures explained { IsExplained (unnamed result) (shelf_counts S.Shelf shelf.old) (shelf_counts S.Shelf shelf.new) }
    ensures named { IfErr result (λ e. IsOf (first_name (options_seen options).files) e) }
    ensures later { IsLater (shelf_counts S.Shelf shelf.old) (shelf_counts S.Shelf shelf.new) }
    ensures refused { is_accepted (options_seen options) ≡ false → RefusesUnopened (unnamed result) × (shelf.new ≡ shelf.old) }
    ensures once { OpensOnce (first_name (options_seen options).files) (S.opened shelf.old) (S.opened shelf.new) }
    ensures opened { HasOpened (unnamed result) → Adds (first_name (options_seen options).files ∷ []) (S.opened shelf.old) (S.opened shelf.new) }
{
    match Datastore::open(alloc, shelf, options) {
        Ok(store) => Ok(store),
        Err(fault) => Err(of_store(fault, first)),
    }
}

/// The datastore of options.
fn open_options<S: Shelf>(
    alloc: Global,
    shelf: &mut S,
    options: Options,
) -> Result<Datastore, OpenFault>
    ensures told { IfSome (S.held shelf.old) (λ files. OpensTo (store_due files (Some (options_seen options))) result) }
    ensures within { IfSome (S.held shelf.old) (λ files. IsWithin files (options_seen options) → unnamed result ≢ Err store_fault.TooLarge) }
    ensures held { S.held shelf.new ≡ S.held shelf.old }
    ensures explained { IsExplained (unnamed result) (shelf_counts S.Shelf shelf.old) (shelf_counts S.Shelf shelf.new) }
    ensures named { IfErr result (λ e. IsOf (first_name (options_seen options).files) e) }
    ensures later { IsLater (shelf_counts S.Shelf shelf.old) (shelf_counts S.Shelf shelf.new) }
    ensures refused { is_accepted (options_seen options) ≡ false → RefusesUnopened (unnamed result) × (shelf.new ≡ shelf.old) }
    ensures once { OpensOnce (first_name (options_seen options).files) (S.opened shelf.old) (S.opened shelf.new) }
    ensures opened { HasOpened (unnamed result) → Adds (first_name (options_seen options).files ∷ []) (S.opened shelf.old) (S.opened shelf.new) }
{
    if options.files.is_empty() {
        return Err(OpenFault::BadArgument);
    }
    if options.files.len() >= FILE_LIMIT {
        return Err(OpenFault::Memory);
    }
    match Text::of(alloc, options.files[0].as_str()) {
        Ok(first) => open_named(alloc, shelf, options, first),
        Err(_) => Err(OpenFault::Memory),
    }
}

/// The datastore of a call `tabularTextDatastore(files, options)`. The first file is opened, once; where the arguments are
/// refused before, none is.
///
/// # Errors
/// `BadArgument` where an argument is no value in memory or the options are not accepted; else as `Datastore::open`.
pub fn open_datastore<S: Shelf>(
    alloc: Global,
    shelf: &mut S,
    args: &[ScriptRef<'_>],
) -> Result<Datastore, OpenFault>
    ensures given { (f : ℕ → Tall) → option_and_then arguments.options_given (all_of value_in_memory (map (lent_at f) args.now)) ≡ options_lent args.now }
    ensures told { IfSome (S.held shelf.old) (λ files. OpensTo (store_due files (options_lent args.now)) result) }
    ensures within { IfSome (S.held shelf.old) (λ files. FirstIsWithin files (options_lent args.now) → unnamed result ≢ Err store_fault.TooLarge) }
    ensures held { S.held shelf.new ≡ S.held shelf.old }
    ensures explained { IsExplained (unnamed result) (shelf_counts S.Shelf shelf.old) (shelf_counts S.Shelf shelf.new) }
    ensures named { IfErr result (λ e. IsOf (first_given (options_lent args.now)) e) }
    ensures later { IsLater (shelf_counts S.Shelf shelf.old) (shelf_counts S.Shelf shelf.new) }
    ensures refused { makes_datastore (options_lent args.now) ≡ false → RefusesUnopened (unnamed result) × (shelf.new ≡ shelf.old) }
    ensures once { OpensOnce (first_given (options_lent args.now)) (S.opened shelf.old) (S.opened shelf.new) }
    ensures opened { HasOpened (unnamed result) → Adds (first_given (options_lent args.now) ∷ []) (S.opened shelf.old) (S.opened shelf.new) }
{
    match options_given(alloc, args) {
        Ok(Some(options)) => open_options(alloc, shelf, options),
        Ok(None) => Err(OpenFault::BadArgument),
        Err(_) => Err(OpenFault::Memory),
    }
}
