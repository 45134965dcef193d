//! Datastores with one property changed.
ghost use Rattle.std.specs.Prelude.{◌≡◌, IfOk, Ok, length, map, string_bytes, true};
ghost use Rattle.tall_store.specs.Options.{is_size};
ghost use Rattle.tall_store.specs.Properties.{Changes, formatted, option_or_refuse, selecting, sized};
ghost use Rattle.tall_store.specs.Stores.{IsStore};

use crate::faults::StoreFault;
use crate::format::Format;
use crate::store::Datastore;
use crate::texts::{copy_texts, is_choice, places_of, texts_of};
use std::alloc::{AllocError, Global};
use tall_cut::ReadSize;

/// Whether a block may have so many records.
pub(crate) fn is_size(size: ReadSize) -> bool
    ensures { result ≡ is_size size }
{
    match size {
        ReadSize::Rows(rows) => 1 <= rows && rows < 1 << 31,
        ReadSize::File => true,
    }
}

// A copy with other properties.
fn copy_with(
    store: &Datastore,
    size: ReadSize,
    formats: Vec<Format>,
    selected: Vec<usize>,
) -> Result<Datastore, AllocError>
    requires { IsStore (record store.now { size = size; formats = formats.items; selected = selected.items }) }
    ensures { IfOk result (λ copy. copy ≡ record store.now { size = size; formats = formats.items; selected = selected.items }) }
{
    Ok(Datastore {
        files: copy_texts(store.alloc, store.files.as_slice())?,
        delimiter: store.delimiter,
        size,
        missing: copy_texts(store.alloc, store.missing.as_slice())?,
        header: store.header,
        names: copy_texts(store.alloc, store.names.as_slice())?,
        formats,
        selected,
        first: store.first.clone()?,
        alloc: store.alloc,
    })
}

impl Datastore {
    /// The same datastore with blocks of another size.
    ///
    /// # Errors
    /// `BadArgument` where the size is no number of records from 1 to 2^31 - 1; `Memory` for want of memory.
    pub fn with_size(&self, size: ReadSize) -> Result<Datastore, StoreFault>
        ensures { Changes (sized self.now size) result }
    {
        if !is_size(size) {
            return Err(StoreFault::BadArgument);
        }
        match self.sized(size) {
            Ok(store) => Ok(store),
            Err(_) => Err(StoreFault::Memory),
        }
    }

    fn sized(&self, size: ReadSize) -> Result<Datastore, AllocError>
        requires { is_size size ≡ true }
        ensures { IfOk result (λ store. sized self.now size ≡ Ok store) }
    {
        copy_with(
            self,
            size,
            copy_all(self.alloc(), self.formats())?,
            copy_all(self.alloc(), self.places())?,
        )
    }

    /// The same datastore with other variables selected, in this order.
    ///
    /// # Errors
    /// `BadArgument` where no name is given, one stands twice, or one is no variable's; `Memory` for want of memory.
    pub fn with_selected(&self, names: &[String]) -> Result<Datastore, StoreFault>
        ensures { Changes (selecting self.now (map (λ s. string_bytes s) names.now)) result }
    {
        match self.selecting(names) {
            Ok(Some(store)) => Ok(store),
            Ok(None) => Err(StoreFault::BadArgument),
            Err(_) => Err(StoreFault::Memory),
        }
    }

    /// The same datastore with other formats, one for each variable of the file.
    ///
    /// # Errors
    /// `BadArgument` where the number of formats isn't that of the variables; `Memory` for want of memory.
    pub fn with_formats(&self, formats: &[Format]) -> Result<Datastore, StoreFault>
        ensures { Changes (formatted self.now formats.now) result }
    {
        if formats.len() != self.variable_count() {
            return Err(StoreFault::BadArgument);
        }
        match self.formatted(formats) {
            Ok(store) => Ok(store),
            Err(_) => Err(StoreFault::Memory),
        }
    }

    fn formatted(&self, formats: &[Format]) -> Result<Datastore, AllocError>
        requires { length formats.now ≡ length self.now.names }
        ensures { IfOk result (λ store. formatted self.now formats.now ≡ Ok store) }
    {
        copy_with(
            self,
            self.size(),
            copy_all(self.alloc(), formats)?,
            copy_all(self.alloc(), self.places())?,
        )
    }

    fn selecting(&self, names: &[String]) -> Result<Option<Datastore>, AllocError>
        ensures { IfOk result (λ found. selecting self.now (map (λ s. string_bytes s) names.now) ≡ option_or_refuse found) }
    {
        let wanted = texts_of(self.alloc(), names)?;
        if !is_choice(wanted.as_slice()) {
            return Ok(None);
        }
        match places_of(self.alloc(), self.names(), wanted.as_slice())? {
            Some(places) => {
                let formats = copy_all(self.alloc(), self.formats())?;
                Ok(Some(copy_with(self, self.size(), formats, places)?))
            }
            None => Ok(None),
        }
    }
}

// The same values once more.
fn copy_all<T: Copy>(alloc: Global, values: &[T]) -> Result<Vec<T>, AllocError>
    ensures { IfOk result (λ copy. copy.items ≡ values.now) }
{
    let mut copy = Vec::with_capacity(alloc, values.len())?;
    copy.extend_from_slice(values)?;
    Ok(copy)
}
