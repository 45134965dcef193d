//! The datastores of a script.
ghost use Rattle.std.specs.Prelude.{◌≡◌, ◌<◌, ◌∷◌, ◌++◌, [], IfOk, MatchResult, Some, ℕ, length, map, slice_get};
ghost use Rattle.tall_outside.specs.Shelf.{Files};
ghost use Rattle.tall_semantics.specs.Deferred.{IsMeaning};
ghost use Rattle.tall_semantics.specs.Talls.{Columns, Tall};
ghost use Rattle.tall_stored.specs.StoredColumns.{AreStored, Store};
ghost use Rattle.tall_script.specs.Statements.{changed_store};
ghost use Rattle.tall_script.specs.TallTables.{tall_of_store};
ghost use Rattle.tall_deferred.specs.Answers.{Comes};
ghost use Rattle.tall_deferred.specs.Values.{IsValue, at_seen, lent_at, value_at};
ghost use Rattle.tall_sources.specs.Changed.{AddsStore};
ghost use Rattle.tall_sources.specs.Kept.{AreKept};
ghost use Rattle.tall_sources.specs.Sources.{store_in};
ghost use Rattle.tall_sources.specs.Talls.{AddsVariables};

use crate::properties::changed;
use crate::talls::tall_of;
use std::alloc::{AllocError, Global};
use std::marker::Model;
use tall_deferred::{At, ScriptRef, ScriptValue, ValueFault};
use tall_graph::Graph;
use tall_store::Datastore;

/// The datastores of a script in the order of their making, each with the number and the line of the call that made it. One
/// that a property statement made has those of the datastore which it was.
#[derive(Drop)]
pub struct Sources {
    stores: Vec<Datastore>,
    calls: Vec<At>,
}

impl Model for Sources {
    ghost use Rattle.std.specs.Prelude.{◌≡◌, List, length};
    ghost use Rattle.tall_stored.specs.StoredColumns.{Store};
    ghost use Rattle.tall_sources.specs.Sources.{called};

    ghost Value = { List Store };

    ghost view = { λ s. called s.calls.items s.stores.items };

    ghost invariant = { λ s. length s.calls.items ≡ length s.stores.items };
}

impl Sources {
    /// No datastores.
    pub fn new(alloc: Global) -> Sources
        ensures { result ≡ [] }
    {
        Sources {
            stores: Vec::new(alloc),
            calls: Vec::new(alloc),
        }
    }

    /// The number of datastores.
    pub fn len(&self) -> usize
        ensures { result ≡ length self.now }
    {
        self.stores.len()
    }

    /// The datastores, in the order of their making.
    pub fn datastores(&self) -> &[Datastore]
        ensures { result.now ≡ map store_in self.now }
    {
        self.stores.as_slice()
    }

    /// The number and the line of the call of the datastore at a place.
    pub fn call(&self, place: usize) -> At
        requires { place < length self.now }
        ensures { (d : Store) → slice_get self.now place ≡ Some d → at_seen result ≡ d.at }
    {
        self.calls[place]
    }

    /// Adds a datastore that a call made, and gives its place; without memory the datastores stay.
    pub fn add(&mut self, at: At, store: Datastore) -> Result<usize, AllocError>
        ensures { MatchResult result (λ place. (place ≡ length self.old) × (self.new ≡ self.old ++ record { at = at_seen at; store = store } ∷ [])) (λ _. self.new ≡ self.old) }
    {
        self.stores.reserve(1)?;
        self.calls.push(at)?;
        let place = self.stores.len();
        self.stores.push_reserved(store);
        Ok(place)
    }

    /// Adds the datastore at a place with a property changed, by the property's name, and gives the place of the new one. It
    /// has the number and the line of the old one, which stays.
    ///
    /// # Errors
    /// As `changed`; the datastores stay.
    pub fn change(
        &mut self,
        alloc: Global,
        place: usize,
        property: &str,
        value: &ScriptRef<'_>,
    ) -> Result<usize, ValueFault>
        requires { place < length self.old }
        ensures { (f : ℕ → Tall) (d : Store) → slice_get self.old place ≡ Some d → AddsStore (changed_store property.now (lent_at f value.now) d) self.old result self.new }
    {
        let at = self.call(place);
        match changed(alloc, &self.stores[place], property, value) {
            Ok(store) => Ok(self.add(at, store)?),
            Err(fault) => Err(fault),
        }
    }

    /// The tall table of the datastore at a place, as nodes more.
    ///
    /// # Errors
    /// `Memory` alone, for want of memory.
    pub fn tall(
        &self,
        alloc: Global,
        graph: &mut Graph,
        place: usize,
    ) -> Result<ScriptValue, ValueFault>
        requires place { place < length self.now }
        requires kept { AreKept self.now graph.old }
        ensures extends { (d : Store) → slice_get self.now place ≡ Some d → AddsVariables d.at place d.store graph.old graph.new }
        ensures kept { AreKept self.now graph.new }
        ensures within { IfOk result (IsValue (length graph.new)) }
        ensures given { (files : Files) (columns : Columns) (f : ℕ → Tall) → AreStored files self.now graph.new columns → IsMeaning columns graph.new f → Comes (value_at f) (tall_of_store files place (slice_get self.now place)) result }
    {
        tall_of(alloc, graph, place, self.call(place), &self.stores[place])
    }
}
