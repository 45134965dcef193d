//! What a script has while it runs.
ghost use Rattle.std.specs.Prelude.{◌≡◌, ◌<◌, ◌++◌, ◌∷◌, [], ℕ, List, IfErr, IfSome, MatchResult, OnErr, OnOk, Some, get_or, length, map, option_map, slice_get, string_eq};
ghost use Rattle.std.specs.List.{All};
ghost use Rattle.indexmap.specs.IndexMap.{insert_entry};
ghost use Rattle.tall_outside.specs.Shelf.{Files};
ghost use Rattle.tall_semantics.specs.Talls.{Columns, Tall};
ghost use Rattle.tall_stored.specs.StoredColumns.{AreStored, Store};
ghost use Rattle.tall_local.specs.Applications.{application, application_of};
ghost use Rattle.tall_local.specs.Names.{named, put_name};
ghost use Rattle.tall_local.specs.Values.{datastore};
ghost use Rattle.tall_script.specs.ScriptLanguage.{application_answer};
ghost use Rattle.tall_script.specs.ScriptValues as script;
ghost use Rattle.tall_script.specs.ScriptValues.{scalar_given};
ghost use Rattle.tall_evaluate.specs.Senses.{ArgumentsFit};
ghost use Rattle.tall_script.specs.Statements.{changed_store};
ghost use Rattle.tall_script.specs.TallTables.{tall_of_store};
ghost use Rattle.tall_deferred.specs.declared.faults.ValueFault.TheVariants as fault;
ghost use Rattle.tall_deferred.specs.Values.{IsIndex, IsLent, IsValue, at_seen, index_at, lent_at, value_at};
ghost use Rattle.tall_sources.specs.Changed.{AddsStore};
ghost use Rattle.tall_sources.specs.Sources.{store_in};
ghost use Rattle.tall_environment.specs.Computations.{Computes};
ghost use Rattle.tall_environment.specs.Environments.{IsEnvironment, IsNext, opening_of};
ghost use Rattle.tall_environment.specs.Expressions.{IsSense};
ghost use Rattle.tall_environment.specs.Values.{arguments_at};

use crate::allowed::Allowed;
use crate::arguments::{index_of, values_lent};
use indexmap::IndexMap;
use std::alloc::{AllocError, Global};
use std::marker::Model;
use tall_deferred::{
    At, ScriptIndex, ScriptRef, ScriptValue, ValueFault, function_value, index_value, infix_value,
    prefix_value,
};
use tall_evaluate::Argument;
use tall_grammar::{Infix, Prefix};
use tall_graph::Graph;
use tall_local::ValueFunction;
use tall_sources::{Sources, datastores_are_kept, earlier_columns_are_stored};
use tall_store::Datastore;

/// The names of a script with their values, its datastores, and the graph of its deferred values, one for the whole run.
#[derive(Drop)]
pub struct Environment {
    pub(crate) alloc: Global,
    pub(crate) names: IndexMap<String, ScriptValue>,
    pub(crate) sources: Sources,
    pub(crate) graph: Graph,
    pub(crate) opened: Allowed,
}

impl Model for Environment {
    ghost use Rattle.std.specs.Prelude.{map, string_bytes};
    ghost use Rattle.tall_environment.specs.Environments.{IsEnvironment, SeenEnvironment, opening_of};

    ghost Value = { SeenEnvironment };

    ghost view = { λ e. record { names = map (λ x. (string_bytes x.0, x.1)) e.names.entries; stores = e.sources; graph = e.graph; opened = map opening_of e.opened.items } };

    ghost invariant = { λ e. IsEnvironment (record { names = map (λ x. (string_bytes x.0, x.1)) e.names.entries; stores = e.sources; graph = e.graph; opened = map opening_of e.opened.items }) };
}

/// A name has this value from now on; without memory the table stays.
fn put<V: Drop>(names: &mut IndexMap<String, V>, name: String, value: V) -> Result<(), AllocError>
    ensures { MatchResult result (λ _. names.new.entries ≡ insert_entry string_eq names.old.entries name value) (λ _. names.new.entries ≡ names.old.entries) }
{
    match names.insert(name, value) {
        Ok(_) => Ok(()),
        Err(_) => Err(AllocError),
    }
}

impl Environment {
    /// At the start of a script.
    pub fn new(alloc: Global) -> Environment
        ensures { result ≡ record { names = []; stores = []; graph = []; opened = [] } }
    {
        Environment {
            alloc,
            names: IndexMap::new(alloc),
            sources: Sources::new(alloc),
            graph: Graph::new(alloc),
            opened: Allowed::new(),
        }
    }

    /// The value of a name.
    pub fn value(&self, name: &str) -> Option<&ScriptValue>
        ensures value { option_map (λ v. v.now) result ≡ named self.now.names name.now }
        ensures within { IfSome result (λ v. IsValue (length self.now.graph) v.now) }
    {
        self.names.get(name)
    }

    /// A name has this value from now on: in its place, where it has one, else behind the others. Without memory nothing changes.
    pub fn assign(&mut self, name: &str, value: ScriptValue) -> Result<(), AllocError>
        requires { IsValue (length self.old.graph) value }
        ensures ok { OnOk result (self.new ≡ record self.old { names = put_name name.now value self.old.names }) }
        ensures err { OnErr result (self.new ≡ self.old) }
    {
        let name = String::from_str(self.alloc, name)?;
        put(&mut self.names, name, value)
    }

    /// The graph of the deferred values.
    pub fn graph(&self) -> &Graph
        ensures { result.now ≡ self.now.graph }
    {
        &self.graph
    }

    /// How many datastores there are.
    pub fn store_count(&self) -> usize
        ensures { result ≡ length self.now.stores }
    {
        self.sources.len()
    }

    /// The datastores, in the order of their making.
    pub fn stores(&self) -> &[Datastore]
        ensures { result.now ≡ map store_in self.now.stores }
    {
        self.sources.datastores()
    }

    /// The number and the line of the call that made the datastore at a place.
    pub fn call(&self, place: usize) -> At
        requires { place < length self.now.stores }
        ensures { (d : Store) → slice_get self.now.stores place ≡ Some d → at_seen result ≡ d.at }
    {
        self.sources.call(place)
    }

    /// Adds the datastore at a place with a property changed to the only value that is lent.
    fn change_lent(
        &mut self,
        place: usize,
        property: &str,
        values: &[ScriptRef<'_>],
    ) -> Result<usize, ValueFault>
        requires place { place < length self.old.stores }
        requires one { length values.now ≡ 1 }
        ensures same { self.new ≡ record self.old { stores = self.new.stores } }
        ensures changed { (f : ℕ → Tall) (d : Store) → slice_get self.old.stores place ≡ Some d → AddsStore (changed_store property.now (get_or (map (lent_at f) values.now) 0 (datastore 0)) d) self.old.stores result self.new.stores }
        ensures stored { (files : Files) (columns : Columns) → AreStored files self.new.stores self.new.graph columns → AreStored files self.old.stores self.old.graph columns }
    {
        datastores_are_kept();
        earlier_columns_are_stored();
        self.graph.keeps_its_rules();
        self.sources.change(self.alloc, place, property, &values[0])
    }

    /// Adds the datastore at a place with a property changed, by the property's name, and gives the place of the new one. What
    /// values mean later they meant before.
    ///
    /// # Errors
    /// `BadArgument` as the definitions say; `Memory`. Nothing changes then.
    pub fn change(
        &mut self,
        place: usize,
        property: &str,
        value: &ScriptValue,
    ) -> Result<usize, ValueFault>
        requires { place < length self.old.stores }
        ensures same { self.new ≡ record self.old { stores = self.new.stores } }
        ensures changed { (f : ℕ → Tall) (d : Store) → slice_get self.old.stores place ≡ Some d → AddsStore (changed_store property.now (value_at f value.now) d) self.old.stores result self.new.stores }
        ensures stored { (files : Files) (columns : Columns) → AreStored files self.new.stores self.new.graph columns → AreStored files self.old.stores self.old.graph columns }
    {
        self.change_lent(place, property, &[value.lend()])
    }

    /// Adds a datastore that the call with this number and line made, and gives its place. Without memory nothing changes. What
    /// values mean later they meant before.
    pub fn add_store(&mut self, at: At, store: Datastore) -> Result<usize, AllocError>
        requires { IsNext at.number self.old }
        ensures added { MatchResult result (λ place. (place ≡ length self.old.stores) × (self.new ≡ record self.old { stores = self.old.stores ++ record { at = at_seen at; store = store } ∷ [] })) (λ _. self.new ≡ self.old) }
        ensures stored { (files : Files) (columns : Columns) → AreStored files self.new.stores self.new.graph columns → AreStored files self.old.stores self.old.graph columns }
    {
        datastores_are_kept();
        earlier_columns_are_stored();
        self.sources.add(at, store)
    }

    /// The tall table of the datastore at a place: its variables as nodes more.
    ///
    /// # Errors
    /// `Memory` alone, for want of memory.
    pub fn tall(&mut self, at: At, place: usize) -> Result<ScriptValue, ValueFault>
        requires next { IsNext at.number self.old }
        requires place { place < length self.old.stores }
        ensures computes { Computes at.number (λ files f. tall_of_store files place (slice_get self.old.stores place)) self.old self.new result }
        ensures memory { IfErr result (λ e. e ≡ fault.Memory) }
    {
        datastores_are_kept();
        earlier_columns_are_stored();
        let value = self.sources.tall(self.alloc, &mut self.graph, place);
        self.graph.keeps_its_rules();
        value
    }

    /// More openings are allowed from now on; the proof at the call tells which by what is lent. Nothing is done at run time.
    pub fn allow<A>(&mut self, told_by: &A)
        ghost more: { List (List (List ℕ) × ℕ) }
        ensures { self.new ≡ record self.old { opened = self.old.opened ++ map opening_of more } }
    {
        let more = self.opened.and(told_by);
        self.opened = more;
    }

    /// What each environment keeps: its names are of nodes of the graph, and the stored columns of the graph are those of its
    /// datastores.
    pub fn keeps_its_rules(&self)
        ensures { IsEnvironment self.now }
    {
        let _names = &self.names;
    }

    /// Whatever the files are, there are columns and a meaning of the graph over them.
    pub fn has_a_sense(&self)
        ensures { (files : Files) → (columns : Columns) × (f : ℕ → Tall) × IsSense files self.now columns f }
    {
        self.graph.keeps_its_rules();
    }

    /// An operator before its only operand, which is lent.
    fn prefix_lent(
        &mut self,
        at: At,
        op: Prefix,
        operands: &[ScriptRef<'_>],
    ) -> Result<ScriptValue, ValueFault>
        requires next { IsNext at.number self.old }
        requires one { length operands.now ≡ 1 }
        requires within { All (IsLent (length self.old.graph)) operands.now }
        ensures { Computes at.number (λ files f. script.prefix_value (at_seen at) op (get_or (map (lent_at f) operands.now) 0 (datastore 0))) self.old self.new result }
    {
        datastores_are_kept();
        earlier_columns_are_stored();
        prefix_value(self.alloc, &mut self.graph, at, op, &operands[0])
    }

    /// An operator before its operand.
    pub fn prefix(
        &mut self,
        at: At,
        op: Prefix,
        operand: &ScriptValue,
    ) -> Result<ScriptValue, ValueFault>
        requires next { IsNext at.number self.old }
        requires within { IsValue (length self.old.graph) operand.now }
        ensures { Computes at.number (λ files f. script.prefix_value (at_seen at) op (value_at f operand.now)) self.old self.new result }
    {
        self.prefix_lent(at, op, &[operand.lend()])
    }

    /// An operator between its two operands, which are lent.
    fn infix_lent(
        &mut self,
        at: At,
        op: Infix,
        operands: &[ScriptRef<'_>],
    ) -> Result<ScriptValue, ValueFault>
        requires next { IsNext at.number self.old }
        requires two { length operands.now ≡ 2 }
        requires within { All (IsLent (length self.old.graph)) operands.now }
        ensures { Computes at.number (λ files f. script.infix_value (at_seen at) op (get_or (map (lent_at f) operands.now) 0 (datastore 0)) (get_or (map (lent_at f) operands.now) 1 (datastore 0))) self.old self.new result }
    {
        datastores_are_kept();
        earlier_columns_are_stored();
        infix_value(
            self.alloc,
            &mut self.graph,
            at,
            op,
            &operands[0],
            &operands[1],
        )
    }

    /// An operator between two operands.
    pub fn infix(
        &mut self,
        at: At,
        op: Infix,
        left: &ScriptValue,
        right: &ScriptValue,
    ) -> Result<ScriptValue, ValueFault>
        requires next { IsNext at.number self.old }
        requires left { IsValue (length self.old.graph) left.now }
        requires right { IsValue (length self.old.graph) right.now }
        ensures { Computes at.number (λ files f. script.infix_value (at_seen at) op (value_at f left.now) (value_at f right.now)) self.old self.new result }
    {
        self.infix_lent(at, op, &[left.lend(), right.lend()])
    }

    /// An index of the only value that is lent.
    fn index_lent(
        &mut self,
        at: At,
        wholes: &[ScriptRef<'_>],
        index: &ScriptIndex<'_>,
    ) -> Result<ScriptValue, ValueFault>
        requires next { IsNext at.number self.old }
        requires one { length wholes.now ≡ 1 }
        requires within { All (IsLent (length self.old.graph)) wholes.now }
        requires index { IsIndex (length self.old.graph) index.now }
        ensures { Computes at.number (λ files f. script.index_value_of (at_seen at) (get_or (map (lent_at f) wholes.now) 0 (datastore 0)) (index_at f index.now)) self.old self.new result }
    {
        datastores_are_kept();
        earlier_columns_are_stored();
        index_value(self.alloc, &mut self.graph, at, &wholes[0], index)
    }

    /// An index of a value.
    pub fn index(
        &mut self,
        at: At,
        whole: &ScriptValue,
        args: &[Argument<'_, ScriptValue>],
    ) -> Result<ScriptValue, ValueFault>
        requires next { IsNext at.number self.old }
        requires whole { IsValue (length self.old.graph) whole.now }
        requires args { ArgumentsFit (IsValue (length self.old.graph)) args.now }
        ensures { Computes at.number (λ files f. script.index_value (at_seen at) (value_at f whole.now) (arguments_at f args.now)) self.old self.new result }
    {
        self.index_lent(at, &[whole.lend()], &index_of(args))
    }

    /// A function of values, on values that are lent.
    fn apply_lent(
        &mut self,
        at: At,
        function: ValueFunction,
        args: &[ScriptRef<'_>],
    ) -> Result<ScriptValue, ValueFault>
        requires next { IsNext at.number self.old }
        requires args { All (IsLent (length self.old.graph)) args.now }
        ensures { Computes at.number (λ files f. application_answer (at_seen at) (application scalar_given function (map (lent_at f) args.now))) self.old self.new result }
    {
        datastores_are_kept();
        earlier_columns_are_stored();
        function_value(self.alloc, &mut self.graph, at, function, args)
    }

    /// A function of values, on the arguments of its call.
    pub fn apply(
        &mut self,
        at: At,
        function: ValueFunction,
        args: &[Argument<'_, ScriptValue>],
    ) -> Result<ScriptValue, ValueFault>
        requires next { IsNext at.number self.old }
        requires args { ArgumentsFit (IsValue (length self.old.graph)) args.now }
        ensures { Computes at.number (λ files f. application_answer (at_seen at) (application_of scalar_given function (arguments_at f args.now))) self.old self.new result }
    {
        match values_lent(self.alloc, args) {
            Ok(Some(values)) => self.apply_lent(at, function, values.as_slice()),
            Ok(None) => Err(ValueFault::BadArgument),
            Err(_) => Err(ValueFault::Memory),
        }
    }
}
