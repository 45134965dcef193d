//! Names with what they stand for.
ghost use Rattle.std.specs.Prelude.{◌≡◌, [], OnOk, option_map};
ghost use Rattle.tall_local.specs.Names.{named, put_name};
ghost use Rattle.tall_fun.specs.Values.{held_seen};

use crate::values::LocalValue;
use indexmap::IndexMap;
use std::alloc::{AllocError, Global};
use std::marker::Model;

/// Names in the order in which they came, each with what it stands for. A name is lent by the function's text.
#[derive(Drop)]
pub(crate) struct Names<'n> {
    entries: IndexMap<&'n str, LocalValue<'n>>,
}

impl<'n> Model for Names<'n> {
    ghost use Rattle.std.specs.Prelude.{ℕ, List, map};
    ghost use Rattle.tall_local.specs.Locals.{Held};
    ghost use Rattle.tall_fun.specs.Values.{held_seen};

    ghost Value = { List (List ℕ × Held) };

    ghost view = { λ n. map (λ e. (e.0.now, held_seen e.1)) n.entries.entries };
}

impl<'n> Names<'n> {
    /// No names.
    pub(crate) fn new(alloc: Global) -> Names<'n>
        ensures { result ≡ [] }
    {
        Names {
            entries: IndexMap::new(alloc),
        }
    }

    #[tactic(auto, using(crate::proofs::NameLemmas::looked_up))]
    /// What a name stands for.
    pub(crate) fn get(&self, name: &str) -> Option<&LocalValue<'n>>
        ensures { option_map (λ v. held_seen v.now) result ≡ named self.now name.now }
    {
        self.entries.get(name)
    }

    #[tactic(auto, using(crate::proofs::NameLemmas::inserted))]
    /// A name stands for this from now on: in its place, where it is there, else behind the others.
    pub(crate) fn put(&mut self, name: &'n str, value: LocalValue<'n>) -> Result<(), AllocError>
        ensures { OnOk result (self.new ≡ put_name name.now (held_seen value.entry) self.old) }
    {
        match self.entries.insert(name, value) {
            Ok(_) => Ok(()),
            Err(_) => Err(AllocError),
        }
    }
}
