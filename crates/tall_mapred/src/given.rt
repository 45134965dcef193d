//! What a map phase is given.
ghost use Rattle.std.specs.Prelude.{Option};
ghost use Rattle.tall_mapred.specs.Phases.{Given};

use std::marker::Brand;
use tall_grammar::Function;
use tall_store::Datastore;

/// The datastore and the function of a map phase, for clauses alone. It has no calls.
pub(crate) trait MapGiven {
    ghost given: { Option Given };
}

impl MapGiven for Brand {
    ghost use Rattle.std.specs.Prelude.{None};

    ghost given = { None };
}

/// What the map calls share.
#[derive(Clone, Copy)]
pub(crate) struct Shared<'a> {
    pub(crate) store: &'a Datastore,
    pub(crate) function: &'a Function,
}
