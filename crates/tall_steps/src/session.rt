//! A session: a script that runs statement by statement.
ghost use Rattle.std.specs.Prelude.{◌≡◌, ◌≤◌, ℕ, List, IfOk};
ghost use Rattle.tall_grammar.specs.Refusals as parse;
ghost use Rattle.tall_grammar.specs.Views.{program_of};
ghost use Rattle.tall_steps.specs.Sessions.{session_of};

use std::alloc::{AllocError, Global};
use std::marker::Model;
use tall_deferred::numbers_in_turn_are_in_order;
use tall_environment::Environment;
use tall_grammar::Script;
use tall_script::laws::numbers_are_in_turn;

/// A script that runs statement by statement: the statements that are left, and what the statements so far have left.
#[derive(Drop)]
pub struct Session {
    pub(crate) alloc: Global,
    pub(crate) script: Script,
    /// How many statements ran.
    pub(crate) place: usize,
    pub(crate) has_ended: bool,
    pub(crate) environment: Environment,
    /// The number of the last expression of the statements that ran.
    pub(crate) after: u32,
    pub(crate) workers: u32,
}

impl Model for Session {
    ghost use Rattle.std.specs.Coded.{codes};
    ghost use Rattle.tall_grammar.specs.contracts.scripts.Script as scripts;
    ghost use Rattle.tall_steps.specs.Sessions.{IsSession, SeenSession};

    ghost Value = { SeenSession };

    ghost coded = { Prim.hlevel (codes, scripts.the_row.coded) };

    ghost view = { λ s. record { script = s.script; place = s.place; has_ended = s.has_ended; environment = s.environment } };

    ghost invariant = { λ s. IsSession (record { script = s.script; place = s.place; has_ended = s.has_ended; environment = s.environment }) s.workers s.after };
}

impl Session {
    /// A session at the front of a script, with so many workers for its passes over files.
    ///
    /// # Errors
    /// For want of memory alone.
    pub fn new(alloc: Global, script: Script, workers: u32) -> Result<Session, AllocError>
        requires script { (bytes : List ℕ) × parse.Parses bytes (parse.read (program_of script)) }
        requires some { 1 ≤ workers }
        requires few { workers ≤ 64 }
        ensures { IfOk result (λ s. s ≡ session_of script) }
    {
        numbers_are_in_turn();
        numbers_in_turn_are_in_order();
        Ok(Session {
            alloc,
            script,
            place: 0,
            has_ended: false,
            environment: Environment::new(alloc),
            after: 0,
            workers,
        })
    }
}
