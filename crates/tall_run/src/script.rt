//! The script of a name, read from its file.
ghost use Rattle.std.specs.Prelude.{◌≡◌, ℕ, List, IfErr, IfOk, Some, length};
ghost use Rattle.tall_grammar.specs.Refusals as parse;
ghost use Rattle.tall_grammar.specs.Views.{program_of};
ghost use Rattle.tall_outside.specs.Shelf.{Files};
ghost use Rattle.tall_outside.specs.ShelfCounts.{IsLater, shelf_counts};
ghost use Rattle.tall_parse.specs.Parsed as parsed;
ghost use Rattle.tall_script.specs.AllowedOpenings.{script_openings};
ghost use Rattle.tall_steps.specs.Progress.{OpensAtMost};
ghost use Rattle.tall_run.specs.Scripts.{IsFileEnd, IsLeftOnly, IsOnly, IsRefusal, IsRefusalBy, IsScriptEnd, IsVerdict};
ghost use Rattle.tall_steps.specs.Steps.{HasEnd};

use crate::text::{TextFault, read_text};
use std::alloc::Global;
use tall_grammar::{ParseFault, Script};
use tall_lines::{
    bad_token_line, cannot_read_line, no_script_line, syntax_line, too_deep_line, too_long_line,
};
use tall_outside::{Opening, Shelf};
use tall_parse::parse;
use tall_steps::{Ending, Status, with_line};

/// Why bytes are no script, as an ending.
fn refusal(alloc: Global, fault: ParseFault) -> Ending
    ensures { HasEnd (IsRefusalBy (parsed.refusal fault)) result }
{
    match fault {
        ParseFault::TooLong => with_line(Status::Fault, too_long_line(alloc)),
        ParseFault::BadToken { line, place } => {
            with_line(Status::Fault, bad_token_line(alloc, line, place))
        }
        ParseFault::TooDeep { line } => with_line(Status::Fault, too_deep_line(alloc, line)),
        ParseFault::Syntax { line } => with_line(Status::Fault, syntax_line(alloc, line)),
        ParseFault::Memory => Ending::Memory,
    }
}

/// The script that bytes are, or why they are none.
fn parse_script(alloc: Global, text: &[u8]) -> Result<Script, Ending>
    ensures script { IfOk result (λ script. IsOnly text.now (parse.read (program_of script))) }
    ensures refusal { IfErr result (HasEnd (IsRefusal text.now)) }
{
    match parse(alloc, text) {
        Ok(script) => Ok(script),
        Err(fault) => Err(refusal(alloc, fault)),
    }
}

/// Reads the open file of this name as a script.
fn read_file<S: Shelf>(alloc: Global, name: &str, shelf: &mut S) -> Result<Script, Ending>
    requires front { S.came shelf.old ≡ 0 }
    ensures script { IfOk result (λ script. (bytes : List ℕ) × parse.Parses bytes (parse.read (program_of script)) × (length bytes ≡ S.came shelf.new)) }
    ensures told { IfOk result (λ script. IsLeftOnly (S.left shelf.old) (parse.read (program_of script))) }
    ensures ends { IfErr result (HasEnd (IsFileEnd S.Shelf name.now shelf.old shelf.new)) }
    ensures held { S.held shelf.new ≡ S.held shelf.old }
    ensures opened { S.opened shelf.new ≡ S.opened shelf.old }
    ensures later { IsLater (shelf_counts S.Shelf shelf.old) (shelf_counts S.Shelf shelf.new) }
{
    match read_text(alloc, shelf) {
        Ok(text) => parse_script(alloc, text.as_slice()),
        Err(TextFault::Failed) => Err(with_line(Status::Read, cannot_read_line(alloc, name))),
        Err(TextFault::Memory) => Err(Ending::Memory),
    }
}

/// The script of this name, or why there is none.
pub(crate) fn read_script<S: Shelf>(
    alloc: Global,
    name: &str,
    shelf: &mut S,
) -> Result<Script, Ending>
    ensures script { IfOk result (λ script. (bytes : List ℕ) × parse.Parses bytes (parse.read (program_of script)) × (length bytes ≡ S.came shelf.new)) }
    ensures told { IfOk result (λ script. (files : Files) → S.held shelf.old ≡ Some files → IsVerdict files name.now (parse.read (program_of script))) }
    ensures ends { IfErr result (HasEnd (IsScriptEnd S.Shelf name.now shelf.old shelf.new)) }
    ensures held { S.held shelf.new ≡ S.held shelf.old }
    ensures later { IsLater (shelf_counts S.Shelf shelf.old) (shelf_counts S.Shelf shelf.new) }
    ensures opens { OpensAtMost (script_openings name.now) (S.opened shelf.old) (S.opened shelf.new) }
{
    match shelf.open(name) {
        Opening::Opened => read_file(alloc, name, shelf),
        Opening::NoSuch => Err(with_line(Status::Fault, no_script_line(alloc, name))),
        Opening::Failed => Err(with_line(Status::Read, cannot_read_line(alloc, name))),
        Opening::Memory => Err(Ending::Memory),
    }
}
