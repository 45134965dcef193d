//! The command line.
ghost use Rattle.std.specs.Prelude.{◌≡◌, ◌≤◌, ◌≤ℤ◌, ℕ, false, pos, IfOk, IfSome, IsErrOf, Some, None, map, string_bytes, option_map};
ghost use Rattle.clap.specs.Words.{app_of, found_of, one_text, rule_of};
ghost use Rattle.tall_words.specs.Commands as spec;
ghost use Rattle.tall_words.specs.Commands.{command, spelled, tallrun};
ghost use Rattle.tall_words.specs.Seen.{AreFound, HasNumber, demo_rows, seen, workers_of};

use clap::error::ErrorKind;
use clap::{Arg, ArgMatches, Command as Parser, value_parser};
use std::alloc::{AllocError, Global};

/// What the command line asks for.
#[derive(Drop)]
pub enum Command {
    /// To run the script of this name.
    Script { name: String, workers: u32 },
    /// To run the demo, over a table of so many rows.
    Demo { rows: u32, workers: u32 },
}

/// Why there is no command.
#[derive(Debug, Drop)]
pub enum WordsFault {
    /// The words are no command.
    Usage,
    Memory,
}

/// An option whose value is a whole number from 1 to the greatest.
fn number_option<'a>(alloc: Global, name: &'a str, greatest: i64) -> Arg<'a>
    requires { (pos 1 ≤ℤ greatest) × (greatest ≤ℤ pos 4294967295) }
    ensures rule { rule_of result ≡ spec.number_option name.entry.now greatest }
    ensures own { result.global ≡ false }
{
    Arg::new(alloc, name)
        .long(name)
        .value_parser(value_parser!(u32).range(1..=greatest))
}

/// The command line `tallrun [--workers N] [--demo N] [SCRIPT]`.
fn parser<'a>(alloc: Global) -> Result<Parser<'a>, AllocError>
    ensures { IfOk result (λ c. app_of c ≡ tallrun) }
{
    let workers = number_option(alloc, "workers", 64).default_value("4");
    let demo = number_option(alloc, "demo", 1_000_000);
    let script = Arg::new(alloc, "script");
    Parser::new(alloc, "tallrun")
        .disable_help_flag(true)
        .disable_version_flag(true)
        .arg(workers)?
        .arg(demo)?
        .arg(script)
}

/// What an error of `clap` is called here.
fn fault_of(kind: ErrorKind) -> WordsFault
    ensures memory { (kind ≡ ErrorKind.OutOfMemory) → (result ≡ WordsFault.Memory) }
    ensures usage { ((kind ≡ ErrorKind.OutOfMemory) → ⊥) → (result ≡ WordsFault.Usage) }
{
    match kind {
        ErrorKind::OutOfMemory => WordsFault::Memory,
        _ => WordsFault::Usage,
    }
}

/// What `clap` finds in the words.
fn found<'a>(alloc: Global, words: &'a [String]) -> Result<ArgMatches<'a>, WordsFault>
    ensures found { IfOk result (AreFound (map string_bytes words.entry.now)) }
    ensures usage { IsErrOf result WordsFault.Usage → command (map string_bytes words.entry.now) ≡ None }
{
    let parser = match parser(alloc) {
        Ok(parser) => parser,
        Err(_) => return Err(WordsFault::Memory),
    };
    match parser.try_get_matches_from(words) {
        Ok(matches) => Ok(matches),
        Err(error) => Err(fault_of(error.kind())),
    }
}

/// The number of an option, where it has one.
fn number(matches: &ArgMatches<'_>, name: &str) -> Option<u32>
    ensures value { (greatest : ℕ) → greatest ≤ 1000000 → HasNumber matches.now name.now greatest → result ≡ option_map spelled (one_text (found_of matches.now) name.now) }
    ensures range { (greatest : ℕ) → greatest ≤ 1000000 → HasNumber matches.now name.now greatest → IfSome result (λ n. (1 ≤ n) × (n ≤ greatest)) }
{
    matches.get_one::<u32>(name)
}

/// A script or the demo.
fn chosen(
    alloc: Global,
    script: Option<&str>,
    rows: Option<u32>,
    workers: u32,
) -> Result<Command, WordsFault>
    ensures chosen { IfOk result (λ asked. spec.chosen (option_map (λ name. name.now) script.entry) rows workers ≡ Some (seen asked)) }
    ensures usage { IsErrOf result WordsFault.Usage → spec.chosen (option_map (λ name. name.now) script.entry) rows workers ≡ None }
    ensures workers { IfOk result (λ asked. workers_of asked ≡ workers) }
    ensures rows { IfOk result (λ asked. demo_rows asked ≡ rows) }
{
    match (script, rows) {
        (Some(name), None) => match String::from_str(alloc, name) {
            Ok(name) => Ok(Command::Script { name, workers }),
            Err(_) => Err(WordsFault::Memory),
        },
        (None, Some(rows)) => Ok(Command::Demo { rows, workers }),
        _ => Err(WordsFault::Usage),
    }
}

/// The command of the words, the program's name first (docs/LANGUAGE.md, "Commands").
///
/// # Errors
/// `Usage` exactly where the words are no command; `Memory` for want of memory.
pub fn read_words(alloc: Global, words: &[String]) -> Result<Command, WordsFault>
    ensures command { IfOk result (λ asked. command (map string_bytes words.now) ≡ Some (seen asked)) }
    ensures usage { IsErrOf result WordsFault.Usage → command (map string_bytes words.now) ≡ None }
    ensures workers { IfOk result (λ asked. (1 ≤ workers_of asked) × (workers_of asked ≤ 64)) }
    ensures rows { IfOk result (λ asked. IfSome (demo_rows asked) (λ n. (1 ≤ n) × (n ≤ 1000000))) }
{
    let matches = match found(alloc, words) {
        Ok(matches) => matches,
        Err(fault) => return Err(fault),
    };
    let rows = number(&matches, "demo");
    match number(&matches, "workers") {
        Some(workers) => chosen(alloc, matches.get_str("script"), rows, workers),
        None => Err(WordsFault::Usage),
    }
}
