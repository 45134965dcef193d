//! The demo's files.
ghost use Rattle.std.specs.Prelude.{◌≡◌, ◌++◌, ◌<◌, ◌^◌, ◌%◌, ◌-ℤ◌, IfOk, pos, string_bytes};
ghost use Rattle.tall_words.specs.Demo as spec;
ghost use Rattle.tall_words.specs.Demo.{row_text, rows_text, script_text, table_text};
ghost use Rattle.tall_words.specs.Files.{files_seen};

use std::alloc::{AllocError, Global};

const SCRIPT: &str =
    "ds = tabularTextDatastore('demo.csv', 'TextscanFormats', {'%q', '%d8'});\nT = tall(ds);\n[n, s, t] = gather(height(T), sum(T.v), sum(T.v, 'native'))\nG = gather(groupsummary(T, 'g', 'sum', 'v'))\n";

/// The generator's next state.
fn next_state(state: u32) -> u32
    requires { state < 2 ^ 31 }
    ensures next { result ≡ spec.next_state state }
    ensures small { result < 2 ^ 31 }
{
    ((state as u64 * 1_103_515_245 + 12_345) % 2_147_483_648) as u32
}

/// A row's number, from the upper bits of a state.
fn number_of(r: u32) -> i32
    ensures { result ≡ pos (r % 256) -ℤ pos 128 }
{
    (r % 256) as i32 - 128
}

/// A row from the upper bits of a state.
fn push_row(text: &mut String, r: u32) -> Result<(), AllocError>
    ensures { IfOk result (λ _. string_bytes text.new ≡ string_bytes text.old ++ row_text r) }
{
    let group = r % 5;
    let number = number_of(r);
    let row = format!(in *text.allocator(); "g{group},{number}\n")?;
    text.push_str(&row)
}

/// The demo's table of so many rows.
fn table(alloc: Global, rows: u32) -> Result<String, AllocError>
    ensures { IfOk result (λ text. string_bytes text ≡ table_text rows) }
{
    let mut text = String::from_str(alloc, "g,v\n")?;
    let mut state = 1;
    for _turn in 0..rows {
        state = next_state(state);
        push_row(&mut text, state / 65_536)?;
    }
    Ok(text)
}

/// The files of the demo: demo.csv with so many rows, and demo.m over it (docs/LANGUAGE.md, "The demo").
///
/// # Errors
/// For want of memory alone.
pub fn demo_files(alloc: Global, rows: u32) -> Result<Vec<(String, Vec<u8>)>, AllocError>
    ensures { IfOk result (λ files. files_seen files.items ≡ spec.demo_files rows) }
{
    let mut files = Vec::with_capacity(alloc, 2)?;
    files.push((
        String::from_str(alloc, "demo.csv")?,
        table(alloc, rows)?.into_bytes(),
    ))?;
    files.push((
        String::from_str(alloc, "demo.m")?,
        String::from_str(alloc, SCRIPT)?.into_bytes(),
    ))?;
    Ok(files)
}
