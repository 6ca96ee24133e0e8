// The report of a script: a line for each line, its number from 1 and what became of it.
ghost use Rattle.std.specs.Prelude.{◌≡◌, ◌≤◌, length, IfOk, string_bytes};
ghost use Rattle.script.specs.Lines.{lines};
ghost use Rattle.script.specs.Reports.{said as said_of, numbered as numbered_of, report as report_of};

use crate::lines::Lines;
use std::alloc::{AllocError, Global};

/// No script is longer.
pub const LONGEST: usize = 4096;

// What a line gets: as yet no line is a step.
fn answer(heap: Global, number: usize, _line: &[u8]) -> Result<String, AllocError>
    ensures { IfOk result (λ s. string_bytes s ≡ said_of number _line.now) }
{
    format!(in heap; "{number} ?\n")
}

// The report of a text's lines, the first of which has number 1.
fn numbered(heap: Global, text: &[u8]) -> Result<String, AllocError>
    ensures { IfOk result (λ s. string_bytes s ≡ numbered_of 1 (lines text.now)) }
{
    let mut out = String::new(heap);
    for (i, line) in Lines(text).enumerate() {
        let said = answer(heap, i + 1, line)?;
        out.push_str(said.as_str())?;
    }
    Ok(out)
}

/// The report of a script; want of memory is the only failure.
pub fn report(heap: Global, text: &[u8]) -> Result<String, AllocError>
    ensures { IfOk result (λ s. string_bytes s ≡ report_of text.now) }
{
    if text.len() > LONGEST {
        return String::from_str(heap, "?\n");
    }
    numbered(heap, text)
}
