// How a script is read.
ghost use Rattle.std.specs.Prelude.{◌≤◌, length, IfOk};
ghost use Rattle.std.specs.Str.Lines.{lines};
ghost use Rattle.traffic_script.specs.Reading.{ScriptGives};
ghost use Rattle.traffic_script.specs.Drafts.{empty_draft};
ghost use Rattle.traffic_script.specs.Lines.{with_lines, script_of};
ghost use Rattle.traffic_script.specs.Proper.{AreProper, IsProperDraft};

use crate::builder::Builder;
use crate::fault::{ScriptCode, ScriptFault};
use crate::lines::{count_lines, first_line};
use crate::script::Script;
use std::alloc::Global;

const MOST_LINES: u32 = 10_000;

fn read_lines(alloc: Global, text: &[u8], version: u32) -> Result<Builder, ScriptFault>
    requires { length (lines text.now) ≤ 10000 }
    ensures read { ScriptGives result (with_lines version 1 empty_draft (lines text.now)) }
    ensures proper { IfOk result IsProperDraft }
{
    let mut builder = Builder::new(alloc);
    let mut number = 1;
    let mut rest = text;
    while let Some((line, after)) = first_line(rest) {
        builder = match builder.with_line(alloc, version, number, line) {
            Ok(next) => next,
            Err(fault) => return Err(fault.at(number)),
        };
        number += 1;
        rest = after;
    }
    Ok(builder)
}

/// Reads a script of version 1 or 2, which is that of its platform: version 2 has the operation
/// `fetch_add`, and no other has. The first line that is at fault refuses it, with its number from 1 and
/// a code; `ScriptFault::Memory` says that memory was refused.
#[tactic(auto, unfolding(crate::specs::Lines::script_of))]
pub fn read_script(alloc: Global, text: &[u8], version: u32) -> Result<Script, ScriptFault>
    ensures read { ScriptGives result (script_of version text.now) }
    ensures proper { IfOk result AreProper }
{
    if count_lines(text) > MOST_LINES as usize {
        return Err(ScriptFault::Refused {
            line: MOST_LINES + 1,
            code: ScriptCode::TooManyLines,
        });
    }
    let builder = read_lines(alloc, text, version)?;
    builder.finish(alloc)
}
