// A script of which so many lines are read.
ghost use Rattle.std.specs.Prelude.{◌≡◌, ◌<◌, ◌++◌, IfOk};
ghost use Rattle.traffic_script.specs.Reading.{ScriptGives, GivesCode};
ghost use Rattle.traffic_script.specs.Pieces.{repeated, written_out};
ghost use Rattle.traffic_script.specs.Drafts.{empty_draft, added, repeat_begun, ended, taken, finished};
ghost use Rattle.traffic_script.specs.Lines.{with_line};
ghost use Rattle.traffic_script.specs.Proper.{IsProperDraft};

use crate::fault::{LineFault, ScriptCode, ScriptFault};
use crate::piece::Piece;
use crate::script::Script;
use crate::statement::{Statement, read_statement};
use std::alloc::Global;
use std::marker::Model;
use tlm_model::{Operation, Rows};
use tlm_types::Memory;

const MOST_OPERATIONS: u64 = 100_000;

/// What was read so far: pieces, the operations behind them or in a repeat that hasn't ended, and the
/// number of all operations.
#[derive(Drop)]
pub struct Builder {
    pieces: Vec<Piece>,
    last: Vec<Operation>,
    repeat: Option<Repeat>,
    count: u64,
}

/// A repeat that hasn't ended: the line at which it stands, and how often it is done.
#[derive(Clone, Copy)]
pub struct Repeat {
    line: u32,
    times: u32,
}

impl Model for Builder {
    ghost use Rattle.std.specs.Prelude.{◌≡◌};
    ghost use Rattle.traffic_script.specs.Pieces.{written_out};
    ghost use Rattle.traffic_script.specs.Drafts.{Draft, count_of};
    ghost use Rattle.traffic_script.specs.Builds.{draft_of};

    ghost Value = { Draft };

    ghost view = { λ b. draft_of (written_out b.pieces.items) b.last.items b.repeat };

    ghost invariant = { λ b. b.count ≡ count_of (draft_of (written_out b.pieces.items) b.last.items b.repeat) };
}

// With these operations so many times; where there are none, nothing is added.
fn with_piece(
    pieces: Vec<Piece>,
    operations: Vec<Operation>,
    times: u32,
) -> Result<Vec<Piece>, Memory>
    requires { 0 < times }
    ensures { IfOk result (λ after. written_out after.items ≡ written_out pieces.items ++ repeated times operations.items) }
{
    if operations.is_empty() {
        return Ok(pieces);
    }
    let mut pieces = pieces;
    pieces.push(Piece {
        operations: Rows::from_vec(operations),
        times,
    })?;
    Ok(pieces)
}

impl Builder {
    pub fn new(alloc: Global) -> Builder
        ensures { result ≡ empty_draft }
    {
        Builder {
            pieces: Vec::new(alloc),
            last: Vec::new(alloc),
            repeat: None,
            count: 0,
        }
    }

    fn with_operation(self, operation: Operation) -> Result<Builder, LineFault>
        ensures { GivesCode result (added self operation) }
    {
        let Builder {
            pieces,
            mut last,
            repeat,
            count,
        } = self;
        if count >= MOST_OPERATIONS {
            return Err(LineFault::Refused(ScriptCode::TooManyOperations));
        }
        last.push(operation)?;
        Ok(Builder {
            pieces,
            last,
            repeat,
            count: count + 1,
        })
    }

    fn with_repeat(self, alloc: Global, line: u32, times: u32) -> Result<Builder, LineFault>
        ensures { GivesCode result (repeat_begun self line times) }
    {
        let Builder {
            pieces,
            last,
            repeat,
            count,
        } = self;
        if repeat.is_some() {
            return Err(LineFault::Refused(ScriptCode::NestedRepeat));
        }
        let pieces = with_piece(pieces, last, 1)?;
        Ok(Builder {
            pieces,
            last: Vec::new(alloc),
            repeat: Some(Repeat { line, times }),
            count,
        })
    }

    fn with_end(self, alloc: Global) -> Result<Builder, LineFault>
        requires { IsProperDraft self }
        ensures { GivesCode result (ended self) }
    {
        let Builder {
            pieces,
            last,
            repeat,
            count,
        } = self;
        let Some(Repeat { times, .. }) = repeat else {
            return Err(LineFault::Refused(ScriptCode::EndWithoutRepeat));
        };
        if last.is_empty() {
            return Err(LineFault::Refused(ScriptCode::EmptyRepeat));
        }
        let length = last.len() as u64;
        let count = count - length + times as u64 * length;
        if count > MOST_OPERATIONS {
            return Err(LineFault::Refused(ScriptCode::TooManyOperations));
        }
        let pieces = with_piece(pieces, last, times)?;
        Ok(Builder {
            pieces,
            last: Vec::new(alloc),
            repeat: None,
            count,
        })
    }

    fn with_statement(
        self,
        alloc: Global,
        line: u32,
        statement: Option<Statement>,
    ) -> Result<Builder, LineFault>
        requires { IsProperDraft self }
        ensures { GivesCode result (taken line self statement) }
    {
        match statement {
            None => Ok(self),
            Some(Statement::Asks(operation)) => self.with_operation(operation),
            Some(Statement::Repeats(times)) => self.with_repeat(alloc, line, times),
            Some(Statement::Ends) => self.with_end(alloc),
        }
    }

    /// One more line of a script of this version is read, with its number counted from 1.
    pub fn with_line(
        self,
        alloc: Global,
        version: u32,
        number: u32,
        line: &[u8],
    ) -> Result<Builder, LineFault>
        requires { IsProperDraft self }
        ensures { GivesCode result (with_line version number self line.now) }
    {
        let statement = read_statement(alloc, version, line)?;
        self.with_statement(alloc, number, statement)
    }

    /// The script, where no line is left.
    pub fn finish(self, alloc: Global) -> Result<Script, ScriptFault>
        requires { IsProperDraft self }
        ensures { ScriptGives result (finished self) }
    {
        let Builder {
            pieces,
            last,
            repeat,
            count,
        } = self;
        if let Some(Repeat { line, .. }) = repeat {
            return Err(ScriptFault::Refused {
                line,
                code: ScriptCode::RepeatWithoutEnd,
            });
        }
        let pieces = with_piece(pieces, last, 1)?;
        let script = Script::of_pieces(alloc, pieces, count)?;
        Ok(script)
    }
}
