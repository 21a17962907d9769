// What lines say.
ghost use Rattle.std.specs.Prelude.{◌≡◌};
ghost use Rattle.traffic_script.specs.declared.statement.Statement.TheVariants.{Ends};
ghost use Rattle.traffic_script.specs.Reading.{GivesCode};
ghost use Rattle.traffic_script.specs.Words.{words_of};
ghost use Rattle.traffic_script.specs.Statements.{repeat_of, alone, of_version_2, fetch_add_of, statement_by, statement_in, statement_of};

use crate::fault::{LineFault, ScriptCode};
use crate::keyword::{Keyword, read_keyword};
use crate::numbers::times;
use crate::operations::{
    add, copy, debug, fence, fetch_add, ignore, invalidate, read, sync, wait, write,
};
use crate::words::{first_word, one_word, text_of};
use std::alloc::Global;
use tlm_model::Operation;

/// What a line says: an operation, or that the lines up to an end are repeated so many times.
#[derive(Drop)]
pub enum Statement {
    Asks(Operation),
    Repeats(u32),
    Ends,
}

fn repeat(words: &[u8]) -> Result<Statement, ScriptCode>
    ensures { result ≡ repeat_of (words_of words.now) }
{
    let Some(word) = one_word(words) else {
        return Err(ScriptCode::Arity);
    };
    let times = times(word)?;
    Ok(Statement::Repeats(times))
}

fn end(words: &[u8]) -> Result<Statement, ScriptCode>
    ensures { result ≡ alone Ends (words_of words.now) }
{
    match first_word(words) {
        None => Ok(Statement::Ends),
        Some(_) => Err(ScriptCode::Arity),
    }
}

fn fetch_add_in(version: u32, words: &[u8]) -> Result<Operation, ScriptCode>
    ensures { result ≡ of_version_2 version (fetch_add_of (words_of words.now)) }
{
    if version != 2 {
        return Err(ScriptCode::UnknownOperation);
    }
    fetch_add(words)
}

fn statement_by(
    alloc: Global,
    version: u32,
    keyword: Keyword,
    words: &[u8],
) -> Result<Statement, LineFault>
    ensures { GivesCode result (statement_by version keyword (words_of words.now)) }
{
    match keyword {
        Keyword::Write => Ok(Statement::Asks(write(alloc, words)?)),
        Keyword::Read => Ok(Statement::Asks(read(alloc, words)?)),
        Keyword::Ignore => Ok(Statement::Asks(ignore(words)?)),
        Keyword::Debug => Ok(Statement::Asks(debug(words)?)),
        Keyword::Copy => Ok(Statement::Asks(copy(words)?)),
        Keyword::Add => Ok(Statement::Asks(add(words)?)),
        Keyword::FetchAdd => Ok(Statement::Asks(fetch_add_in(version, words)?)),
        Keyword::Wait => Ok(Statement::Asks(wait(words)?)),
        Keyword::Sync => Ok(Statement::Asks(sync(words)?)),
        Keyword::Fence => Ok(Statement::Asks(fence(words)?)),
        Keyword::Invalidate => Ok(Statement::Asks(invalidate(words)?)),
        Keyword::Repeat => Ok(repeat(words)?),
        Keyword::End => Ok(end(words)?),
    }
}

fn statement_in(alloc: Global, version: u32, text: &[u8]) -> Result<Option<Statement>, LineFault>
    ensures { GivesCode result (statement_in version (words_of text.now)) }
{
    let Some((word, words)) = first_word(text) else {
        return Ok(None);
    };
    let keyword = read_keyword(word)?;
    let statement = statement_by(alloc, version, keyword, words)?;
    Ok(Some(statement))
}

/// What a line says in this version, if it has words.
pub fn read_statement(
    alloc: Global,
    version: u32,
    line: &[u8],
) -> Result<Option<Statement>, LineFault>
    ensures { GivesCode result (statement_of version line.now) }
{
    let text = text_of(line)?;
    statement_in(alloc, version, text)
}
