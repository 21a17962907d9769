// The operations of lines.
ghost use Rattle.std.specs.Prelude.{◌≡◌, [], unwrap_or};
ghost use Rattle.tlm_model.specs.declared.operation.Operation.TheVariants.{Sync, Fence};
ghost use Rattle.traffic_script.specs.Reading.{GivesCode};
ghost use Rattle.traffic_script.specs.Words.{words_of};
ghost use Rattle.traffic_script.specs.Statements.{write_of, read_of, ignore_of, debug_of, copy_of, add_of, fetch_add_of, wait_of, invalidate_of, alone};

use crate::fault::{LineFault, ScriptCode};
use crate::numbers::{addend, data, length, number, span};
use crate::options::read_options;
use crate::words::{first_word, one_word, three_words, two_first_words, two_words};
use std::alloc::Global;
use tlm_model::Operation;
use tlm_types::Bytes;

fn enables_or_none(alloc: Global, enables: Option<Bytes>) -> Bytes
    ensures { result ≡ unwrap_or enables [] }
{
    match enables {
        Some(enables) => enables,
        None => Bytes::from_vec(Vec::new(alloc)),
    }
}

pub fn write(alloc: Global, words: &[u8]) -> Result<Operation, LineFault>
    ensures { GivesCode result (write_of (words_of words.now)) }
{
    let Some((address, bytes, rest)) = two_first_words(words) else {
        return Err(LineFault::Refused(ScriptCode::Arity));
    };
    let address = number(address)?;
    let bytes = data(alloc, bytes)?;
    let options = read_options(alloc, rest)?;
    Ok(Operation::Write {
        address,
        bytes,
        enables: enables_or_none(alloc, options.enables),
        width: options.width,
    })
}

pub fn read(alloc: Global, words: &[u8]) -> Result<Operation, LineFault>
    ensures { GivesCode result (read_of (words_of words.now)) }
{
    let Some((address, count, rest)) = two_first_words(words) else {
        return Err(LineFault::Refused(ScriptCode::Arity));
    };
    let address = number(address)?;
    let length = length(count)?;
    let options = read_options(alloc, rest)?;
    Ok(Operation::Read {
        address,
        length,
        enables: enables_or_none(alloc, options.enables),
        width: options.width,
    })
}

pub fn ignore(words: &[u8]) -> Result<Operation, ScriptCode>
    ensures { result ≡ ignore_of (words_of words.now) }
{
    let Some(address) = one_word(words) else {
        return Err(ScriptCode::Arity);
    };
    let address = number(address)?;
    Ok(Operation::Ignore { address })
}

pub fn debug(words: &[u8]) -> Result<Operation, ScriptCode>
    ensures { result ≡ debug_of (words_of words.now) }
{
    let Some((address, count)) = two_words(words) else {
        return Err(ScriptCode::Arity);
    };
    let address = number(address)?;
    let length = length(count)?;
    Ok(Operation::Debug { address, length })
}

pub fn copy(words: &[u8]) -> Result<Operation, ScriptCode>
    ensures { result ≡ copy_of (words_of words.now) }
{
    let Some((source, target, count)) = three_words(words) else {
        return Err(ScriptCode::Arity);
    };
    let from = number(source)?;
    let to = number(target)?;
    let length = length(count)?;
    Ok(Operation::Copy { from, to, length })
}

pub fn add(words: &[u8]) -> Result<Operation, ScriptCode>
    ensures { result ≡ add_of (words_of words.now) }
{
    let Some((address, number_word)) = two_words(words) else {
        return Err(ScriptCode::Arity);
    };
    let address = number(address)?;
    let number = addend(number_word)?;
    Ok(Operation::Add { address, number })
}

pub fn fetch_add(words: &[u8]) -> Result<Operation, ScriptCode>
    ensures { result ≡ fetch_add_of (words_of words.now) }
{
    let Some((address, number_word)) = two_words(words) else {
        return Err(ScriptCode::Arity);
    };
    let address = number(address)?;
    let number = addend(number_word)?;
    Ok(Operation::FetchAdd { address, number })
}

pub fn wait(words: &[u8]) -> Result<Operation, ScriptCode>
    ensures { result ≡ wait_of (words_of words.now) }
{
    let Some(word) = one_word(words) else {
        return Err(ScriptCode::Arity);
    };
    let time = number(word)?;
    Ok(Operation::Wait { time })
}

pub fn invalidate(words: &[u8]) -> Result<Operation, ScriptCode>
    ensures { result ≡ invalidate_of (words_of words.now) }
{
    let Some((address, count)) = two_words(words) else {
        return Err(ScriptCode::Arity);
    };
    let address = number(address)?;
    let length = span(count)?;
    Ok(Operation::Invalidate { address, length })
}

pub fn sync(words: &[u8]) -> Result<Operation, ScriptCode>
    ensures { result ≡ alone Sync (words_of words.now) }
{
    match first_word(words) {
        None => Ok(Operation::Sync),
        Some(_) => Err(ScriptCode::Arity),
    }
}

pub fn fence(words: &[u8]) -> Result<Operation, ScriptCode>
    ensures { result ≡ alone Fence (words_of words.now) }
{
    match first_word(words) {
        None => Ok(Operation::Fence),
        Some(_) => Err(ScriptCode::Arity),
    }
}
