// The command that the words ask for.
ghost use Rattle.std.specs.Prelude.{◌≡◌, ◌≤◌, IfOk, IfSome, Ok, None, codes, option_map, option_and_then, unwrap_or, is_some, true};
ghost use Rattle.clap.specs.Words.{app_of, first_of, found_of, matches_of, rows_of, first_value};
ghost use Rattle.command_words.specs.Words.{command_of, run_of, script_of, gen_of, run_line, gen_line, seed_of, workers_of, trace_of};
ghost use Rattle.command_words.specs.Commands.{HasRightWorkers, line_of, texts};
ghost use Rattle.command_words.specs.Parser.{run_app};

use crate::command::Command;
use crate::shape::{has_gen_shape, has_run_shape};
use crate::values::{file_name, seed_of, trace_of, workers_of};
use clap::error::ErrorKind;
use clap::{Arg, ArgMatches};
use std::alloc::{AllocError, Global};
use tlm_types::Memory;

// The command `run` as `clap` reads it, and `gen`, whose words are those of a run with a seed for its file
// and without a trace. The words come without a name before them.
fn run_parser<'a>(alloc: Global) -> Result<clap::Command<'a>, AllocError>
    ensures { IfOk result (λ c. app_of c ≡ run_app) }
{
    clap::Command::new(alloc, "run")
        .no_binary_name(true)
        .disable_help_flag(true)
        .arg(Arg::new(alloc, "workers").long("workers"))?
        .arg(Arg::new(alloc, "trace").long("trace"))?
        .arg(Arg::new(alloc, "file"))
}

// What `clap` reads in words of the tested shape. It refuses none of them.
fn run_matches<'a>(alloc: Global, words: &'a [String]) -> Result<ArgMatches<'a>, Memory>
    requires { is_some (run_of (texts words.now)) ≡ true }
    ensures { IfOk result (λ m. rows_of (found_of m) ≡ matches_of run_app (texts words.entry.now)) }
{
    match run_parser(alloc)?.try_get_matches_from(words) {
        Ok(matches) => Ok(matches),
        Err(error) => {
            let is_memory = error.kind() == ErrorKind::OutOfMemory;
            prove!(is_memory);
            Err(Memory)
        }
    }
}

// The number of workers, which is 4 where the words say none.
fn workers_in(matches: &ArgMatches<'_>) -> Option<u32>
    ensures value { result ≡ workers_of (unwrap_or (first_value (found_of matches.now) (codes "workers")) (codes "4")) }
    ensures range { IfSome result (λ n. (1 ≤ n) × (n ≤ 16)) }
{
    workers_of(matches.get_str("workers").unwrap_or("4").as_bytes())
}

fn run_command<'a>(matches: &ArgMatches<'a>) -> Option<Command<'a>>
    ensures command { option_map line_of result ≡ run_line (first_value (found_of matches.now) (codes "file"))
        (workers_of (unwrap_or (first_value (found_of matches.now) (codes "workers")) (codes "4")))
        (trace_of (unwrap_or (first_value (found_of matches.now) (codes "trace")) (codes "all"))) }
    ensures workers { IfSome result HasRightWorkers }
{
    let file = matches.get_str("file")?;
    let trace = matches.get_str("trace").unwrap_or("all");
    Some(Command::Run {
        file,
        workers: workers_in(matches)?,
        trace: trace_of(trace.as_bytes())?,
    })
}

fn read_run<'a>(alloc: Global, words: &'a [String]) -> Result<Option<Command<'a>>, Memory>
    ensures read { IfOk result (λ c. option_map line_of c ≡ run_of (texts words.entry.now)) }
    ensures workers { IfOk result (λ c. IfSome c HasRightWorkers) }
    ensures refused { run_of (texts words.entry.now) ≡ None → result ≡ Ok None }
{
    if !has_run_shape(words) {
        return Ok(None);
    }
    let matches = run_matches(alloc, words)?;
    Ok(run_command(&matches))
}

// The seed stands where a run has its file.
fn gen_command<'a>(matches: &ArgMatches<'a>) -> Option<Command<'a>>
    ensures command { option_map line_of result ≡ gen_line (option_and_then seed_of (first_value (found_of matches.now) (codes "file")))
        (workers_of (unwrap_or (first_value (found_of matches.now) (codes "workers")) (codes "4"))) }
    ensures workers { IfSome result HasRightWorkers }
{
    let seed = matches.get_str("file")?;
    Some(Command::Gen {
        seed: seed_of(seed)?,
        workers: workers_in(matches)?,
    })
}

fn read_gen<'a>(alloc: Global, words: &'a [String]) -> Result<Option<Command<'a>>, Memory>
    ensures read { IfOk result (λ c. option_map line_of c ≡ gen_of (texts words.entry.now)) }
    ensures workers { IfOk result (λ c. IfSome c HasRightWorkers) }
    ensures refused { gen_of (texts words.entry.now) ≡ None → result ≡ Ok None }
{
    if !has_gen_shape(words) {
        return Ok(None);
    }
    let matches = run_matches(alloc, words)?;
    Ok(gen_command(&matches))
}

fn read_script(words: &[String]) -> Option<Command<'_>>
    ensures command { option_map line_of result ≡ script_of (texts words.now) }
    ensures workers { IfSome result HasRightWorkers }
{
    let [name] = words else {
        return None;
    };
    let file = file_name(name.as_str())?;
    Some(Command::Script { file })
}

/// What the words ask for, which are those after the program's name, or nothing where they are no
/// command line. Fails only where memory is refused, and never at words that are no command line.
pub fn read_words<'a>(alloc: Global, words: &'a [String]) -> Result<Option<Command<'a>>, Memory>
    ensures read { IfOk result (λ c. option_map line_of c ≡ command_of (texts words.entry.now)) }
    ensures workers { IfOk result (λ c. IfSome c HasRightWorkers) }
    ensures refused { command_of (texts words.entry.now) ≡ None → result ≡ Ok None }
{
    let Some((word, rest)) = words.split_first() else {
        return Ok(None);
    };
    match word.as_str() {
        "run" => read_run(alloc, rest),
        "script" => Ok(read_script(rest)),
        "gen" => read_gen(alloc, rest),
        _ => Ok(None),
    }
}
