// The options of a write or a read.
ghost use Rattle.traffic_script.specs.Reading.{GivesCode};
ghost use Rattle.traffic_script.specs.Words.{words_of};
ghost use Rattle.traffic_script.specs.Options.{no_options, with_enables, with_width, with_option, with_options};

use crate::fault::{LineFault, ScriptCode};
use crate::numbers::{enables, number};
use crate::words::first_word;
use std::alloc::Global;
use tlm_types::Bytes;

/// The options that were written: byte enables, and a streaming width in bytes.
#[derive(Drop)]
pub struct Options {
    pub enables: Option<Bytes>,
    pub width: Option<u64>,
}

impl Options {
    fn with_enables(self, alloc: Global, hex: &[u8]) -> Result<Options, LineFault>
        ensures { GivesCode result (with_enables self hex.now) }
    {
        if self.enables.is_some() {
            return Err(LineFault::Refused(ScriptCode::BadOption));
        }
        let enables = enables(alloc, hex)?;
        Ok(Options {
            enables: Some(enables),
            width: self.width,
        })
    }

    fn with_width(self, word: &[u8]) -> Result<Options, LineFault>
        ensures { GivesCode result (with_width self word.now) }
    {
        if self.width.is_some() {
            return Err(LineFault::Refused(ScriptCode::BadOption));
        }
        let width = number(word)?;
        Ok(Options {
            enables: self.enables,
            width: Some(width),
        })
    }

    fn with_option(self, alloc: Global, word: &[u8]) -> Result<Options, LineFault>
        ensures { GivesCode result (with_option self word.now) }
    {
        if word.starts_with(b"be=") {
            return self.with_enables(alloc, &word[3..]);
        }
        if word.starts_with(b"sw=") {
            return self.with_width(&word[3..]);
        }
        Err(LineFault::Refused(ScriptCode::BadOption))
    }
}

/// Reads the options that these words write.
pub fn read_options(alloc: Global, words: &[u8]) -> Result<Options, LineFault>
    ensures { GivesCode result (with_options no_options (words_of words.now)) }
{
    let mut options = Options {
        enables: None,
        width: None,
    };
    let mut rest = words;
    while let Some((word, after)) = first_word(rest) {
        options = options.with_option(alloc, word)?;
        rest = after;
    }
    Ok(options)
}
