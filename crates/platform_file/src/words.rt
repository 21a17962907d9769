// The words of the format.
ghost use Rattle.std.specs.Prelude.{◌≡◌, ℕ, List, Result};
ghost use Rattle.toml.specs.Data.{Data};
ghost use Rattle.platform_file.specs.Kinds.{word, word_in};
ghost use Rattle.platform_file.specs.Words.{styles, responses, router_modes, memory_modes};

use crate::kinds::{Kind, KindFault};
use platform_model::PlatformCode;
use std::alloc::Global;
use tlm_model::Style;
use tlm_types::{ReqMode, RespMode};
use toml::Value;

/// A list of words, each with what it stands for.
pub trait WordList {
    type Output;

    ghost words: { List (List ℕ × Self.Output) };

    /// What a word of the list stands for. Any other word is `UnknownWord`.
    fn value(&self, word: &str) -> Result<Self::Output, PlatformCode>
        ensures { result ≡ word_in words word.now };
}

/// A word of a list.
#[derive(Drop)]
pub struct Word<L>(pub L);

impl<'a, L: WordList> Kind<'a> for Word<L> {
    type Output = L::Output;

    ghost reads = { λ _. word L.words };

    fn read(&self, _alloc: Global, value: &'a Value) -> Result<L::Output, KindFault> {
        let Some(text) = value.as_str() else {
            return Err(KindFault::Code(PlatformCode::WrongType));
        };
        self.0.value(text).map_err(KindFault::Code)
    }
}

/// The styles of initiators.
#[derive(Drop)]
pub struct Styles;

impl WordList for Styles {
    type Output = Style;

    ghost words = { styles };

    fn value(&self, word: &str) -> Result<Style, PlatformCode> {
        match word {
            "blocking" => Ok(Style::Blocking),
            "direct" => Ok(Style::Direct),
            "fourphase" => Ok(Style::FourPhase),
            _ => Err(PlatformCode::UnknownWord),
        }
    }
}

/// How an initiator answers BEGIN_RESP.
#[derive(Drop)]
pub struct Responses;

impl WordList for Responses {
    type Output = RespMode;

    ghost words = { responses };

    fn value(&self, word: &str) -> Result<RespMode, PlatformCode> {
        match word {
            "accept" => Ok(RespMode::Accept),
            "end_resp" => Ok(RespMode::EndResp),
            "complete" => Ok(RespMode::Complete),
            _ => Err(PlatformCode::UnknownWord),
        }
    }
}

/// How a router answers BEGIN_REQ.
#[derive(Drop)]
pub struct RouterModes;

impl WordList for RouterModes {
    type Output = ReqMode;

    ghost words = { router_modes };

    fn value(&self, word: &str) -> Result<ReqMode, PlatformCode> {
        match word {
            "accept" => Ok(ReqMode::Accept),
            "end_req" => Ok(ReqMode::EndReq),
            _ => Err(PlatformCode::UnknownWord),
        }
    }
}

/// How a memory answers BEGIN_REQ.
#[derive(Drop)]
pub struct MemoryModes;

impl WordList for MemoryModes {
    type Output = ReqMode;

    ghost words = { memory_modes };

    fn value(&self, word: &str) -> Result<ReqMode, PlatformCode> {
        match word {
            "accept" => Ok(ReqMode::Accept),
            "short" => Ok(ReqMode::Short),
            "end_req" => Ok(ReqMode::EndReq),
            "begin_resp" => Ok(ReqMode::BeginResp),
            "complete" => Ok(ReqMode::Complete),
            _ => Err(PlatformCode::UnknownWord),
        }
    }
}
