// The kinds of values that keys have.
ghost use Rattle.std.specs.Prelude.{◌≡◌, ◌≤◌, Result, IfOk};
ghost use Rattle.std.specs.List.{list_all};
ghost use Rattle.toml.specs.Data.{Data};
ghost use Rattle.toml.specs.View.{view};
ghost use Rattle.platform_model.specs.declared.fault.PlatformCode.{PlatformCode};
ghost use Rattle.platform_file.specs.declared.kinds.KindFault.TheVariants.{Memory};
ghost use Rattle.platform_model.specs.Name.{is_name, is_name_byte, is_lower};
ghost use Rattle.platform_file.specs.Kinds.{number, truth, text, sized_text, name, KindGives};

use platform_model::PlatformCode;
use std::alloc::{AllocFailed, Global};
use thiserror::Error;
use tlm_types::Text;
use toml::Value;

/// Why a value wasn't read: it has this code, at the table and the key where it stands, or memory was
/// refused.
#[derive(Debug, Drop, Error)]
pub enum KindFault {
    #[error("{}", .0.name())]
    Code(PlatformCode),
    #[error("out of memory")]
    Memory,
}

impl<T: Drop> From<AllocFailed<T>> for KindFault {
    ghost from_gives = { λ _ e. e ≡ Memory };

    fn from(_: AllocFailed<T>) -> KindFault {
        KindFault::Memory
    }
}

/// A kind of values that a key may have, as a number between two bounds, or a word of a list. Its
/// member `reads` says what is read of a value of the document, or with which code it is refused; a
/// kind knows nothing of tables and keys. `Keys` places the code.
pub trait Kind<'a> {
    type Output;

    ghost reads: { Self → Data → Result Self.Output PlatformCode };

    /// What is read of this value, or the value's code. Its only other error is want of memory.
    fn read(&self, alloc: Global, value: &'a Value) -> Result<Self::Output, KindFault>
        ensures { KindGives result (reads self.now (view value.now)) };
}

/// An integer from `least` to `most`.
fn number_between(value: &Value, least: u64, most: u64) -> Result<u64, KindFault>
    ensures read { KindGives result (number least most (view value.now)) }
    ensures limited { IfOk result (λ n. n ≤ most) }
{
    let Some(number) = value.as_integer() else {
        return Err(KindFault::Code(PlatformCode::WrongType));
    };
    match u64::try_from(number) {
        Ok(number) if least <= number && number <= most => Ok(number),
        _ => Err(KindFault::Code(PlatformCode::OutOfRange)),
    }
}

/// An integer from `least` to `most`, as a size, a time or an address.
#[derive(Drop)]
pub struct Number {
    pub least: u64,
    pub most: u64,
}

impl<'a> Kind<'a> for Number {
    type Output = u64;

    ghost reads = { λ k. number k.least k.most };

    fn read(&self, _alloc: Global, value: &'a Value) -> Result<u64, KindFault> {
        number_between(value, self.least, self.most)
    }
}

/// An integer from `least` to `most`, as a count of parts or a version.
#[derive(Drop)]
pub struct PartCount {
    pub least: u32,
    pub most: u32,
}

impl<'a> Kind<'a> for PartCount {
    type Output = u32;

    ghost reads = { λ k. number k.least k.most };

    fn read(&self, _alloc: Global, value: &'a Value) -> Result<u32, KindFault> {
        match number_between(value, self.least as u64, self.most as u64) {
            Ok(number) => Ok(number as u32),
            Err(fault) => Err(fault),
        }
    }
}

/// A truth value.
#[derive(Drop)]
pub struct Truth;

impl<'a> Kind<'a> for Truth {
    type Output = bool;

    ghost reads = { λ _. truth };

    fn read(&self, _alloc: Global, value: &'a Value) -> Result<bool, KindFault> {
        value
            .as_bool()
            .ok_or(KindFault::Code(PlatformCode::WrongType))
    }
}

/// A text.
#[derive(Drop)]
pub struct AnyText;

impl<'a> Kind<'a> for AnyText {
    type Output = Text;

    ghost reads = { λ _. text };

    fn read(&self, alloc: Global, value: &'a Value) -> Result<Text, KindFault> {
        let Some(text) = value.as_str() else {
            return Err(KindFault::Code(PlatformCode::WrongType));
        };
        Text::from_text(alloc, text).map_err(|_| KindFault::Memory)
    }
}

/// A text of `least` to `most` bytes.
#[derive(Drop)]
pub struct SizedText {
    pub least: usize,
    pub most: usize,
}

impl<'a> Kind<'a> for SizedText {
    type Output = Text;

    ghost reads = { λ k. sized_text k.least k.most };

    fn read(&self, alloc: Global, value: &'a Value) -> Result<Text, KindFault> {
        let Some(text) = value.as_str() else {
            return Err(KindFault::Code(PlatformCode::WrongType));
        };
        if text.len() < self.least || self.most < text.len() {
            return Err(KindFault::Code(PlatformCode::OutOfRange));
        }
        Text::from_text(alloc, text).map_err(|_| KindFault::Memory)
    }
}

fn is_lower(byte: u8) -> bool
    ensures { result ≡ is_lower byte }
{
    b'a' <= byte && byte <= b'z'
}

fn is_name_byte(byte: u8) -> bool
    ensures { result ≡ is_name_byte byte }
{
    is_lower(byte) || (b'0' <= byte && byte <= b'9') || byte == b'_'
}

fn are_name_bytes(bytes: &[u8]) -> bool
    ensures { result ≡ list_all is_name_byte bytes.now }
{
    bytes.iter().all(|byte| is_name_byte(*byte))
}

fn is_name(text: &str) -> bool
    ensures { result ≡ is_name text.now }
{
    match text.as_bytes() {
        [] => false,
        [first, rest @ ..] => { is_lower(*first) && rest.len() <= 15 && are_name_bytes(rest) }
    }
}

/// A name: a lower-case letter followed by at most 15 lower-case letters, digits or `_`.
#[derive(Drop)]
pub struct Name;

impl<'a> Kind<'a> for Name {
    type Output = Text;

    ghost reads = { λ _. name };

    fn read(&self, alloc: Global, value: &'a Value) -> Result<Text, KindFault> {
        let Some(text) = value.as_str() else {
            return Err(KindFault::Code(PlatformCode::WrongType));
        };
        if !is_name(text) {
            return Err(KindFault::Code(PlatformCode::BadName));
        }
        Text::from_text(alloc, text).map_err(|_| KindFault::Memory)
    }
}
