// Tables of initiators.
ghost use Rattle.platform_file.specs.Tables.{initiator_keys};

use crate::keys::Keys;
use crate::kinds::{AnyText, Name, PartCount, SizedText};
use crate::reading::TableKind;
use crate::words::{Responses, Styles, Word};
use platform_model::{Place, PlatformFault};
use std::alloc::Global;
use tlm_model::Style;
use tlm_types::{RespMode, Text};
use toml::Table;

/// The length in bytes of a script's name.
const SCRIPT_NAME: SizedText = SizedText {
    least: 1,
    most: 200,
};

/// The slots of a payload pool.
const POOL_SLOTS: PartCount = PartCount { least: 1, most: 16 };

/// An initiator as its keys say it: what its socket is bound to is a name yet.
#[derive(Drop)]
pub struct InitiatorKeys {
    pub name: Text,
    pub style: Style,
    pub script: Text,
    pub bind: Text,
    pub pool: u32,
    pub response: RespMode,
}

/// The tables of initiators.
#[derive(Drop)]
pub struct Initiators;

impl TableKind for Initiators {
    type Row = InitiatorKeys;

    ghost reads = { λ _. initiator_keys };

    #[tactic(auto, unfolding(crate::specs::Tables::initiator_keys))]
    fn read(
        &self,
        alloc: Global,
        index: usize,
        table: &Table,
    ) -> Result<InitiatorKeys, PlatformFault> {
        let place = Place::Initiator(index);
        let keys = Keys {
            alloc,
            place,
            table,
        };
        keys.known(&["name", "style", "script", "bind", "pool", "response"])?;
        let name = keys.required("name", Name)?;
        let style = keys.required("style", Word(Styles))?;
        let script = keys.required("script", SCRIPT_NAME)?;
        let bind = keys.required("bind", AnyText)?;
        let pool = keys.optional("pool", POOL_SLOTS, 4)?;
        let response = keys.optional("response", Word(Responses), RespMode::Accept)?;
        Ok(InitiatorKeys {
            name,
            style,
            script,
            bind,
            pool,
            response,
        })
    }
}
