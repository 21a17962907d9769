// The tables of a platform file, and the refusals that name them.
ghost use Rattle.std.specs.Prelude.{◌≡◌, IfOk, string_bytes};
ghost use Rattle.platform_model.specs.Place.{table_text};
ghost use Rattle.platform_model.specs.Reading.{Tells, refusal};

use crate::fault::{PlatformCode, PlatformFault};
use std::alloc::{AllocError, Global};
use tlm_types::Text;

/// A table of the document, by its number in the order of the file, from 0. A window has the number
/// of its router and its own number there.
#[derive(Clone, Copy, Debug, PartialEq, Eq)]
pub enum Place {
    Top,
    Initiator(usize),
    Router(usize),
    Window { router: usize, index: usize },
    Memory(usize),
}

impl Place {
    /// The table's text in a refusal.
    fn text(self, alloc: Global) -> Result<String, AllocError>
        ensures { IfOk result (λ s. string_bytes s ≡ table_text self) }
    {
        match self {
            Place::Top => String::from_str(alloc, "platform"),
            Place::Initiator(index) => format!(in alloc; "initiator[{index}]"),
            Place::Router(index) => format!(in alloc; "router[{index}]"),
            Place::Window { router, index } => {
                format!(in alloc; "router[{router}].window[{index}]")
            }
            Place::Memory(index) => format!(in alloc; "memory[{index}]"),
        }
    }

    fn refused(
        self,
        alloc: Global,
        code: PlatformCode,
        key: &str,
    ) -> Result<PlatformFault, AllocError>
        ensures { IfOk result (λ f. Tells f (refusal code self key.now)) }
    {
        let table = self.text(alloc)?;
        let table = Text::from_string(table);
        let key = Text::from_string(String::from_str(alloc, key)?);
        Ok(PlatformFault::Refused { code, table, key })
    }

    /// The refusal with this code at this table and key, or `Memory` where there was no memory for
    /// its texts.
    pub fn refuse(self, alloc: Global, code: PlatformCode, key: &str) -> PlatformFault
        ensures { Tells result (refusal code self key.now) }
    {
        match self.refused(alloc, code, key) {
            Ok(fault) => fault,
            Err(_) => PlatformFault::Memory,
        }
    }
}
