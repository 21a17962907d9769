// Which history, and which tokens.
use one_history::NoLaw;
use std::marker::Brand;

/// Names one history, in a world G under a law W, and one making of tokens. What stands under a lock
/// is known by its type alone, so its type has such a name. It has no calls. A function that is
/// handed a history and its tokens picks the name by `Brand` at one call.
pub trait Naming<G, W> {
    ghost use Rattle.atomic_table.specs.Seated.{TableId};
    ghost use Rattle.one_history.specs.declared.view.Frame.{Frame};

    /// The history.
    ghost table: { TableId };

    /// What the history was made with.
    ghost frame: { Frame G };

    /// The tokens.
    ghost tokens: { TableId };
}

impl Naming<(), NoLaw> for Brand {
    ghost use Rattle.std.specs.Prelude.{[]};

    ghost table = { record { words = 0; slots = 0; views_name = 0; atom = 0; block = 0; offset = 0; slot_names = [] } };

    ghost frame = { record { world = tt; planned = []; gates = []; notes = 0 } };

    ghost tokens = { record { words = 0; slots = 0; views_name = 0; atom = 0; block = 0; offset = 0; slot_names = [] } };
}
