// What backs an entry, and what names its content.
use std::marker::Brand;

/// Which lists of earlier entries back an entry in a world. A list with more entries backs no less.
pub trait Law<E, G> {
    ghost use Rattle.std.specs.Prelude.{List};
    ghost use Rattle.view_lists.specs.Lists.{Within};
    ghost use Rattle.one_history.specs.declared.entry.Entry.{Entry};

    ghost backs: { G → List (Entry E) → Entry E → Type 0 };

    ghost grows: { (world : G) (xs ys : List (Entry E)) (e : Entry E) → Within xs ys → backs world xs e → backs world ys e };
}

/// Names the content of the entry that a draw makes. Nothing of it is stored.
pub trait Drawn<E> {
    ghost content: { E };
}

/// Names the number of the look that a copy adds.
pub trait Looked {
    ghost use Rattle.std.specs.Prelude.{ℕ};

    ghost number: { ℕ };
}

/// Backs everything.
pub struct NoLaw;

impl<E, G> Law<E, G> for NoLaw {
    ghost backs = { λ _ _ _. Unit {0} };

    ghost grows = { λ _ _ _ _ _ _. tt };
}

impl Looked for Brand {
    ghost number = { 0 };
}
