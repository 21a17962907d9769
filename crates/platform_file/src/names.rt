// The names of a platform, and what they lead to.
ghost use Rattle.std.specs.Prelude.{◌≡◌, ◌≤◌, ◌<◌, ◌^◌, ℕ, List, length, Option, Result, [], option_copied, codes};
ghost use Rattle.platform_file.specs.Names.{Bearer, with_name, with_names, initiator_bears, router_bears, memory_bears, names_of, target_of, find_name};
ghost use Rattle.platform_model.specs.Reading.{Gives, GivesBy};
ghost use Rattle.platform_file.specs.NamesView.{names_view};

use crate::initiators::InitiatorKeys;
use crate::routers::RouterKeys;
use crate::top::PlatformKeys;
use indexmap::IndexMap;
use platform_model::{Place, PlatformCode, PlatformFault};
use std::alloc::Global;
use tlm_model::{MemoryRow, Target};

/// The names of a platform, each with what it leads to: nothing for an initiator's name.
pub type NameMap = IndexMap<String, Option<Target>>;

/// A kind of rows that bear names.
trait Named {
    ghost bears: { ℕ → Self → Bearer };

    /// The row's name.
    fn name(&self) -> &str
        ensures { (i : ℕ) → result.now ≡ (bears i self.now).name };

    /// The table of the row with this number.
    fn place(&self, index: usize) -> Place
        ensures { result ≡ (bears index self.now).place };

    /// What the name of the row with this number leads to.
    fn target(&self, index: usize) -> Option<Target>
        requires { index < 2 ^ 32 }
        ensures { result ≡ (bears index self.now).target };
}

impl Named for InitiatorKeys {
    ghost bears = { initiator_bears };

    fn name(&self) -> &str {
        self.name.as_text()
    }

    fn place(&self, index: usize) -> Place {
        Place::Initiator(index)
    }

    fn target(&self, _index: usize) -> Option<Target> {
        None
    }
}

impl Named for RouterKeys {
    ghost bears = { router_bears };

    fn name(&self) -> &str {
        self.name.as_text()
    }

    fn place(&self, index: usize) -> Place {
        Place::Router(index)
    }

    fn target(&self, index: usize) -> Option<Target> {
        Some(Target::Router(index as u32))
    }
}

impl Named for MemoryRow {
    ghost bears = { memory_bears };

    fn name(&self) -> &str {
        self.name.as_text()
    }

    fn place(&self, index: usize) -> Place {
        Place::Memory(index)
    }

    fn target(&self, index: usize) -> Option<Target> {
        Some(Target::Memory(index as u32))
    }
}

/// Adds a name, which has to be new: the old value that the map gives back tells.
fn add_name(
    alloc: Global,
    names: &mut NameMap,
    place: Place,
    name: &str,
    target: Option<Target>,
) -> Result<(), PlatformFault>
    ensures { GivesBy (λ _. names_view names.new) result
        (with_name (names_view names.old)
        (record { place = place; name = name.now; target = target })) }
{
    let owned = String::from_str(alloc, name)?;
    match names.insert(owned, target)? {
        None => Ok(()),
        Some(_) => Err(place.refuse(alloc, PlatformCode::NameTwice, "name")),
    }
}

/// Adds the names of some rows.
fn add_names<T: Named>(alloc: Global, names: &mut NameMap, rows: &[T]) -> Result<(), PlatformFault>
    requires { length rows.now ≤ 2 ^ 32 }
    ensures { GivesBy (λ _. names_view names.new) result
        (with_names T.bears 0 rows.now (names_view names.old)) }
{
    for (index, row) in rows.iter().enumerate() {
        add_name(
            alloc,
            names,
            row.place(index),
            row.name(),
            row.target(index),
        )?;
    }
    Ok(())
}

/// The names of the initiators, the routers and the memories, in this order. The second bearer of a
/// name is refused by `NameTwice`.
#[tactic(auto, unfolding(crate::specs::Names::names_of))]
pub fn names(alloc: Global, keys: &PlatformKeys) -> Result<NameMap, PlatformFault>
    requires initiators { length keys.now.initiators ≤ 32 }
    requires routers { length keys.now.routers ≤ 16 }
    requires memories { length keys.now.memories ≤ 16 }
    ensures { GivesBy names_view result (names_of keys.now) }
{
    let mut names = IndexMap::new(alloc);
    add_names(alloc, &mut names, keys.initiators.as_slice())?;
    add_names(alloc, &mut names, keys.routers.as_slice())?;
    add_names(alloc, &mut names, keys.memories.as_slice())?;
    Ok(names)
}

fn find(names: &NameMap, name: &str) -> Option<Option<Target>>
    ensures { result ≡ find_name name.now (names_view names.now) }
{
    names.get(name).copied()
}

/// What a name leads to. A name that is no router's and no memory's is `UnknownTarget`.
pub fn target(
    alloc: Global,
    names: &NameMap,
    place: Place,
    key: &str,
    name: &str,
) -> Result<Target, PlatformFault>
    ensures { Gives result (target_of (names_view names.now) place key.now name.now) }
{
    match find(names, name) {
        Some(Some(target)) => Ok(target),
        Some(None) | None => Err(place.refuse(alloc, PlatformCode::UnknownTarget, key)),
    }
}
