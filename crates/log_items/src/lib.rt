//! The items by which the log of an object of a TLM-2.0 virtual platform keeps its entries.
//!
//! - `Items` is a list of entries, with the room that was made for them. Accesses mostly take 32 bytes, and the entries
//!   of a log of a hop or a pool 16. Those with large numbers, byte enables or a status other than OK stand in a list of
//!   their own, in a long form.
//! - An access of at most 8 bytes has them in its item, mostly. The bytes of any other access stand elsewhere: `Span`
//!   says where.
//! - `BriefEvent` is what happened at a hop or in a pool, as such an item of 16 bytes has it.
//! - `PlacedAccess` is an access that was read: its head, its plain parts, and where its bytes stand.
//!
//! Promises: items are what was pushed, in order. They can't fail for want of memory while there is room, and after
//! want of memory they are as before.
#![tactic(auto)]

mod brief;
mod item;
mod items;
mod long;

pub use brief::BriefEvent;
pub use item::WORD;
pub use items::Items;
pub use long::{
    Event, LongItem, PlacedAccess, Plain, Span, StoredAccess, copied_head, plain_event,
};
