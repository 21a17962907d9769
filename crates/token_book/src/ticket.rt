// The right to one entry of an object.
ghost use Rattle.std.specs.Prelude.{◌≡◌, ◌+◌};
ghost use Rattle.token_book.specs.Account.{amount_of, out_of};
ghost use Rattle.token_book.specs.Ticket.{IsTicket};

use crate::tokens::{Book, One, Share, Tokens};

/// The right to one entry of the object that owns it. To retire it is to retire its two tokens.
#[derive(Drop)]
pub struct Ticket {
    /// A token of the name 0 and the amount 1.
    pub entry: One,
    /// The bytes that the entry may log: a token of the name 1 and of the same owner, where it may
    /// log some.
    pub bytes: Share,
}

impl Ticket {
    /// Retires it into the book of its object.
    #[inline(always)]
    pub fn retire(self, tokens: &Tokens, book: &mut Book)
        requires book { book.old.table ≡ tokens.now }
        requires ticket { IsTicket tokens.now book.old.owner self }
        ensures of { (book.new.table ≡ book.old.table) × (book.new.owner ≡ book.old.owner) }
        ensures entries { out_of 0 book.new.out + 1 ≡ out_of 0 book.old.out }
        ensures bytes { out_of 1 book.new.out + amount_of self.bytes ≡ out_of 1 book.old.out }
    {
        let Ticket { entry, bytes } = self;
        tokens.retire_one(book, entry);
        tokens.retire_share(book, bytes);
    }
}
