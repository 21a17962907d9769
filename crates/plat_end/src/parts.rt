// One object that is taken apart, and the tickets of it that go back into its book.
ghost use Rattle.std.specs.Prelude.{◌≡◌, ◌≤◌, All, Some, slice_get};
ghost use Rattle.token_book.specs.Account.{out_of};
ghost use Rattle.token_book.specs.Purse.{IsOf};
ghost use Rattle.payload_pool.specs.Pool.{live_of};
ghost use Rattle.tlm_types.specs.declared.words.ObjectNo.TheVariants as Objects;
ghost use Rattle.tlm_model.specs.declared.platform.MemoryRow.{MemoryRow};
ghost use Rattle.tlm_model.specs.Log.{log_bytes};
ghost use Rattle.plat_net.specs.Net.{hop_numbers, memory_numbers, pool_numbers};
ghost use Rattle.plat_end.specs.Apart.{HasLeftLog};
ghost use Rattle.plat_end.specs.Taking.{HaveSameBut, IsPaid, tickets_at};

use entry_log::Log;
use payload_pool::Pool;
use plat_net::{PlatSeat, SharedHop, SharedMemory, SharedPool, Sharing, TlmLaw};
use route_plan::Plan;
use shared_object::Naming;
use std::sync::Wait;
use tlm_types::Bytes;
use token_book::{Book, Tokens, Wallet};

// Hands all tickets that the wallets have of a book's owner back into that book. No more than are out come back.
fn hand_back_all(tickets: &Tokens, wallets: &mut [Wallet], mut book: Book)
    requires of { All (IsOf tickets.now) wallets.old }
    requires book { book.table ≡ tickets.now }
    ensures of { All (IsOf tickets.now) wallets.new }
    ensures few { tickets_at book.owner wallets.old ≤ out_of 0 book.out }
    ensures none { tickets_at book.owner wallets.new ≡ 0 }
    ensures others { HaveSameBut book.owner wallets.old wallets.new }
{
    for wallet in wallets.iter_mut() {
        wallet.hand_back(tickets, &mut book);
    }
}

// What a memory leaves: its log, its bytes and its seat. The looks at the log tell that its entries are the
// memory's own, and that their times are those that there are.
pub(crate) fn memory_part<N: Naming<Plan, TlmLaw>, S: Sharing<N>, R: Wait>(
    rt: &R,
    tickets: &Tokens,
    memory: SharedMemory<N, S>,
    wallets: &mut [Wallet],
) -> (Log, Bytes, PlatSeat)
    requires numbers { memory ≡ memory_numbers memory.own }
    requires tickets { tickets.now ≡ N.tokens }
    requires of { All (IsOf N.tokens) wallets.old }
    ensures left { HasLeftLog N.table N.frame (Objects.Memory memory.own) result.0 result.2 }
    ensures bytes { (row : MemoryRow) → slice_get N.frame.world.platform.memories memory.own ≡ Some row →
        result.1 ≡ log_bytes row.traits result.0.entries }
    ensures paid { IsPaid N.frame memory.number wallets.old result.2 }
    ensures of { All (IsOf N.tokens) wallets.new }
    ensures others { HaveSameBut memory.number wallets.old wallets.new }
{
    let (region, seat, book) = memory.into_parts(rt);
    hand_back_all(tickets, wallets, book);
    let _ = region.log().len();
    let (log, bytes) = region.into_parts();
    (log, bytes, seat)
}

// What a hop leaves: its log and its seat.
pub(crate) fn hop_part<N: Naming<Plan, TlmLaw>, S: Sharing<N>, R: Wait>(
    rt: &R,
    tickets: &Tokens,
    hop: SharedHop<N, S>,
    wallets: &mut [Wallet],
) -> (Log, PlatSeat)
    requires numbers { hop ≡ hop_numbers N.frame.world.platform hop.own }
    requires tickets { tickets.now ≡ N.tokens }
    requires of { All (IsOf N.tokens) wallets.old }
    ensures left { HasLeftLog N.table N.frame (Objects.Hop hop.own) result.0 result.1 }
    ensures paid { IsPaid N.frame hop.number wallets.old result.1 }
    ensures of { All (IsOf N.tokens) wallets.new }
    ensures others { HaveSameBut hop.number wallets.old wallets.new }
{
    let (hop, seat, book) = hop.into_parts(rt);
    hand_back_all(tickets, wallets, book);
    let _ = hop.log().len();
    (hop.into_log(), seat)
}

// Waits for a pool whose slots are all free. Once all initiators have finished, it is one. No one can free a slot
// of a pool that is taken apart, so that where one is live, this waits without end.
fn free<R: Wait>(rt: &R, pool: &Pool)
    ensures { live_of pool.now ≡ 0 }
{
    if pool.live() == 0 {
        return;
    }
    for _ in rt.forever() {}
    unreachable!()
}

// What a pool leaves: its log and its seat.
pub(crate) fn pool_part<N: Naming<Plan, TlmLaw>, S: Sharing<N>, R: Wait>(
    rt: &R,
    tickets: &Tokens,
    pool: SharedPool<N, S>,
    wallets: &mut [Wallet],
) -> (Log, PlatSeat)
    requires numbers { pool ≡ pool_numbers N.frame.world.platform pool.own }
    requires tickets { tickets.now ≡ N.tokens }
    requires of { All (IsOf N.tokens) wallets.old }
    ensures left { HasLeftLog N.table N.frame (Objects.Pool pool.own) result.0 result.1 }
    ensures paid { IsPaid N.frame pool.number wallets.old result.1 }
    ensures of { All (IsOf N.tokens) wallets.new }
    ensures others { HaveSameBut pool.number wallets.old wallets.new }
{
    let (pool, seat, book) = pool.into_parts(rt);
    hand_back_all(tickets, wallets, book);
    free(rt, &pool);
    let _ = pool.log().len();
    (pool.into_log(), seat)
}
