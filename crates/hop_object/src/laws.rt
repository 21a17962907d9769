//! Laws of a hop's log and of its legs. A hop's log follows its lanes at all times.
ghost use Rattle.std.specs.Prelude.{◌≡◌, ℕ, ◌<◌, ◌%◌, true};
ghost use Rattle.token_book.specs.Account.{Slip};
ghost use Rattle.base_phases.specs.Sequences.{IsBegun};
ghost use Rattle.flow_model.specs.Lives.{life_of};
ghost use Rattle.flow_model.specs.Protocol.{BeginsOnce, FollowsPhases, IsExclusive};
ghost use Rattle.flow_model.specs.ByRules.{KeepsRules};
ghost use Rattle.flow_model.specs.Events.{entries};
ghost use Rattle.hop_object.specs.declared.call.HopCall.{HopCall};
ghost use Rattle.hop_object.specs.declared.call.HopReply.{HopReply};
ghost use Rattle.hop_object.specs.View.{HopView};
ghost use Rattle.hop_object.specs.Hops.{board_of, reached_of, rules_of, Follows};
ghost use Rattle.hop_object.specs.Objects.{knows, Applied, IsFit};
ghost use Rattle.hop_object.specs.Laws.{BringsOwn, FetchedWasSent, HasTimes, LegsFit, MarksTell, NamesTransaction, ReplyNames};

/// The calls of one lane, from its BEGIN_REQ on, are a prefix of one of the eleven sequences.
pub fn lives_follow_phases<T>()
    ensures { (hop : HopView T) (follows : Follows hop) (position : ℕ) →
        IsBegun (life_of position (rules_of hop) (entries hop.log.events) (board_of hop) (reached_of hop follows)) }
{}

/// Where no transaction begins twice, the calls of each are a prefix of one of the eleven sequences, one
/// request and one response are open at a time, no more transactions are under way than there are lanes,
/// and each call has the answer of the modes of the two ends and its time.
pub fn logs_keep_the_protocol<T>()
    ensures phases { (hop : HopView T) → Follows hop → BeginsOnce (entries hop.log.events) → FollowsPhases (entries hop.log.events) }
    ensures exclusive { (hop : HopView T) → Follows hop → BeginsOnce (entries hop.log.events) →
        IsExclusive hop.traits.lanes (entries hop.log.events) }
    ensures rules { (hop : HopView T) → Follows hop → BeginsOnce (entries hop.log.events) →
        KeepsRules (rules_of hop) (entries hop.log.events) }
{}

/// Each leg that comes with a reply is of the hop's book, and names the state of its lane.
pub fn legs_fit<T>()
    ensures { (before : HopView T) (position : ℕ) (call : HopCall T) (reply : HopReply T) (after : HopView T) →
        IsFit before call → Applied before position call reply after → LegsFit after reply }
{}

/// The log has a BEGIN_REQ at the position that a leg names, and the leg's lane has its transaction. The
/// leg names the state of that lane.
pub fn legs_name_transactions<T>()
    ensures { (hop : HopView T) (leg : Slip) →
        Follows hop → knows hop leg ≡ true → 0 < leg.name % 4 → NamesTransaction hop leg }
{}

/// Where a leg comes with a reply, the log has its BEGIN_REQ at the position that the leg names, of the
/// transaction that the call or the reply tells.
pub fn replies_name_transactions<T>()
    ensures { (before : HopView T) (position : ℕ) (call : HopCall T) (reply : HopReply T) (after : HopView T) →
        Follows after → Applied before position call reply after → ReplyNames after call reply }
{}

/// A request that is fetched has its BEGIN_REQ in the log, and a response its BEGIN_RESP, of the transaction
/// and at the time that the reply tells, also where no leg comes with it. The answer of that call leads to the
/// state that the lane has.
pub fn fetched_items_were_sent<T>()
    ensures { (before : HopView T) (position : ℕ) (call : HopCall T) (reply : HopReply T) (after : HopView T) →
        Follows before → Applied before position call reply after → FetchedWasSent after reply }
{}

/// The item that a BEGIN_RESP brings is of the transaction of the entry at the position that the leg names:
/// who knows that entry knows whose item it is, whichever hop the call meets.
pub fn responses_bring_their_own<T>()
    ensures { (hop : HopView T) (leg : Slip) (at : ℕ) (item : T) →
        Follows hop → 0 < leg.name % 4 → BringsOwn hop leg at item }
{}

/// Who knows a hop's log knows, for each time by which the hop delays a call, a call at that time: one that
/// ended a request, one that ended a response, and the last one on a leg's lane.
pub fn times_are_known<T>()
    ensures { (hop : HopView T) → Follows hop → HasTimes hop }
{}

/// Where no transaction begins twice, a BEGIN_RESP that is marked ends the request of its transaction.
pub fn marks_tell_open_requests<T>()
    ensures { (hop : HopView T) → Follows hop → BeginsOnce (entries hop.log.events) → MarksTell hop }
{}
