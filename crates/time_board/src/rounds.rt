// The rounds of the members.
ghost use Rattle.std.specs.Prelude.{◌≡◌, ◌+◌, ◌-◌, ◌^◌, ◌<◌, ◌≤◌, ℕ, false, length, replicate, Option, IsSome, IfSome, IfOk};
ghost use Rattle.time_board.specs.Rounds.{new_member, member_of, first_behind, answer_at, answer_of, members_after, members_finished, AreClose};

use crate::tally::Tally;
use std::alloc::Global;
use std::marker::Model;
use tlm_types::Memory;

/// A member: in which round it is, from 0, and whether it has finished.
#[derive(Clone, Copy, Debug, PartialEq, Eq)]
pub struct Member {
    pub round: u64,
    pub finished: bool,
}

/// What an advance answers: the round that the member has reached, or the least unfinished member
/// that is in a lower round, and that round.
#[derive(Clone, Copy, Debug, PartialEq, Eq)]
pub enum Advance {
    Advanced { round: u64 },
    NotYet { behind: u32, round: u64 },
}

/// The members, which are numbered from 0.
#[derive(Drop)]
pub struct Rounds {
    members: Vec<Member>,
    tally: Tally,
}

impl Model for Rounds {
    ghost use Rattle.std.specs.Prelude.{List};
    ghost use Rattle.time_board.specs.declared.rounds.Member.{Member};
    ghost use Rattle.time_board.specs.Tally.{IsTallied};

    ghost Value = { List Member };

    ghost view = { λ r. r.members.items };

    ghost invariant = { λ r. IsTallied r.members.items r.tally };
}

fn make_members(alloc: Global, count: u32) -> Result<Vec<Member>, Memory>
    ensures { IfOk result (λ v. v.items ≡ replicate count new_member) }
{
    let mut members = Vec::with_capacity(alloc, count as usize)?;
    for _k in 0..count {
        members.push(Member {
            round: 0,
            finished: false,
        })?;
    }
    Ok(members)
}

fn find_member(members: &[Member], who: u32) -> Member
    ensures { result ≡ member_of members.now who }
{
    match members.get(who as usize) {
        Some(member) => *member,
        None => Member {
            round: 0,
            finished: true,
        },
    }
}

fn find_behind(members: &[Member], round: u64) -> Option<usize>
    ensures value { result ≡ first_behind members.now round }
    ensures within { IfSome result (λ k. k < length members.now) }
{
    members.iter().position(|m| !m.finished && m.round < round)
}

// Names the least member that is in a lower round than this one.
fn name_behind(members: &[Member], round: u64) -> Advance
    requires some { IsSome (first_behind members.now round) }
    requires few { length members.now < 2 ^ 32 }
    ensures { result ≡ answer_at members.now round (first_behind members.now round) }
{
    let Some(behind) = find_behind(members, round) else {
        unreachable!()
    };
    Advance::NotYet {
        behind: behind as u32,
        round: members[behind].round,
    }
}

impl Rounds {
    /// So many members in round 0. Its only error is want of memory.
    pub fn new(alloc: Global, members: u32) -> Result<Rounds, Memory>
        ensures { IfOk result (λ r. r ≡ replicate members new_member) }
    {
        let tally = Tally {
            lowest: 0,
            behind: members,
            ahead: 0,
        };
        let members = make_members(alloc, members)?;
        Ok(Rounds { members, tally })
    }

    /// The member goes on to the next round, unless an unfinished one is in a lower round. For a number
    /// that no member has, and for a member that has finished, nothing changes, and the answer is
    /// Advanced with round 0. A round at the greatest `u64` stays there.
    pub fn advance(&mut self, who: u32) -> Advance
        ensures answer { result ≡ answer_of self.old who }
        ensures members { self.new ≡ members_after self.old who }
        ensures were_close { AreClose self.old }
        ensures close { AreClose self.new }
    {
        let asking = find_member(&self.members, who);
        if asking.finished {
            return Advance::Advanced { round: 0 };
        }
        let round = asking.round;
        if self.tally.holds_back(round) {
            return name_behind(&self.members, round);
        }
        if round == u64::MAX {
            return Advance::Advanced { round };
        }
        let level = self.tally.leveled(round);
        self.members[who as usize] = Member {
            round: round + 1,
            finished: false,
        };
        self.tally = level.moved();
        Advance::Advanced { round: round + 1 }
    }

    /// The round that all unfinished members have reached: none is in a lower one, and where there is one, one is
    /// in it.
    pub fn reached(&self) -> u64
        ensures all { (k : ℕ) → (member_of self.now k).finished ≡ false
            → result ≤ (member_of self.now k).round }
        ensures one { (k : ℕ) → (member_of self.now k).finished ≡ false → result < 2 ^ 64 - 1
            → IsSome (first_behind self.now (result + 1)) }
    {
        self.tally.reached()
    }

    /// The member has finished, and no longer holds others back. For a number that no member has
    /// nothing changes.
    pub fn finish(&mut self, who: u32)
        ensures members { self.new ≡ members_finished self.old who }
        ensures close { AreClose self.new }
    {
        let leaving = find_member(&self.members, who);
        if leaving.finished {
            return;
        }
        let round = leaving.round;
        self.members[who as usize] = Member {
            round,
            finished: true,
        };
        self.tally = self.tally.left(round);
    }
}
