//! What scripts of four-phase accesses may add to each object, counted.
ghost use Rattle.std.specs.Prelude.{◌≡◌};
ghost use Rattle.tlm_types.specs.declared.words.ObjectNo.TheVariants.{Memory, Hop, Pool};
ghost use Rattle.tlm_types.specs.declared.words.ReqMode.TheVariants as Req;
ghost use Rattle.tlm_types.specs.declared.words.RespMode.TheVariants as Resp;
ghost use Rattle.flow_check.specs.Worked.{lone, refused_plan, routed_plan};
ghost use Rattle.route_plan.specs.Planned.{planned_at};

/// An access over one hop: four calls, and at the pool a take, a release, and an acquire with its
/// release.
#[tactic(auto, using(crate::proofs::CountedAccesses::lone_memory, crate::proofs::CountedAccesses::lone_hop, crate::proofs::CountedAccesses::lone_pool))]
pub fn lone_access_is_counted()
    ensures memory { planned_at (lone Req.Accept Resp.Accept) (Memory 0) ≡ 1 }
    ensures hop { planned_at (lone Req.Accept Resp.Accept) (Hop 0) ≡ 4 }
    ensures pool { planned_at (lone Req.Accept Resp.Accept) (Pool 0) ≡ 4 }
{}

/// An access that a router refuses: its hop counts, and no memory.
#[tactic(auto, using(crate::proofs::CountedAccesses::refused_memory, crate::proofs::CountedAccesses::refused_first, crate::proofs::CountedAccesses::refused_second, crate::proofs::CountedAccesses::refused_pool))]
pub fn refused_access_is_counted()
    ensures memory { planned_at refused_plan (Memory 0) ≡ 0 }
    ensures first { planned_at refused_plan (Hop 0) ≡ 4 }
    ensures second { planned_at refused_plan (Hop 1) ≡ 0 }
    ensures pool { planned_at refused_plan (Pool 0) ≡ 4 }
{}

/// An access over three hops: two more entries at the pool for each.
#[tactic(auto, using(crate::proofs::CountedAccesses::routed_memory, crate::proofs::CountedAccesses::routed_last, crate::proofs::CountedAccesses::routed_pool))]
pub fn routed_access_is_counted()
    ensures memory { planned_at routed_plan (Memory 0) ≡ 1 }
    ensures last { planned_at routed_plan (Hop 2) ≡ 4 }
    ensures pool { planned_at routed_plan (Pool 0) ≡ 8 }
{}
