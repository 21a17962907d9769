// The law of a platform's histories, and what the world of a plan says of its objects.
use cargo_model::Cargo;
use hop_object::Hop;
use one_history::Law;
use payload_pool::Pool;
use region_object::Region;
use route_plan::Plan;
use shared_object::{Locked, Naming, World};
use std::marker::Brand;
use tlm_types::Content;

/// The law of the histories of platforms: which earlier entries back an entry in the world of a plan, how
/// the memories, hops and pools of the plan are built, and which known entries vouch for what a hop
/// carries. An entry that is no part of a four-phase access is backed by all.
pub struct TlmLaw;

impl Law<Content, Plan> for TlmLaw {
    ghost use Rattle.cargo_net.specs.Traffic.{Backs};
    ghost use Rattle.cargo_net.specs.Grows.{grows};

    ghost backs = { Backs };

    ghost grows = { grows };
}

impl World<Plan, Hop<Cargo>> for TlmLaw {
    ghost use Rattle.cargo_net.specs.Carried.{IsCarried};
    ghost use Rattle.cargo_net.specs.Grows.{carried_grows};
    ghost use Rattle.cargo_net.specs.Traffic.{IsHopBuilt};

    ghost builds = { IsHopBuilt };

    ghost vouches = { IsCarried };

    ghost more_vouch = { carried_grows };
}

impl World<Plan, Region> for TlmLaw {
    ghost use Rattle.cargo_net.specs.Traffic.{IsMemoryBuilt};

    ghost builds = { IsMemoryBuilt };

    ghost vouches = { λ _ _ _ _ _ _. Unit {0} };

    ghost more_vouch = { λ _ _ _ _ _ _ _ _ _. tt };
}

impl World<Plan, Pool> for TlmLaw {
    ghost use Rattle.cargo_net.specs.Traffic.{IsPoolBuilt};

    ghost builds = { IsPoolBuilt };

    ghost vouches = { λ _ _ _ _ _ _. Unit {0} };

    ghost more_vouch = { λ _ _ _ _ _ _ _ _ _. tt };
}

/// A memory with its seat and its book, of the history and the tokens that N names.
pub type LockedMemory<N> = Locked<Region, Plan, TlmLaw, N>;

/// A hop with its seat and its book.
pub type LockedHop<N> = Locked<Hop<Cargo>, Plan, TlmLaw, N>;

/// A pool with its seat and its book.
pub type LockedPool<N> = Locked<Pool, Plan, TlmLaw, N>;

impl Naming<Plan, TlmLaw> for Brand {
    ghost use Rattle.std.specs.Prelude.{[]};

    ghost table = { record { words = 0; slots = 0; views_name = 0; atom = 0; block = 0; offset = 0; slot_names = [] } };

    ghost frame = { record {
      world = record { platform = record { version = 1; quantum = 0; initiators = []; routers = []; memories = [] }; scripts = [] };
      planned = [];
      gates = [];
      notes = 0;
    } };

    ghost tokens = { record { words = 0; slots = 0; views_name = 0; atom = 0; block = 0; offset = 0; slot_names = [] } };
}
