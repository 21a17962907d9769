// What follows of the calls of a memory.
ghost use Rattle.std.specs.Prelude.{◌≡◌, ◌<◌, ◌⊎◌, ℕ, true};
ghost use Rattle.tlm_types.specs.declared.words.Response.TheVariants.{Ok};
ghost use Rattle.tlm_types.specs.declared.words.Way.TheVariants.{Direct};
ghost use Rattle.generic_payload.specs.Payload.{PayloadView};
ghost use Rattle.region_object.specs.Call.{IsDirectFit};
ghost use Rattle.region_object.specs.Grants.{IsGrantLog};
ghost use Rattle.region_object.specs.Region.{LoggedMemory, accessed};
ghost use Rattle.region_object.specs.Written.{written_from};

/// A direct access that fits is OK: its grant is of the memory, which has bytes and allows reads or writes.
pub fn direct_accesses_are_ok()
    ensures { (m : LoggedMemory) (gate : ℕ) (p : PayloadView) →
        0 < m.traits.size → (m.traits.readable ≡ true) ⊎ (m.traits.writable ≡ true) →
        IsGrantLog m.first_gate m.traits m.log.entries → IsDirectFit (written_from 0 m.log.entries) gate p →
        (accessed m (Direct gate) p).status ≡ Ok }
{}
