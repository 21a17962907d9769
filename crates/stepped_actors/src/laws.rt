//! A law of actors.
ghost use Rattle.stepped_actors.specs.Laws.{ActorsStay};

use decoupled_run::initiators_stay;
use fourphase_port::laws::stepped_knows_more;
use router_steps::laws::stepped_routers_keep;
use target_node::laws::more_is_known;

/// What an actor keeps by a note it keeps by any note of the same history that knows more: so it keeps it while others make
/// entries.
pub fn actors_stay()
    ensures { ActorsStay }
{
    initiators_stay();
    stepped_knows_more();
    stepped_routers_keep();
    more_is_known();
}
