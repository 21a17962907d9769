// The table of operations in code: what each asks for.
ghost use Rattle.std.specs.Prelude.{◌≡◌};
ghost use Rattle.tlm_model.specs.declared.ask.Ask.TheVariants.{Access as AnAccess};
ghost use Rattle.tlm_model.specs.Actions.{asks_of, listed};
ghost use Rattle.traffic_script.specs.Proper.{IsProper};

use tlm_model::{Ask, Asks, Operation};

fn access(address: u64, logged: u64) -> Ask
    ensures { result ≡ AnAccess address logged }
{
    Ask::Access { address, logged }
}

/// What an operation asks for, whatever is answered.
pub fn asks_of(operation: &Operation) -> Asks
    requires { IsProper operation.now }
    ensures { listed result ≡ asks_of operation.now }
{
    match operation {
        Operation::Write {
            address,
            bytes,
            enables,
            width: _,
        } => {
            let logged = bytes.as_slice().len() as u64 + enables.as_slice().len() as u64;
            Asks::One(access(*address, logged))
        }
        Operation::Read {
            address,
            length,
            enables,
            width: _,
        } => {
            let logged = *length + enables.as_slice().len() as u64;
            Asks::One(access(*address, logged))
        }
        Operation::Ignore { address } => Asks::One(access(*address, 0)),
        Operation::Debug { address, length } => Asks::One(Ask::DebugRead {
            address: *address,
            logged: *length,
        }),
        Operation::Copy { from, to, length } => {
            Asks::Two(access(*from, *length), access(*to, *length))
        }
        Operation::Add { address, .. } => Asks::Two(access(*address, 4), access(*address, 4)),
        // It logs its operand and what it found.
        Operation::FetchAdd { address, .. } => Asks::One(access(*address, 8)),
        Operation::Wait { .. } | Operation::Sync | Operation::Fence => Asks::Nothing,
        Operation::Invalidate { address, .. } => Asks::One(Ask::Invalidation { address: *address }),
    }
}
