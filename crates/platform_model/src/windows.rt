// The windows of routers.
ghost use Rattle.std.specs.Prelude.{◌≡◌};
ghost use Rattle.platform_model.specs.Windows.{window_at};

use addr_router::Window;
use tlm_model::WindowRow;

/// The window of a row, with this port.
pub fn window(row: &WindowRow, port: u32) -> Window
    ensures { result ≡ window_at port row.now }
{
    Window {
        first: row.first,
        last: row.last,
        port,
        base: row.base,
    }
}
