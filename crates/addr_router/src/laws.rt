//! Laws over the definitions.
ghost use Rattle.addr_router.specs.Laws.{DecodesByItsWindow, HasWindowOfEachRow, UpIsWhatDecodes, UpUndoesDecode};

/// An address of a window decodes by this window, whatever the order of the rows.
pub fn each_address_has_its_window()
    ensures { DecodesByItsWindow }
{}

/// An address that leads through a port is what the port's translation gives back for the address that
/// the target sees.
pub fn up_undoes_decode()
    ensures { UpUndoesDecode }
{}

/// The translation of a range gives just the addresses that lead through this port into the range.
pub fn up_is_what_decodes()
    ensures { UpIsWhatDecodes }
{}

/// Where the port of each window is its row, each row is the port of one window.
pub fn each_row_has_its_window()
    ensures { HasWindowOfEachRow }
{}
