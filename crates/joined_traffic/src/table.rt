//! The table of a direct initiator.
ghost use Rattle.joined_traffic.specs.Finding.{CoversWhatServes};
ghost use Rattle.joined_traffic.specs.Table.{NoneFound, TableBegins, TableDrops, TablePasses, TableStays, TableTakes};

/// What a table keeps from its beginning on.
pub fn tables_keep_own_grants()
    ensures begins { TableBegins }
    ensures stays { TableStays }
    ensures passes { TablePasses }
    ensures takes { TableTakes }
    ensures drops { TableDrops }
{}

/// Where it finds no grant, an access may be blocking.
pub fn accesses_go_direct_by_tables()
    ensures { NoneFound }
{}

/// An own grant covers just what it serves.
pub fn grants_cover_what_they_serve()
    ensures { CoversWhatServes }
{}
