// Laws over the definitions.
ghost use Rattle.mage_file.specs.Laws.{ReadsExactly, ReadsBack, ReadsFirstExactly, ReadsFirstBack, SpellsSoLong, FitsAgain};

/// The reader gives a program exactly where the bytes are its spelling, it is in range and they aren't too many.
pub fn read_exactly()
    ensures { ReadsExactly }
{}

/// A program in range is read back from its spelling, where that isn't too long.
pub fn read_back()
    ensures { ReadsBack }
{}

/// The reader of the first version gives a program exactly where the bytes are its spelling in that version, it is in range,
/// its stores are one above the greatest page of a transfer or 0, and the bytes aren't too many.
pub fn read_first_exactly()
    ensures { ReadsFirstExactly }
{}

/// A program in range whose stores are one above the greatest page of a transfer, or 0, is read back from its spelling in
/// the first version, where that isn't too long.
pub fn read_first_back()
    ensures { ReadsFirstBack }
{}

/// A file has 28 bytes, 8 for each worker and 20 for each directive; one of the first version has 4 for each worker.
pub fn spells_so_long()
    ensures { SpellsSoLong }
{}

/// A program with as many directives in each worker as one whose file of the first version isn't too long has a file that
/// isn't too long either.
pub fn fits_again()
    ensures { FitsAgain }
{}
