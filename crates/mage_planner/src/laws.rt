// What holds of the files that the commands write.
ghost use Rattle.mage_planner.specs.Checking.{PlansAreCarried};
ghost use Rattle.mage_planner.specs.Finding.{GeneratedFilesAreFound};
ghost use Rattle.mage_planner.specs.SaysPlain.{EvaluatingSaysPlain};
ghost use Rattle.mage_planner.specs.Upgrading.{EarlierFilesComeToTodays, UpgradesKeepCarried};

/// Where `upgrade` isn't refused, it reads a memory program from a file of the first version, writes one file and says nothing;
/// what it writes spells a memory program that carries a program exactly where the one that it read does, and is read back, where
/// what it read are bytes.
pub fn upgrades_keep_carried()
    ensures { UpgradesKeepCarried }
{}

/// Of a file of the first version that spells what the passes made of a source when each page was stored under its own number,
/// `upgrade` writes the file that `plan` writes of the source now, byte for byte. The limits are in their ranges, and suffice for
/// the source.
pub fn earlier_files_come_to_todays()
    ensures { EarlierFilesComeToTodays }
{}

/// Of the file that `plan` writes of a source, `check` says that it carries this source. The limits are in their ranges.
pub fn plans_are_carried()
    ensures { PlansAreCarried }
{}

/// On the files that `gen` leaves, `solo` that names them finds just the source and the input texts that were generated, and `stats` the
/// source. The numbers that `gen` is asked for are in their ranges.
pub fn generated_files_are_found()
    ensures { GeneratedFilesAreFound }
{}

/// Where each worker's label file is the one that `deal` writes, and its stream file the one that `solo` garbles, by one seed, `solo`
/// says over the evaluator what it says in plain on the same numbers, moves as many pages, and finds nothing wrong with any stream.
/// The limits are in their ranges.
pub fn evaluating_says_plain()
    ensures { EvaluatingSaysPlain }
{}
