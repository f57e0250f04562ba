// What holds of the files of memory programs.
ghost use Rattle.mage_written.specs.Written.{AcceptedAreValues, EarlierFilesComeToPlans, LoadedHaveArguments, PlansArePlans, RenamedAreRead};

/// A memory program that the verifier accepts is a value of the types of `mage_instr`, where each instruction has three arguments:
/// its frames, offsets and slots are below 2^16.
pub fn accepted_are_values()
    ensures { AcceptedAreValues }
{}

/// Each instruction of the program that a source unrolls to has three arguments.
pub fn loaded_have_arguments()
    ensures { LoadedHaveArguments }
{}

/// The memory program of a source is a plan of its text, is accepted by the verifier, and is read back from its file. The limits
/// are in their ranges.
pub fn plans_are_plans()
    ensures { PlansArePlans }
{}

/// What the passes made of a source when each page was stored under its own number is accepted by the verifier and read back from
/// its file of the first version, and with store pages it is the memory program that they make now. The limits are in their
/// ranges, and suffice for the source.
pub fn earlier_files_come_to_plans()
    ensures { EarlierFilesComeToPlans }
{}

/// A memory program that is read from a file of the first version, and in which the verifier finds no fault, is read back from its
/// file once it has store pages. So what `upgrade` writes can be read.
pub fn renamed_are_read()
    ensures { RenamedAreRead }
{}
