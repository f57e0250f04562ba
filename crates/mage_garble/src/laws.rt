// What the driver says over a whole program.
ghost use Rattle.mage_garble.specs.Laws.{NoneStops, SaysTheStream};

/// Over a program and with `finish` behind it, each worker's driver says the garbled stream of the worker.
pub fn law_of_streams()
    ensures { SaysTheStream }
{}

/// Over a steady sink that has room for its worker's garbled stream, no call of the driver is stopped: none of the worker's part of a
/// program, nor the `finish` behind it.
pub fn law_of_room()
    ensures { NoneStops }
{}
