//! The law of stopped machines.

ghost use Rattle.byte_machine.specs.Machines.{StoppedStays};

/// A machine that has stopped stays as it is, however many instructions it is given. Runs nothing.
pub fn stopped_stays()
    ensures { StoppedStays }
{}
