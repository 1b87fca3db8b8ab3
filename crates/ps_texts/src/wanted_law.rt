ghost use Rattle.ps_resolve.specs.Readings.{HostFiles};
ghost use Rattle.ps_texts.specs.UnitNames.{AreTaken, units_wanted};

/// The names of the units that a link wants are said plainly: each that a slot of the host wants, and
/// each that a record requests, of the host or of a unit that was found, and that no slot of the host
/// has; no other name, and none twice.
pub fn wanted_units()
    ensures { (h : HostFiles) → AreTaken h (units_wanted h) }
{}
