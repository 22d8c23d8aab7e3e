//! What the definitions say of small ways.

ghost use Rattle.flight_steps.specs.Rejected.{FlightRows};
ghost use Rattle.flight_steps.specs.Sizes.{SizeRows};

/// Small ways that are no flight, with the first cause of each, beside ways that are one.
pub fn ways_law()
    ensures { FlightRows }
{}

/// Steps for two drones, beside steps that are for none or for others.
pub fn sizes_law()
    ensures { SizeRows }
{}
