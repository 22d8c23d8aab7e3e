//! The laws of a flight through frames.

ghost use Rattle.flight_link.specs.Flights.{FlightLinkLaw};
ghost use Rattle.flight_link.specs.Frames.{FrameLaw};
ghost use Rattle.flight_link.specs.Orders.{OrdersLaw};

use flight_model::director_law;

/// A law. Each event has one frame, which is read as that event and as no other; no two things that are said have one
/// frame.
pub fn frame_law()
    ensures { FrameLaw }
{}

/// A law. Whatever bytes come, a flight has one end and one output.
pub fn flight_link_law()
    ensures { FlightLinkLaw }
{
    frame_law();
}

/// A law. What goes out before the end frame is what the director says at events that stand in the bytes that came; and
/// a flight that ends with 0 was told to each drone, step by step, and nothing else was.
pub fn orders_law()
    ensures { OrdersLaw }
{
    director_law();
}
