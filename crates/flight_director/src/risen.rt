//! Which drones were told to rise.

ghost use Rattle.std.specs.Prelude.{◌≡◌, Some};
ghost use Rattle.flight_model.specs.Directors.{has_risen as word_risen, any_risen as word_any_risen};
ghost use Rattle.flight_model.specs.Directors.{is_rise as word_rise, order_in};

use flight_model::{Flight, Order, Orders};

fn is_rise_order(order: &Order) -> bool
    ensures { result ≡ word_rise (Some (Some order.now)) }
{
    matches!(order, Order::Rise { .. })
}

// Whether these orders have drone d rise.
fn is_rise(orders: &Orders, d: usize) -> bool
    ensures { result ≡ word_rise (order_in orders.now d) }
{
    match orders {
        Orders::All { order } => is_rise_order(order),
        Orders::Each { orders } => match orders.as_slice().get(d) {
            None => false,
            Some(None) => false,
            Some(Some(order)) => is_rise_order(order),
        },
    }
}

/// Whether a drone was told to rise in the first n steps.
pub fn has_risen(f: &Flight, n: usize, d: usize) -> bool
    ensures { result ≡ word_risen f.now n d }
{
    let steps = f.steps.as_slice();
    for k in 0..n.min(steps.len()) {
        if is_rise(&steps[k].orders, d) {
            return true;
        }
    }
    false
}

/// Whether some drone was told to rise in the first n steps.
pub fn any_risen(f: &Flight, n: usize) -> bool
    ensures { result ≡ word_any_risen f.now n }
{
    for d in 0..f.curves.as_slice().len() {
        if has_risen(f, n, d) {
            return true;
        }
    }
    false
}
