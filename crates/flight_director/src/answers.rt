//! Which drones have answered since the last step began.

ghost use Rattle.std.specs.Prelude.{◌≡◌, slice_set, true};
ghost use Rattle.flight_model.specs.Directors.{all_answered as word_all, unanswered};

/// A drone has answered.
pub fn put_answer(answered: &mut [bool], d: usize)
    ensures { answered.new ≡ slice_set answered.old d true }
{
    if d < answered.len() {
        answered[d] = true;
    }
}

/// Whether each has.
pub fn all_answered(answered: &[bool]) -> bool
    ensures { result ≡ word_all answered.now }
{
    for has in answered {
        if !*has {
            return false;
        }
    }
    true
}

/// Nobody has yet.
pub fn forget(answered: &mut [bool])
    ensures { answered.new ≡ unanswered answered.old }
{
    for d in 0..answered.len() {
        answered[d] = false;
    }
}
