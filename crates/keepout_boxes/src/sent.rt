//! What keeps to regions does so by other segments of the same curve.

ghost use Rattle.keepout_boxes.specs.Kept.{KeepsLaw, SentLaw};

/// A law: a drone that keeps to a region does so however its curve is cut into segments; so what is judged cue by cue
/// holds of the trajectories that are sent, whose holds are joined.
pub fn sent_law()
    ensures lifts { KeepsLaw }
    ensures sent { SentLaw }
{}
