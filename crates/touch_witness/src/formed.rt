//! What the types of trajectories say of their elements.

ghost use Rattle.std.specs.Prelude.{All};
ghost use Rattle.fleet_curves.specs.Steps.{IsFormed};

use traj_codec::Traj;

/// A law: each element of these trajectories on x, y and z has at most seven numbers.
pub fn formed_law(trajs: &[Traj])
    ensures { All (λ t. All IsFormed t.segments) trajs.now }
{
    for t in trajs {
        fleet_curves::formed_law(t);
    }
}
