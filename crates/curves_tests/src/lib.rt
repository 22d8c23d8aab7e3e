//! Tests of the crates of curves, against values from outside: `whole_numbers`, `bezier_core`, `halving`, `traj_codec`,
//! `fleet_curves` and `integer_player`. They stand in a crate of their own, so that each of these is proved once. It
//! hands nothing out.
#![tactic(auto)]

#[cfg(test)]
mod curves_of_degrees;
#[cfg(test)]
mod halves;
#[cfg(test)]
mod numbers;
#[cfg(test)]
mod positions;
#[cfg(test)]
mod raised_segments;
#[cfg(test)]
mod shows;
#[cfg(test)]
mod trajectories;
