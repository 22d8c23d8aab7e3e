//! Tests of the crates that judge separation and motion, against values from outside: `sep_parts`, `speed_bound`,
//! `dynamics_bound`, `sep_certificate`, `certificate_checker`, `pair_search`, `keepout_boxes` and `touch_witness`. They
//! stand in a crate of their own, so that each of these is proved once. It hands nothing out.
#![tactic(auto)]

#[cfg(test)]
mod certificates;
#[cfg(test)]
mod dynamics;
#[cfg(test)]
mod flights;
#[cfg(test)]
mod groups_of_directions;
#[cfg(test)]
mod parts_of_cues;
#[cfg(test)]
mod reaches;
#[cfg(test)]
mod regions;
#[cfg(test)]
mod searches;
#[cfg(test)]
mod speeds;
#[cfg(test)]
mod thresholds_of_directions;
#[cfg(test)]
mod touches;
