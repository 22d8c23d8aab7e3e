//! The shows of the choreography language, below the language itself.
//!
//! [`Show`] is a show as it lies in memory, `Plain` in `specs/` the same without that, and `Valid` says which shows the
//! language lets be. The crate stands on the ground layer alone: `choreo_lines` and `choreo_reader`, which read shows
//! from a text, stand on it, and so does what unrolls and plans them, which knows no text.
#![tactic(auto)]

mod parts;
mod show;

pub use listed::Listed;
pub use parts::{Act, Ease, Frame, Mirror, Name, Point, copy_of, name_kept};
pub use show::{ActLine, Block, DroneLine, Figure, Formation, Settings, Show};
