//! The commands that look at one show: `check`, `compile`, `certify`, `report` and `play`; `drill`, at one of its own;
//! and `help` and `version`, at none. The run of each is one fact, `Does`.
#![tactic(auto)]

mod certifying;
mod checking;
mod compiling;
mod drilling;
mod helping;
mod lines;
mod numbers;
mod playing;
mod reporting;

pub use certifying::{CertifyVerb, certify};
pub use checking::{CheckVerb, check};
pub use compiling::{CompileVerb, compile};
pub use drilling::drill;
pub use helping::{help, version};
pub use playing::play;
pub use reporting::{ReportVerb, report};
