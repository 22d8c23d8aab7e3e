//! The choreography language: its texts, and the shows that they stand for.
//!
//! [`read_show`] returns a show exactly where the text stands for it, by the grammar in `specs/Grammar.antt`, and else
//! the first faulty line and what is wrong with it. [`tokens`] returns the words of a text. `docs/LANGUAGE.md` has the
//! language. The crate stands on `choreo_show`, which has the shows, on `choreo_lines`, which reads one line, and on
//! `text_lines`, which cuts a text.
#![tactic(auto)]

mod fault;
mod reader;
mod token;

pub use choreo_lines::LineKind;
pub use choreo_show::{
    Act, ActLine, Block, DroneLine, Figure, Formation, Frame, Listed, Mirror, Name, Point,
    Settings, Show,
};
pub use fault::ShowFault;
pub use reader::{read_show, show_law};
pub use text_lines::Token;
pub use token::tokens;
