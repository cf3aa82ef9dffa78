//! The viewer without its reading of files. It shows an input, which spells bytes, as text, as a
//! part of an HTML page, or as rows for a program.
#![tactic(auto)]

mod asked;
mod json;
mod misread;
mod page;
mod read;
mod respelled;
mod rows;
mod sequence;
mod shown;

pub use asked::{Asked, Form};
pub use page::{END, FRONT};
pub use read::{Reading, read_bytes};
pub use respelled::{Respelled, To, respell};
pub use shown::{Shown, UNANSWERED, look};
