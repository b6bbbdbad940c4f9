//! All that the program does.
#![tactic(auto)]

mod driver;

pub use alma_driver_outcome::laws;
pub use alma_driver_words::{Request, WordsError, read_words, sample_source};
pub use driver::alma;
