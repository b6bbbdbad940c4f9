//! The verifier: which objects hold sound code; and code in memory that is encoded and opened
//! again.
#![tactic(auto)]

mod alike;
mod arguments;
mod fields;
mod forms;
mod halving;
mod heads;
mod kinds;
mod opening;
mod reader;
mod rules;
mod seen;
mod slots;
mod verified;
mod verifier;
mod view;
mod words;

pub use alma_code::VerifyFault;
pub use fields::fits_fields;
pub use opening::{open_encoded, open_object};
pub use verified::{Verified, verify};
