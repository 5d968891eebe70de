//! The words that the program is called with, read as one of its forms.
#![tactic(auto)]

mod checking;
mod form;
mod live;
mod numbered;
mod reading;
mod refused;

pub use checking::is_check;
pub use form::Form;
pub use live::{LiveForm, live_form_of};
pub use reading::form_of;
pub use refused::are_refused;
