// Strikes a corner from a list in two steps: the corner is shown with the list's change number, and then struck by its
// place and that number (RULES 29).
#![tactic(auto)]

mod showing; // show_corner: the corner at a place
mod striking; // strike_corner: the corner at a place removed

pub use showing::{Shown, show_corner};
pub use striking::{Strike, strike_corner};
