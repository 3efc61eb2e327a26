//! What a person is shown of a machine: the step that comes next, calls with their values, forms, and all of it on one
//! screen. All of it is this project's profile.
#![tactic(auto)]

mod calls;
mod changing;
mod characters;
mod doubting;
mod form_list;
mod given;
mod notes;
mod piece;
mod reason;
mod reasons;
mod screen;
mod screen_line;
mod standing_line;
mod unseen;
mod way;

pub use calls::{Before, Gave, beneath_into, call_into, outcome_into};
pub use changing::change_into;
pub use doubting::doubt_into;
pub use form_list::{form_into, list_into};
pub use given::{given_into, only_byte};
pub use notes::{
    FORM_NAMED, Later, NO_PLACE, NO_PRIMITIVE, SEARCH_LIMIT, Stop, later_into, no_end_into,
    recalled_into, refused, stop_into, window_into,
};
pub use piece::{piece_around_into, piece_into};
pub use reason::{Lack, Reason, Relation, comparison_of, reason_of};
pub use reasons::{are_plain, reason_into};
pub use screen::screen_into;
pub use screen_line::ScreenLine;
pub use standing_line::standing_into;
pub use unseen::is_seen;
pub use way::{
    Origin, Treatment, begun_line, left_out_into, origin_into, step_line, treated_into,
    treatment_into,
};
