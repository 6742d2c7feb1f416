//! Laws of trays, and of the lines that deal into them.

pub use rh_engine::laws::{
    a_tray_more_than_64_is_refused, a_tray_takes_its_name_alone,
    deals_into_trays_are_refused_in_order, gives_of_trays_are_refused_in_order,
    joined_items_are_the_newest, joins_of_trays_are_refused_in_order, what_is_dealt_is_in_its_tray,
    what_is_joined_is_in_the_first_tray,
};
pub use rh_syntax::laws::the_names_of_trays_are_read;
