//! Laws of the texts of answers: each text is of one answer.

pub use rh_engine::laws::{each_text_is_of_one_answer_to_its_line, listings_tell_what_they_list};
pub use rh_syntax::laws::each_text_is_of_one_answer;
