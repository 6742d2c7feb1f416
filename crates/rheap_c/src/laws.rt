//! Laws of the calls that a program makes on one handle. Each function does nothing: its contract
//! is the law.

pub mod command_rows;
pub mod growing;
pub mod making;
pub mod numbers;
pub mod readings;
pub mod resizing;
pub mod room;
pub mod runs;
pub mod views;

pub use command_rows::{
    a_growing_row_is_its_commands_up_to_a_refusal, a_row_is_its_commands_up_to_a_refusal,
    a_value_to_be_written_means_what_its_kind_says, rows_are_these_commands,
    rows_tell_the_values_of_their_replies, tickets_have_these_statuses,
};
pub use growing::{
    a_heap_that_grows_has_room_unless_it_is_short, calls_on_a_handle_are_calls_on_its_heap,
    calls_on_no_heap_do_nothing, no_program_in_c_sees_that_the_heap_grows,
};
pub use making::{
    an_object_is_made_as_on_the_plain_heap, values_are_refused_for_their_kinds_and_their_number,
    values_mean_what_their_kinds_say,
};
pub use numbers::{calls_that_tell_numbers_change_nothing, numbers_cross_under_their_names};
pub use readings::{
    a_row_is_read_as_its_fields_are, a_text_is_read_as_it_was_stored,
    a_text_is_read_as_its_fields_are, counts_are_those_of_the_objects, readings_answer_as_commands,
};
pub use resizing::a_resized_heap_finds_room;
pub use room::{
    a_refusal_for_room_has_the_numbers_of_rheap_room, calls_bounded_on_a_plain_heap_find_room,
    calls_stay_within_as_their_commands, calls_within_bounds_find_room,
};
pub use runs::{
    a_refused_row_changes_nothing, calls_are_these_commands, calls_make_one_run,
    each_call_stands_in_lists, no_program_in_c_sees_that_the_heap_collects,
};
pub use views::{
    a_dump_from_c_is_that_of_the_plain_heap, a_reader_kept_in_c_tells_what_cycles_tells,
};
