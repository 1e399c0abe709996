//! Laws of the memory, stated over its definitions alone. Each function here does nothing, and its contract is a law. A
//! law holds for every memory, every command and every list of commands. It says what a user of a memory can count on,
//! whatever program keeps it.
#![tactic(auto)]

mod agreement;
mod blocks;
mod cells;
mod entries;
mod examples;
mod groups;
mod memories;
mod places;
mod runs;
mod steps;
mod traces;
mod waiters;
mod windows;

pub use agreement::{waiting_agrees, waiting_entries_are_listed_once};
pub use blocks::{
    allocation_takes_the_least_place, blocks_are_apart, blocks_stay_whole, release_frees_the_block,
    reset_empties_the_block,
};
pub use cells::other_cells_stay;
pub use entries::{entry_lasts, number_acts_once, read_back, repeat_is_told_again};
pub use examples::{
    a_reset_begins_a_life, fetches_have_the_first_value, full_window_is_answered_first,
    least_hole_is_taken, least_memory_serves, lengths_and_addresses_have_edges, lives_are_apart,
    readers_wait_for_one_store, repeat_acts_once, second_put_clashes, second_store_clashes,
    takers_are_served_in_order, takes_match_puts, waiting_block_stays,
};
pub use groups::{groups_are_runs, others_leave_acceptance};
pub use memories::memory_stays_one;
pub use places::place_is_the_least;
pub use runs::{only_accepted_commands_matter, runs_join};
pub use steps::{
    acceptance_tells, accepted_where_changed, refusals_are_of_numbers, repeat_changes_nothing,
};
pub use traces::{trace_grows, trace_is_a_run, traces_join};
pub use waiters::{
    later_request_waits_behind, put_answers_the_first_taker, store_answers_every_reader,
};
pub use windows::{
    bounds_never_fall, confirmation_moves_the_base, confirmations_drop_what_is_answered,
    entries_are_kept_within_bounds, forgotten_for_ever, request_takes_the_next_number,
    requests_are_judged_by_bounds,
};
