// Lists of corners for C: each function takes numbers, slices as pointer and length, and pointers for its results. It
// returns 0, or the number of a refusal, which leaves buffers and results as they were. include/zakdomp.h declares
// them.
#![tactic(auto)]

mod apart; // zakdomp_merge_apart: the list that merging would leave, in a separate buffer
mod merging; // zakdomp_merge: corners merged in place
mod naive; // zakdomp_merge_naive: corners merged in place by distance alone
mod showing; // zakdomp_show_corner: the corner at a place of a list
mod striking; // zakdomp_strike_corner: the corner at a place of a list removed
mod table; // zakdomp_merge_by_table: corners merged in place with a borrowed table
