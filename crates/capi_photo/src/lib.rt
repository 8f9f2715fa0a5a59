// The corners of an uploaded photograph for C, by computed and by exact values. include/zakdomp.h declares them, and
// tools/entries writes them.
#![tactic(auto)]

mod computed; // zakdomp_find_corners_pgm
mod exact; // zakdomp_find_exact_corners_pgm
