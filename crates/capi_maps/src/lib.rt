// Images and their response maps for C: each function takes numbers, slices as pointer and length, and pointers for its
// results. It returns 0, or the number of a refusal, which leaves the results as they were. include/zakdomp.h declares
// them.
#![tactic(auto)]

mod levels; // zakdomp_levels, zakdomp_level_bytes: the half-size levels of an image
mod limits; // zakdomp_response_limits: the limits of the responses
mod patch; // zakdomp_response: the responses of a box
mod retouching; // zakdomp_retouch: a pixel changed, and its map updated
