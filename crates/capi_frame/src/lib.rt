// The corners of an image for C, by computed and by exact values. `capi_photo` has those of an uploaded photograph.
// include/zakdomp.h declares them, and tools/entries writes them.
#![tactic(auto)]

mod computed; // zakdomp_find_corners
mod exact; // zakdomp_find_exact_corners
