// Streams, listings, photographs and items for C, as bytes: each function takes numbers, slices as pointer and length,
// and pointers for its results. It returns 0, or the number of a refusal, which leaves the results as they were. A
// function that writes a text returns its length. include/zakdomp.h declares them.
#![tactic(auto)]

mod corners; // zakdomp_corners: the listing of a frame stream, as the program `corners` prints it
mod holding; // zakdomp_holding, zakdomp_holdings: what may be deleted
mod photo; // zakdomp_pgm: where the pixels of an uploaded photograph are
mod writing; // zakdomp_write_stream: the frame stream
