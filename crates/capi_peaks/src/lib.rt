// The peaks of a response map for C: each function takes numbers, slices as pointer and length, and pointers for its
// results. It returns 0, or the number of a refusal, which leaves the results as they were. include/zakdomp.h declares
// them.
#![tactic(auto)]

mod centroid; // zakdomp_centroid: the centre of mass around a seed
mod enough; // zakdomp_has_peaks: whether a map has enough peaks
mod peaks; // zakdomp_peaks: the peaks of a response map
mod sure; // zakdomp_sure_peak: whether a place is a peak of every image between two
