// A buffer of corners: the four slices that it borrows.
ghost use Rattle.std.specs.Prelude.{◌≡◌};
ghost use Rattle.corner_list.specs.CornerList.{with_corner, corner_at, places_of};
ghost use Rattle.corner_list.specs.Buffer.{contents, seen, SameSlices};

use crate::Corner;

// Four slices, one for each field of a corner. The shortest counts.
#[derive(Drop)]
pub struct CornerBuffer<'a> {
    pub xs: &'a mut [f32],
    pub ys: &'a mut [f32],
    pub strengths: &'a mut [f32],
    pub neighbours: &'a mut [u32],
}

// The same four slices, only read.
#[derive(Clone, Copy)]
pub struct CornerView<'a> {
    pub xs: &'a [f32],
    pub ys: &'a [f32],
    pub strengths: &'a [f32],
    pub neighbours: &'a [u32],
}

impl CornerView<'_> {
    // How many corners it has a place for.
    pub fn places(self) -> usize
        ensures { result ≡ places_of (seen self.entry) }
    {
        let counted = self.strengths.len().min(self.neighbours.len());
        self.xs.len().min(self.ys.len().min(counted))
    }

    // The corner at a place. A field whose slice is too short is NaN, and 0 for the neighbours.
    pub fn at(self, at: usize) -> Corner
        ensures { result ≡ corner_at (seen self.entry) at }
    {
        Corner {
            x: lists::element_or(self.xs, at, f32::NAN),
            y: lists::element_or(self.ys, at, f32::NAN),
            strength: lists::element_or(self.strengths, at, f32::NAN),
            neighbours: lists::element_or(self.neighbours, at, 0),
        }
    }
}

impl CornerBuffer<'_> {
    // The buffer, only read.
    pub fn view(&self) -> CornerView<'_>
        ensures { seen result ≡ contents self.now }
    {
        CornerView {
            xs: self.xs,
            ys: self.ys,
            strengths: self.strengths,
            neighbours: self.neighbours,
        }
    }

    // How many corners it can hold.
    pub fn places(&self) -> usize
        ensures { result ≡ places_of (contents self.now) }
    {
        self.view().places()
    }

    // The corner at a place. A field whose slice is too short is NaN, and 0 for the neighbours.
    pub fn at(&self, at: usize) -> Corner
        ensures { result ≡ corner_at (contents self.now) at }
    {
        self.view().at(at)
    }

    // Puts a corner at a place. If one slice has no such place, no slice changes.
    pub fn put(&mut self, at: usize, c: Corner)
        ensures same_slices { SameSlices self.old self.new }
        ensures put { contents self.new ≡ with_corner at c (contents self.old) }
    {
        if at < self.places() {
            self.xs[at] = c.x;
            self.ys[at] = c.y;
            self.strengths[at] = c.strength;
            self.neighbours[at] = c.neighbours;
        }
    }
}
