// Which corners join when a list is merged: those near each other whose grid cells differ by at most one each way. No
// grid is stored; the cell numbers decide. Only a corner's position counts, not its strength.
#![tactic(auto)]

ghost use Rattle.std.specs.Prelude.{◌≡◌, false, List, ℕ, take, Float};
ghost use Rattle.std.specs.Float.{inf};
ghost use Rattle.corner_list.specs.CornerList.{slices, corners_of};
ghost use Rattle.merge_grid.specs.Grid.{position_of, position_at, cell_of, column_of, row_of, within_one};
ghost use Rattle.merge_grid.specs.Grid.{adjacent_cells};
ghost use Rattle.merge_grid.specs.Grid.{near, meets, least_from, grid_of};

use corner_list::Corner;

// Where a corner is, in pixels.
#[derive(Clone, Copy)]
pub struct Position {
    pub x: f32,
    pub y: f32,
}

// The least coordinates of a list of corners, 1 / radius, and the radius squared.
#[derive(Clone, Copy)]
pub struct Grid {
    pub left: f32,
    pub top: f32,
    pub inverse: f32,
    pub square: f32,
}

impl From<Corner> for Position {
    ghost from_gives = { λ c p. p ≡ position_of c };

    fn from(c: Corner) -> Position {
        Position { x: c.x, y: c.y }
    }
}

// Where a corner is. Beside `Position::from`, because RULES 1.8 names it.
pub fn position_of(c: Corner) -> Position
    ensures { result ≡ position_of c }
{
    Position::from(c)
}

// Where the corner at a place of a buffer is; NaN past the end of a slice.
pub fn position_at(xs: &[f32], ys: &[f32], at: usize) -> Position
    ensures { result ≡ position_at xs.now ys.now at }
{
    Position {
        x: lists::element_or(xs, at, f32::NAN),
        y: lists::element_or(ys, at, f32::NAN),
    }
}

// The least of the first n numbers of a slice, or infinity if there is none. If the slice is shorter, the least of all
// of them. By a comparison: of two zeros `f32::min` does not say which it returns.
fn least(vs: &[f32], n: usize) -> f32
    ensures { result ≡ least_from (inf false) (take n vs.now) }
{
    let mut m = f32::INFINITY;
    for v in &vs[..n.min(vs.len())] {
        if *v < m {
            m = *v;
        }
    }
    m
}

// The grid of a radius and the first n corners of a buffer, whatever their strengths and neighbours.
pub fn grid_of(xs: &[f32], ys: &[f32], n: usize, radius: f32) -> Grid
    ensures { (strengths : List Float) (counts : List ℕ)
        → result ≡ grid_of radius (corners_of (slices xs.now ys.now strengths counts) n) }
{
    Grid {
        left: least(xs, n),
        top: least(ys, n),
        inverse: 1.0 / radius,
        square: radius * radius,
    }
}

// A coordinate's cell number.
fn cell_of(least: f32, inverse: f32, v: f32) -> usize
    ensures { result ≡ cell_of least inverse v }
{
    float32::cut_off((v - least) * inverse)
}

// A position's cell number across.
pub fn column_of(g: Grid, p: Position) -> usize
    ensures { result ≡ column_of g p }
{
    cell_of(g.left, g.inverse, p.x)
}

// A position's cell number down.
pub fn row_of(g: Grid, p: Position) -> usize
    ensures { result ≡ row_of g p }
{
    cell_of(g.top, g.inverse, p.y)
}

// Whether two cell numbers differ by at most one.
fn is_within_one(a: usize, b: usize) -> bool
    ensures { result ≡ within_one a b }
{
    a.abs_diff(b) <= 1
}

// Whether the cells of two positions differ by at most one each way.
#[tactic(auto, unfolding(crate::specs::Grid::adjacent_cells))]
fn are_adjacent(g: Grid, p: Position, q: Position) -> bool
    ensures { result ≡ adjacent_cells g p q }
{
    is_within_one(column_of(g, p), column_of(g, q)) && is_within_one(row_of(g, p), row_of(g, q))
}

// Whether the squared distance of two positions is at most a number.
#[tactic(auto, unfolding(crate::specs::Grid::near))]
pub fn is_near(square: f32, p: Position, q: Position) -> bool
    ensures { result ≡ near square p q }
{
    let dx = p.x - q.x;
    let dy = p.y - q.y;
    dx * dx + dy * dy <= square
}

// Whether corners at two positions join: near enough, and in adjacent cells.
pub fn is_joined(g: Grid, p: Position, q: Position) -> bool
    ensures { result ≡ meets g p q }
{
    is_near(g.square, p, q) && are_adjacent(g, p, q)
}
