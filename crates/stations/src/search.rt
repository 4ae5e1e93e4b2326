// The input of a sweep.
use geometry::Triangle;

// A search: it asks where the time of flight of a triangle, with the given number of whole
// revolutions, crosses the wanted time T*.
#[derive(Clone, Copy)]
pub struct Search {
    pub triangle: Triangle,
    pub revolutions: u16,
    pub wanted: f64,
}
