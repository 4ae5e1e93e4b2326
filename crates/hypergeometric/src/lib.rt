// The hypergeometric function of the time equation (01, Time at one place, steps 2 to 5). The angle
// is halved three times, the series is evaluated there, and then the three halvings are undone.
#![tactic(auto)]

ghost use Rattle.std.specs.Prelude.{◌≡◌};
ghost use Rattle.hypergeometric.specs.Steps.{y_of, eta_of, c1_of, next_c, half_angles_of, s4_of, back_of, g_of};

mod reasons;
mod series;

pub use reasons::Reason;
use series::series;

// The numbers that steps 2 and 3 find: η, and C and its root w for each of the three halvings of the
// angle.
#[derive(Clone, Copy)]
pub struct Angles {
    pub eta: f64,
    pub c1: f64,
    pub w1: f64,
    pub c2: f64,
    pub w2: f64,
    pub c3: f64,
    pub w3: f64,
}

// Returns y, the root of 1 - L^2 u.
#[tactic(auto, unfolding(crate::specs::Steps::y_of))]
pub fn y_at(l: f64, u: f64) -> Option<f64>
    ensures { result ≡ y_of l u }
{
    float64::square_root(1.0 - (l * l) * u)
}

#[tactic(auto, unfolding(crate::specs::Steps::eta_of))]
fn eta_at(l: f64, x: f64, y: f64) -> f64
    ensures { result ≡ eta_of l x y }
{
    y - l * x
}

#[tactic(auto, unfolding(crate::specs::Steps::c1_of))]
fn first_c(l: f64, x: f64, eta: f64) -> f64
    ensures { result ≡ c1_of l x eta }
{
    ((1.0 + l) + x * eta) / 2.0
}

#[tactic(auto, unfolding(crate::specs::Steps::next_c))]
fn next_c(w: f64) -> f64
    ensures { result ≡ next_c w }
{
    (1.0 + w) / 2.0
}

// Steps 2 and 3: returns η and the results of halving the angle three times, for the given x. The
// caller passes u = 1 - x^2. The result is void if a root is refused.
#[tactic(auto, unfolding(crate::specs::Steps::half_angles_of))]
pub fn half_angles(l: f64, x: f64, u: f64) -> Result<Angles, Reason>
    ensures { result ≡ half_angles_of l x u }
{
    let y = y_at(l, u).ok_or(Reason::RefusedRoot)?;
    let eta = eta_at(l, x, y);
    let c1 = first_c(l, x, eta);
    let w1 = float64::square_root(c1).ok_or(Reason::RefusedRoot)?;
    let c2 = next_c(w1);
    let w2 = float64::square_root(c2).ok_or(Reason::RefusedRoot)?;
    let c3 = next_c(w2);
    let w3 = float64::square_root(c3).ok_or(Reason::RefusedRoot)?;
    Ok(Angles {
        eta,
        c1,
        w1,
        c2,
        w2,
        c3,
        w3,
    })
}

// Returns S4, the argument of the series.
#[tactic(auto, unfolding(crate::specs::Steps::s4_of))]
fn fourth_s(w3: f64) -> f64
    ensures { result ≡ s4_of w3 }
{
    (1.0 - w3) / 2.0
}

// Undoes one halving. The result is void if a divisor is zero.
#[tactic(auto, unfolding(crate::specs::Steps::back_of))]
fn back(g: f64, w: f64, c: f64) -> Result<f64, Reason>
    ensures { result ≡ back_of g w c }
{
    let divisor = 4.0 * c;
    if w == 0.0 {
        return Err(Reason::ZeroDivisor);
    }
    if divisor == 0.0 {
        return Err(Reason::ZeroDivisor);
    }
    Ok((3.0 + g / w) / divisor)
}

// Steps 4 and 5: returns G, which is the series with the three halvings undone. The result is void
// if a divisor is zero.
#[tactic(auto, unfolding(crate::specs::Steps::g_of))]
pub fn g_at(angles: Angles) -> Result<f64, Reason>
    ensures { result ≡ g_of angles }
{
    let g = series(fourth_s(angles.w3));
    let g3 = back(g, angles.w3, angles.c3)?;
    let g2 = back(g3, angles.w2, angles.c2)?;
    back(g2, angles.w1, angles.c1)
}
