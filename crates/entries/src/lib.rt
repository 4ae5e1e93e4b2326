// The entries of an answer: the chosen end of each bracket and the velocities there (01,
// Velocities), whether all of these velocities are finite, and the answer's bytes.
#![tactic(auto)]

ghost use Rattle.std.specs.Prelude.{◌≡◌, cond, map, min, ◌≤◌, take};
ghost use Rattle.records.specs.Layout.{most_entries};
ghost use Rattle.entries.specs.Entries.{place_of, upper_of, takes_upper, velocities_at, end_number, entry_for, places, entry_finite, every};

mod answers;

pub use answers::write_answer;
use bisection::Bracket;
use entrance::Problem;
use flight_time::Place;
use float64::Vector;
use records::{Entry, MOST_ENTRIES};
use velocity::Velocities;

// Returns the time at place k of a problem, or void if it has none.
#[tactic(auto, unfolding(crate::specs::Entries::place_of))]
pub fn place_at(p: Problem, k: i64) -> Place
    ensures { result ≡ place_of p k }
{
    let triangle = p.triangle;
    flight_time::time_at(triangle, k, p.revolutions)
}

// Reports whether the upper end is chosen, given the results at both ends, each a time or void. If
// one of them is void, the upper end is not chosen.
fn upper_of(lower: Place, upper: Place, wanted: f64) -> bool
    ensures { result ≡ upper_of lower upper wanted }
{
    let Place::Timed(t0) = lower else {
        return false;
    };
    let Place::Timed(t1) = upper else {
        return false;
    };
    velocity::upper_chosen(t0, t1, wanted)
}

#[tactic(auto, unfolding(crate::specs::Entries::takes_upper))]
fn takes_upper(p: Problem, b: Bracket) -> bool
    ensures { result ≡ takes_upper p b }
{
    upper_of(place_at(p, b.lower), place_at(p, b.upper), p.wanted)
}

// Returns the velocities at place k. They need five fields of the problem, which `velocity` takes one by one: it is below the crate of
// `Problem`, and a struct of its own would only repeat these fields.
#[tactic(auto, unfolding(crate::specs::Entries::velocities_at))]
fn velocities_at(p: Problem, k: i64) -> Velocities
    ensures { result ≡ velocities_at p k }
{
    let triangle = p.triangle;
    let frame = p.frame;
    velocity::velocities_at(p.mu, triangle, p.radius1, p.radius2, frame, k)
}

// Returns the velocities at the upper end of a bracket if `upper` is true, and at its lower end
// otherwise.
fn velocities_at_end(p: Problem, b: Bracket, upper: bool) -> Velocities
    ensures { result ≡ velocities_at p (cond upper b.upper b.lower) }
{
    if upper {
        velocities_at(p, b.upper)
    } else {
        velocities_at(p, b.lower)
    }
}

// Returns the number of an end on the wire: 0 for the lower end, 1 for the upper end.
fn end_number(upper: bool) -> u32
    ensures { result ≡ end_number upper }
{
    u32::from(upper)
}

#[tactic(auto, unfolding(crate::specs::Entries::entry_for, crate::specs::Entries::velocities_for))]
fn entry_for(p: Problem, b: Bracket) -> Entry
    ensures { result ≡ entry_for p b }
{
    let upper = takes_upper(p, b);
    let w = velocities_at_end(p, b, upper);
    let v1 = w.v1;
    let v2 = w.v2;
    Entry {
        lower: b.lower,
        halvings: b.halvings,
        chosen: end_number(upper),
        v1,
        v2,
    }
}

// Returns `count`, but at most `MOST_ENTRIES`, the number of elements of a list.
pub(crate) fn cut_count(count: usize) -> u16
    ensures most { result ≤ most_entries }
    ensures cut { result ≡ min count most_entries }
{
    count.min(MOST_ENTRIES) as u16
}

// Returns the entries of the first `count` brackets, or of all brackets if `count` is larger than
// the list. The unused elements after these entries hold zeros. The list stands beside its count, as
// the sweep gives it, here and in the functions that take entries.
pub fn entries_of(p: Problem, list: [Bracket; MOST_ENTRIES], count: usize) -> [Entry; MOST_ENTRIES]
    ensures places { result ≡ places (map (entry_for p) (take count list)) }
    ensures taken { take count result ≡ map (entry_for p) (take count list) }
{
    let few = cut_count(count) as usize;
    let none = Vector {
        x: 0.0,
        y: 0.0,
        z: 0.0,
    };
    let unused = Entry {
        lower: 0,
        halvings: 0,
        chosen: 0,
        v1: none,
        v2: none,
    };
    let mut entries = [unused; MOST_ENTRIES];
    for i in 0..few {
        entries[i] = entry_for(p, list[i]);
    }
    entries
}

#[tactic(auto, unfolding(velocity::specs::Chosen::velocities_finite))]
fn is_finite(e: Entry) -> bool
    ensures { result ≡ entry_finite e }
{
    let v1 = e.v1;
    let v2 = e.v2;
    velocity::are_finite(Velocities { v1, v2 })
}

// Reports whether the velocities of the first `count` entries are finite, or of all entries if
// `count` is larger than the list.
pub fn all_finite(entries: [Entry; MOST_ENTRIES], count: usize) -> bool
    ensures { result ≡ every entry_finite (take count entries) }
{
    let few = cut_count(count) as usize;
    entries[..few].iter().all(|e| is_finite(*e))
}
