// The curve of a question, for hosts that draw it: the wanted time T*, the stations, and the time T at any place. T* and T are in the
// triangle's unit of time, not in seconds. A time is returned as its 64 bits. A question that does not pass the entrance checks has no
// time and no station.
ghost use Rattle.std.specs.Prelude.{◌≡◌};
ghost use Rattle.stations.specs.Stations.{station_of};
ghost use Rattle.c_solver.specs.Curve.{wanted_bits, station_count, time_bits};

use records::ANSWER_ROOM;

// The value returned as a time for a question that does not pass the entrance checks: all bits are ones.
const REFUSED_BITS: u64 = 0xFFFF_FFFF_FFFF_FFFF;

// Returns the bits of the wanted time, or all ones if the question does not pass the entrance checks.
#[tactic(auto, unfolding(crate::specs::Curve::wanted_bits))]
pub fn lambert_wanted(question: &[u8]) -> u64
    ensures { result ≡ wanted_bits question.now }
{
    match entrance::judge(question, ANSWER_ROOM) {
        Err(_) => REFUSED_BITS,
        Ok(problem) => float64::to_bits(problem.wanted),
    }
}

// Returns how many stations the question's grid has.
#[tactic(auto, unfolding(crate::specs::Curve::station_count))]
pub fn lambert_stations(question: &[u8]) -> u64
    ensures { result ≡ station_count question.now }
{
    match entrance::judge(question, ANSWER_ROOM) {
        Err(_) => 0,
        Ok(problem) => stations::last_station(problem.revolutions) as u64 + 1,
    }
}

// Returns the place k of the station with index i, counted from 0, for any i. This station has j = i - 4095 and k = j * 2^20. See
// `lambert_stations` for how many stations a question has.
pub fn lambert_station(i: u16) -> i64
    ensures { result ≡ station_of i }
{
    stations::station(i)
}

// Returns the bits of the time at the place k. If the place is void, the result is 0x7FF8_0000_0000_0000 plus the number of the reason. If
// the question does not pass the entrance checks, all bits are ones.
#[tactic(auto, unfolding(crate::specs::Curve::time_bits))]
pub fn lambert_time(question: &[u8], k: i64) -> u64
    ensures { result ≡ time_bits question.now k }
{
    match entrance::judge(question, ANSWER_ROOM) {
        Err(_) => REFUSED_BITS,
        Ok(problem) => flight_time::place_bits(entries::place_at(problem, k)),
    }
}
