// Laws about times, reasons, brackets, crossings and void stations (01, Time at one place and
// Stations, sides, crossings; 02, A4), stated without the recursion and the loop that find them. This
// crate has definitions and theorems about `flight_time`, `bisection` and `sweep`, and no code.
#![tactic(auto)]
