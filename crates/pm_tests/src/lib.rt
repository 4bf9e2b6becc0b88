//! Tests of what no reply of the program shows: single calls of the engines and what they show where they give up, bit
//! rows of each length, values, files and books as texts, cells of sites, a placing triangulation, sums and
//! refinements, the checker of tables, linear programs and optima at rays by wide numbers, these numbers themselves,
//! sources and stores in memory, and the texts of errors. It knows nothing of sessions, and nothing stands on it.
#![tactic(auto)]

#[cfg(test)]
mod bits;
#[cfg(test)]
mod cells;
#[cfg(test)]
mod engines;
#[cfg(test)]
mod memory;
#[cfg(test)]
mod numbers;
#[cfg(test)]
mod optima;
#[cfg(test)]
mod placing;
#[cfg(test)]
mod plans;
#[cfg(test)]
mod programs;
#[cfg(test)]
mod refusals;
#[cfg(test)]
mod rows;
#[cfg(test)]
mod sums;
#[cfg(test)]
mod texts;
