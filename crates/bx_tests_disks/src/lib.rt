//! Tests of racks, of their calls, and of cells.
#![tactic(auto)]

#[cfg(test)]
mod calls;
#[cfg(test)]
mod cell_crashes;
#[cfg(test)]
mod cells;
#[cfg(test)]
mod chains;
#[cfg(test)]
mod crashes;
#[cfg(test)]
mod folders;
#[cfg(test)]
mod racks;
#[cfg(test)]
mod steps;
#[cfg(test)]
mod torn_rack;
