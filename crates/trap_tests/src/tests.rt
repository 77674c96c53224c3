//! A module for each subject.

mod chains;
mod fixtures;
mod loads;
mod placements;
mod trap_files;
mod traps;
mod walks;
