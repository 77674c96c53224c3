//! A module for each subject.

mod answers;
mod devices;
mod puts;
mod real_files;
mod runs;
mod spelling;
mod words;
