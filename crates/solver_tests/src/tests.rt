//! A module for each subject.

mod certificates;
mod exported;
mod formulas;
mod limits;
mod logs;
mod searches;
mod watches;
