//! The tests, a module for each subject.

mod circuits;
mod expansion;
mod expressions;
mod files;
mod programs;
mod ready;
mod texts;
mod tokens;
