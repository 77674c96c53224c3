//! What these tests share, and a module for each subject.

mod actions;
mod ops;
mod places;
mod playing;
mod reports;
mod rules;
mod steps;
mod texts;
mod tight;
