//! A module for each subject, and what several of them make: items, and settings with their variables.

mod items;
mod judging;
mod numbers;
mod schedules;
mod searches;
mod settings;
