//! The reader of circuit files: a text of OpenQASM 2.0 as a list of statements.
#![tactic(auto)]

mod arg;
mod body_item;
mod exp;
mod expressions;
mod fault;
mod file;
mod forms;
mod frame;
mod frames;
mod kind;
mod laws;
mod names;
mod operations;
mod qop;
mod reader;
mod start;
mod statement;
mod statements;
mod stop;
mod tokens;
mod tree;

pub use arg::{Arg, Args};
pub use body_item::{BodyItem, BodyItems};
pub use exp::{Exp, Exps};
pub use fault::QasmFault;
pub use file::read;
pub use laws::{one_answer, one_reading, one_statement_begins};
pub use names::Names;
pub use qop::Qop;
pub use statement::{Placed, Program, Statement};
