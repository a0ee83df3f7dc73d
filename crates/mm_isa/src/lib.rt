//! The machine's instructions, to and from their words, and the integer operations.
//!
//! An instruction word is an integer with six fields. Contracts see a register as its number.
#![tactic(auto)]

mod arithmetic;
mod decoding;
mod encoding;
mod fields;
mod form;
mod instr;
pub mod laws;
mod operand;
mod operation;
mod reg;
mod sum;
mod table;

pub use arithmetic::alu;
pub use decoding::{common, decode, read};
pub use encoding::encode;
pub use fields::Fields;
pub use form::{Form, operation_named};
pub use instr::{AluOp, DivZero, How, Instr};
pub use operand::{Operand, OperandKind};
pub use operation::Operation;
pub use reg::{EvtReg, Reg};
pub use table::Visitor;
