//! The words of instructions.

ghost use Rattle.std.specs.Prelude.{◌≡◌, Some};
ghost use Rattle.mm_isa.specs.Table.{spelling, IsInstr};
ghost use Rattle.mm_isa.specs.Decode.{instr_of};

use crate::fields::Fields;
use crate::instr::Instr;

/// The word of an instruction.
pub fn encode(i: &Instr) -> u64
    ensures value { result ≡ spelling i.now }
    ensures again { instr_of result ≡ Some i.now }
    ensures legal { IsInstr i.now }
{
    i.visit(Fields::unused(0)).word()
}
