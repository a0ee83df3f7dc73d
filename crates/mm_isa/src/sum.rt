//! The word of an instruction, summed operand by operand.

ghost use Rattle.std.specs.Prelude.{◌≡◌, Some};
ghost use Rattle.mm_isa.specs.Table.{spelling, IsInstr};
ghost use Rattle.mm_isa.specs.Decode.{instr_of};
ghost use Rattle.mm_isa.specs.Sum.{placed};

use crate::instr::Instr;
use crate::operand::Operand;
use crate::table::Visitor;

/// A word that is put together operand by operand: the fields so far, each in its place. It keeps no separate fields,
/// so that a compiler makes one mask and one number of each row.
#[derive(Clone, Copy)]
struct Sum {
    word: u64,
}

impl Visitor for Sum {
    ghost use Rattle.std.specs.Prelude.{◌*◌, ◌^◌};
    ghost use Rattle.mm_isa.specs.Sum.{added};

    ghost begun = { λ s name code. record { word = code * 2 ^ 56 } };

    ghost given = { added };

    #[inline(always)]
    fn operation(self, _name: &'static str, code: u8) -> Sum {
        Sum {
            word: u64::from(code) << 56,
        }
    }

    #[inline(always)]
    fn operand(self, operand: Operand) -> Sum {
        Sum {
            word: self.word.wrapping_add(placed(operand)),
        }
    }
}

/// The bits of an operand, shifted to the operand's place in a word.
#[inline(always)]
fn placed(operand: Operand) -> u64
    ensures { result ≡ placed operand }
{
    match operand {
        Operand::Rd(r) => u64::from(r.number()) << 52,
        Operand::EvtRd(r) => u64::from(r.number()) << 52,
        Operand::Ra(r) => u64::from(r.number()) << 48,
        Operand::Rb(r) => u64::from(r.number()) << 44,
        Operand::Imm(n) => u64::from(n.cast_unsigned()),
        Operand::Distance(n) => u64::from(n.cast_unsigned()),
        Operand::RegisterNumber(r) => u64::from(r.number()),
        Operand::Pre(pre) => u64::from(pre as u8) << 42,
        Operand::Post(post) => u64::from(post as u8) << 40,
        Operand::How(how) => u64::from(how as u8) << 40,
    }
}

/// The word of an instruction, as [`encode`](crate::encode) gives it, for [`read`](crate::read) alone.
#[inline(always)]
pub(crate) fn summed(i: &Instr) -> u64
    ensures value { result ≡ spelling i.now }
    ensures again { instr_of result ≡ Some i.now }
    ensures legal { IsInstr i.now }
{
    let sum = i.visit(Sum { word: 0 });
    sum.word
}
