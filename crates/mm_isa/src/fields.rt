//! The fields of an instruction word.

ghost use Rattle.std.specs.Prelude.{◌≡◌, ◌<◌};
ghost use Rattle.mm_isa.specs.Table.{put, packed, FitInWord, unused};
ghost use Rattle.mm_isa.specs.Decode.{fields_in};

use crate::operand::Operand;
use crate::reg::Reg;
use crate::table::Visitor;

/// The fields of an instruction word. A field that the operation does not use is zero.
#[derive(Clone, Copy)]
pub struct Fields {
    /// The operation's number, in bits 63 to 56.
    pub operation: u8,
    /// The register `rd`, in bits 55 to 52.
    pub rd: Reg,
    /// The register `ra`, in bits 51 to 48.
    pub ra: Reg,
    /// The register `rb`, in bits 47 to 44.
    pub rb: Reg,
    /// The conditions or the way to resume, in bits 43 to 40.
    pub c: u8,
    /// The constant, in bits 31 to 0.
    pub imm: i32,
}

impl Fields {
    /// The fields of this word.
    pub fn of_word(w: u64) -> Fields
        ensures { result ≡ fields_in w }
    {
        Fields {
            operation: (w >> 56) as u8,
            rd: Reg::of_low_bits(w >> 52),
            ra: Reg::of_low_bits(w >> 48),
            rb: Reg::of_low_bits(w >> 44),
            c: (w >> 40 & 0xf) as u8,
            imm: ((w & 0xffff_ffff) as u32).cast_signed(),
        }
    }

    /// The fields of an operation that uses none.
    pub fn unused(operation: u8) -> Fields
        ensures { result ≡ unused operation }
    {
        Fields {
            operation,
            rd: Reg::ZERO,
            ra: Reg::ZERO,
            rb: Reg::ZERO,
            c: 0,
            imm: 0,
        }
    }

    /// The fields with an operand in its place, whatever was there.
    pub fn put(self, operand: Operand) -> Fields
        ensures value { result ≡ put self operand }
        ensures narrow { self.c < 16 → result.c < 16 }
    {
        match operand {
            Operand::Rd(rd) => Fields { rd, ..self },
            Operand::EvtRd(rd) => Fields {
                rd: rd.reg(),
                ..self
            },
            Operand::Ra(ra) => Fields { ra, ..self },
            Operand::Rb(rb) => Fields { rb, ..self },
            Operand::Imm(imm) => Fields { imm, ..self },
            Operand::Distance(imm) => Fields { imm, ..self },
            Operand::RegisterNumber(reg) => Fields {
                imm: i32::from(reg.number()),
                ..self
            },
            Operand::Pre(pre) => Fields {
                c: pre as u8 * 4 + self.c % 4,
                ..self
            },
            Operand::Post(post) => Fields {
                c: self.c / 4 * 4 + post as u8,
                ..self
            },
            Operand::How(how) => Fields {
                c: how as u8,
                ..self
            },
        }
    }

    /// The word with these fields.
    pub fn word(self) -> u64
        requires { self.c < 16 }
        ensures value { result ≡ packed self }
        ensures fit { FitInWord self }
    {
        u64::from(self.operation) << 56
            | u64::from(self.rd.number()) << 52
            | u64::from(self.ra.number()) << 48
            | u64::from(self.rb.number()) << 44
            | u64::from(self.c) << 40
            | u64::from(self.imm.cast_unsigned())
    }
}

/// The fields of an instruction, made from its row.
impl Visitor for Fields {
    ghost begun = { λ f name code. record f { operation = code } };

    ghost given = { put };

    fn operation(self, _name: &'static str, code: u8) -> Fields {
        Fields {
            operation: code,
            ..self
        }
    }

    fn operand(self, operand: Operand) -> Fields {
        self.put(operand)
    }
}
