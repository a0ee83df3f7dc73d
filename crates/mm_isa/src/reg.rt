//! The numbers of registers.

ghost use Rattle.std.specs.Prelude.{◌≡◌, ◌<◌, ◌≤◌, ◌%◌, min};
ghost use Rattle.std.specs.Option.{SomeIff};

use std::marker::Model;

/// The number of a general register, 0 to 15.
#[derive(Clone, Copy, PartialEq, Eq)]
pub struct Reg {
    number: u8,
}

impl Model for Reg {
    ghost use Rattle.std.specs.Prelude.{ℕ, ◌<◌};

    ghost Value = { ℕ };

    ghost view = { λ r. r.number };

    ghost invariant = { λ r. r.number < 16 };

    ghost inverse = { λ n. record { number = n } };
}

impl Reg {
    pub(crate) const ZERO: Reg = Reg { number: 0 };

    /// The register with this number; `None` if the number is above 15.
    pub fn new(n: u8) -> Option<Reg>
        ensures { SomeIff result (n < 16) n }
    {
        if n < 16 { Some(Reg::of(n)) } else { None }
    }

    /// The register with this number, for a caller that knows that there is one.
    pub fn of(n: u8) -> Reg
        requires { n < 16 }
        ensures { result ≡ n }
    {
        Reg { number: n }
    }

    /// The register's number.
    pub fn number(self) -> u8
        ensures value { result ≡ self }
        ensures small { result < 16 }
    {
        self.number
    }

    /// The register that the lowest four bits name.
    pub(crate) fn of_low_bits(bits: u64) -> Reg
        ensures { result ≡ bits % 16 }
    {
        Reg {
            number: (bits & 0xf) as u8,
        }
    }
}

/// The first of the four registers that an event fills: the number of a register that three more follow, 0 to 12.
#[derive(Clone, Copy, PartialEq, Eq)]
pub struct EvtReg {
    number: u8,
}

impl Model for EvtReg {
    ghost use Rattle.std.specs.Prelude.{ℕ, ◌≤◌};

    ghost Value = { ℕ };

    ghost view = { λ r. r.number };

    ghost invariant = { λ r. r.number ≤ 12 };

    ghost inverse = { λ n. record { number = n } };
}

impl EvtReg {
    /// The register with this number; `None` if the number is above 12.
    pub fn new(n: u8) -> Option<EvtReg>
        ensures { SomeIff result (n ≤ 12) n }
    {
        if n <= 12 {
            Some(EvtReg { number: n })
        } else {
            None
        }
    }

    /// The register's number.
    pub fn number(self) -> u8
        ensures value { result ≡ self }
        ensures small { result ≤ 12 }
    {
        self.number
    }

    /// The register with this number, or register 12 if the number is above 12.
    pub(crate) fn clamped(rd: Reg) -> EvtReg
        ensures { result ≡ min rd 12 }
    {
        EvtReg {
            number: rd.number().min(12),
        }
    }

    /// The register as a general one.
    pub(crate) fn reg(self) -> Reg
        ensures value { result ≡ self }
        ensures small { result ≤ 12 }
    {
        Reg {
            number: self.number,
        }
    }
}
