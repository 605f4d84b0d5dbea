//! pc and the registers x0 to x31.

use std::marker::Model;

/// a0: the first argument of a service, and its answer.
pub const A0: u8 = 10;

/// a1: the second argument of a service.
pub const A1: u8 = 11;

/// a2: the third argument of a service.
pub const A2: u8 = 12;

/// a7: the number of a service.
pub const A7: u8 = 17;

/// The registers of one hart. x0 is always 0.
#[derive(Debug, Clone, Copy, PartialEq, Eq)]
pub struct Regs {
    pc: u32,
    x: [u32; 32],
}

impl Model for Regs {
    ghost use Rattle.std.specs.Prelude.{◌≡◌, slice_index};
    ghost use Rattle.guest_model.specs.Registers.{RegFile};

    ghost Value = { RegFile };

    ghost view = { λ r. record { pc = r.pc; x = r.x } };

    ghost invariant = { λ r. slice_index r.x 0 ≡ 0 };

    ghost inverse = { λ f. record { pc = f.pc; x = f.x } };
}

impl Regs {
    ghost use Rattle.std.specs.Prelude.{◌≡◌, ◌<◌};
    ghost use Rattle.guest_model.specs.Registers.{start_regs, reg, with_reg, with_pc, IsRegFile};

    /// The registers where a program begins: pc is `entry`, sp is 0x7FFFFF00, all others are 0.
    pub fn start(entry: u32) -> Regs
        ensures { result ≡ start_regs entry }
    {
        let mut x = [0; 32];
        x[2] = 0x7FFF_FF00;
        Regs { pc: entry, x }
    }

    /// Register `r`, below 32.
    #[inline]
    pub fn get(&self, r: u8) -> u32
        requires { r < 32 }
        ensures value { result ≡ reg self.now r }
        ensures zero { IsRegFile self.now }
    {
        self.x[r as usize]
    }

    /// Sets register `r`, below 32, to `v`; a write to x0 is dropped.
    #[inline]
    pub fn set(&mut self, r: u8, v: u32)
        requires { r < 32 }
        ensures { self.new ≡ with_reg self.old r v }
    {
        if r != 0 {
            self.x[r as usize] = v;
        }
    }

    /// The address of the next instruction.
    #[inline]
    pub fn pc(&self) -> u32
        ensures value { result ≡ self.now.pc }
        ensures zero { IsRegFile self.now }
    {
        self.pc
    }

    /// Sets the address of the next instruction.
    #[inline]
    pub fn set_pc(&mut self, v: u32)
        ensures { self.new ≡ with_pc self.old v }
    {
        self.pc = v;
    }
}
