ghost use Rattle.std.specs.Prelude.{◌≡◌, ◌+◌, ◌<◌, [], ◌∷◌, All, IfOk, length};
ghost use Rattle.rv32_asm.specs.Assembly.{empty, size, with_items, with_label, with_placed, Grows, Binds, constant_items, address_items, open_items, close_items};
ghost use Rattle.rv32_asm.specs.Constant.{AddsUp};
ghost use Rattle.rv32_asm.specs.Encoding.{IsInRange};
ghost use Rattle.rv32_asm.specs.Sound.{ItemFits};

use crate::constant::lower_part;
use crate::fault::AsmFault;
use crate::image::SIZE_LIMIT;
use crate::mnemonics::{A0, A7, ZERO, addi, lui};
use crate::parts::{Binding, Item, Label};
use guest_model::{Cond, Instr};
use std::alloc::Global;
use std::marker::Model;

/// The most labels of one assembler.
const LABEL_LIMIT: usize = 16_777_216;

/// The call that begins a region, and the call that ends it.
const FAST_TRACK: i32 = 2000;

const END_DUAL_TRACK: i32 = 2001;

/// Assembles one program: instructions in order from 0x10000 on, and placed bytes behind all of them.
///
/// Labels may be used before they are bound. A program has at most 16 MiB and 16,777,216 labels.
#[derive(Debug, Drop)]
pub struct Assembler {
    pub(crate) items: Vec<Item>,
    pub(crate) labels: Vec<Binding>,
    pub(crate) placed: Vec<u8>,
}

impl Model for Assembler {
    ghost use Rattle.rv32_asm.specs.Assembly.{Assembly};
    ghost use Rattle.rv32_asm.specs.Sound.{IsSound};

    ghost Value = { Assembly };

    ghost view = { λ a. record { items = a.items.items; labels = a.labels.items; placed = a.placed.items } };

    ghost invariant = { λ a. IsSound (record { items = a.items.items; labels = a.labels.items; placed = a.placed.items }) };
}

impl Assembler {
    /// An empty program. Nothing is allocated.
    pub fn new(alloc: Global) -> Assembler
        ensures { result ≡ empty }
    {
        Assembler {
            items: Vec::new(alloc),
            labels: Vec::new(alloc),
            placed: Vec::new(alloc),
        }
    }

    /// Makes a label, which isn't bound yet.
    ///
    /// # Errors
    /// `TooLong` where there are 16,777,216 labels already, and `NoMemory`; the assembler is then unchanged.
    pub fn label(&mut self) -> Result<Label, AsmFault>
        ensures grows { Grows self.old (with_label self.old) self.new result }
        ensures number { IfOk result (λ label. label.0 ≡ length self.old.labels) }
    {
        let number = self.labels.len();
        if number == LABEL_LIMIT {
            return Err(AsmFault::TooLong);
        }
        self.labels.push(Binding::Unbound)?;
        Ok(Label(number as u32))
    }

    /// Binds a label of this assembler to the next instruction.
    ///
    /// # Errors
    /// `Twice` where it is bound already; nothing is changed then.
    pub fn bind(&mut self, label: Label) -> Result<(), AsmFault>
        requires { label.0 < length self.old.labels }
        ensures { Binds self.old label.0 self.new result }
    {
        let index = label.0 as usize;
        if !matches!(self.labels[index], Binding::Unbound) {
            return Err(AsmFault::Twice(label.0));
        }
        self.labels[index] = Binding::Code(self.items.len() as u32);
        Ok(())
    }

    /// How many more bytes there may be.
    fn room(&self) -> usize
        ensures { result + size self.now ≡ 16777216 }
    {
        SIZE_LIMIT - (4 * self.items.len() + self.placed.len())
    }

    /// Adds all these items or none.
    fn add(&mut self, items: &[Item]) -> Result<(), AsmFault>
        requires { All (ItemFits (length self.old.labels)) items.now }
        ensures { Grows self.old (with_items self.old items.now) self.new result }
    {
        if items.len() > self.room() / 4 {
            return Err(AsmFault::TooLong);
        }
        self.items.extend_from_slice(items)?;
        Ok(())
    }

    /// Emits one instruction.
    ///
    /// # Errors
    /// `TooLong` where the program would pass 16 MiB, and `NoMemory`; the assembler is then unchanged. So for each of
    /// the calls below.
    pub fn emit(&mut self, instr: Instr) -> Result<(), AsmFault>
        requires { IsInRange instr }
        ensures { Grows self.old (with_items self.old (Item.Given instr ∷ [])) self.new result }
    {
        self.add(&[Item::Given(instr)])
    }

    /// Emits a branch to a label.
    pub fn branch(&mut self, cond: Cond, rs1: u8, rs2: u8, to: Label) -> Result<(), AsmFault>
        requires registers { (rs1 < 32) × (rs2 < 32) }
        requires label { to.0 < length self.old.labels }
        ensures { Grows self.old (with_items self.old (Item.BranchTo cond rs1 rs2 to.0 ∷ [])) self.new result }
    {
        let to = to.0;
        self.add(&[Item::BranchTo { cond, rs1, rs2, to }])
    }

    /// Emits JAL to a label.
    pub fn jump(&mut self, rd: u8, to: Label) -> Result<(), AsmFault>
        requires register { rd < 32 }
        requires label { to.0 < length self.old.labels }
        ensures { Grows self.old (with_items self.old (Item.JumpTo rd to.0 ∷ [])) self.new result }
    {
        self.add(&[Item::JumpTo { rd, to: to.0 }])
    }

    /// Emits LUI and ADDI, always both, which put a number into a register.
    pub fn constant(&mut self, rd: u8, value: u32) -> Result<(), AsmFault>
        requires { rd < 32 }
        ensures grows { Grows self.old (with_items self.old (constant_items rd value)) self.new result }
        ensures adds_up { AddsUp value }
    {
        let lower = addi(rd, rd, lower_part(value));
        self.add(&[Item::Given(lui(rd, value)), Item::Given(lower)])
    }

    /// Emits LUI and ADDI, which put the address of a label into a register.
    pub fn address(&mut self, rd: u8, of: Label) -> Result<(), AsmFault>
        requires register { rd < 32 }
        requires label { of.0 < length self.old.labels }
        ensures { Grows self.old (with_items self.old (address_items rd of.0)) self.new result }
    {
        let of = of.0;
        self.add(&[Item::UpperOf { rd, of }, Item::LowerOf { rd, of }])
    }

    /// Emits the call that begins a region, and the branch to the region's fast version where it answers other than 0:
    /// ADDI a7, x0, 2000; ECALL; BNE a0, x0.
    pub fn open_region(&mut self, fast: Label) -> Result<(), AsmFault>
        requires { fast.0 < length self.old.labels }
        ensures { Grows self.old (with_items self.old (open_items fast.0)) self.new result }
    {
        let branch = Item::BranchTo {
            cond: Cond::Ne,
            rs1: A0,
            rs2: ZERO,
            to: fast.0,
        };
        self.add(&[
            Item::Given(addi(A7, ZERO, FAST_TRACK)),
            Item::Given(Instr::Ecall),
            branch,
        ])
    }

    /// Emits the call that ends a region: ADDI a7, x0, 2001; ECALL.
    pub fn close_region(&mut self) -> Result<(), AsmFault>
        ensures { Grows self.old (with_items self.old close_items) self.new result }
    {
        self.add(&[
            Item::Given(addi(A7, ZERO, END_DUAL_TRACK)),
            Item::Given(Instr::Ecall),
        ])
    }

    /// Places bytes behind all instructions and behind the bytes placed before, and gives a label of the first of them.
    ///
    /// # Errors
    /// `TooLong` where the program would pass 16 MiB or 16,777,216 labels, and `NoMemory`; the assembler is then
    /// unchanged.
    pub fn place_bytes(&mut self, bytes: &[u8]) -> Result<Label, AsmFault>
        ensures grows { Grows self.old (with_placed self.old bytes.now) self.new result }
        ensures number { IfOk result (λ label. label.0 ≡ length self.old.labels) }
    {
        let number = self.labels.len();
        if number == LABEL_LIMIT || bytes.len() > self.room() {
            return Err(AsmFault::TooLong);
        }
        self.labels.push(Binding::Placed(self.placed.len() as u32))?;
        if self.placed.extend_from_slice(bytes).is_err() {
            self.labels.truncate(number);
            return Err(AsmFault::NoMemory);
        }
        Ok(Label(number as u32))
    }
}
