//! The end of assembling: labels become addresses and offsets, and the image is written.

ghost use Rattle.std.specs.Prelude.{◌≡◌, ◌+◌, ◌*◌, ◌<◌, ◌≤◌, false, ◌++◌, length, None, IsTrue, IfSome, IfNone, IfOk, IsOkAnd, OnOk};
ghost use Rattle.guest_model.specs.Image.{image};
ghost use Rattle.guest_model.specs.ImageFault.{Entry};
ghost use Rattle.rv32_asm.specs.Assembly.{size};
ghost use Rattle.rv32_asm.specs.Encoding.{IsInRange};
ghost use Rattle.rv32_asm.specs.Resolved.{code_address, label_address, offset, is_far, instr_of, words, unbound_label, lesser, label_of, unbound_in, WritesCode, AllRead, Finishes, HoldsProgram};
ghost use Rattle.rv32_asm.specs.SmallImage.{word_bytes};

use crate::builder::Assembler;
use crate::constant::{lower_part, upper_part};
use crate::fault::AsmFault;
use crate::image::{BASE, begin_image};
use crate::parts::{Binding, Item};
use crate::range::{is_branch_offset, is_jump_offset};
use crate::words::encode;
use guest_model::{Bytes, ImmOp, Instr, UpperOp};

/// Where the instruction at a place stands.
fn code_address(index: usize) -> u32
    requires { index ≤ 4194304 }
    ensures { result ≡ code_address index }
{
    BASE + 4 * index as u32
}

/// The lesser of two numbers that may be absent.
fn lesser(a: Option<u32>, b: Option<u32>) -> Option<u32>
    ensures { result ≡ lesser a b }
{
    match (a, b) {
        (Some(x), Some(y)) => Some(x.min(y)),
        (Some(x), None) => Some(x),
        (None, y) => y,
    }
}

impl Item {
    /// The label that it uses.
    fn label(self) -> Option<u32>
        ensures { result ≡ label_of self }
    {
        match self {
            Item::Given(_) => None,
            Item::BranchTo { to, .. } | Item::JumpTo { to, .. } => Some(to),
            Item::UpperOf { of, .. } | Item::LowerOf { of, .. } => Some(of),
        }
    }
}

impl Assembler {
    /// Where a label stands.
    fn label_address(&self, label: u32) -> u32
        requires { label < length self.now.labels }
        ensures value { result ≡ label_address self.now label }
        ensures bound { result ≤ 65536 + 16777216 }
    {
        match self.labels[label as usize] {
            Binding::Unbound => BASE,
            Binding::Code(index) => code_address(index as usize),
            Binding::Placed(index) => code_address(self.items.len()) + index,
        }
    }

    /// How far a label is from the instruction at a place.
    fn offset(&self, index: usize, label: u32) -> i32
        requires place { index < length self.now.items }
        requires label { label < length self.now.labels }
        ensures { result ≡ offset self.now index label }
    {
        let _items = &self.items;
        self.label_address(label) as i32 - code_address(index) as i32
    }

    /// The instruction at a place, none where no offset of its format leads to its label.
    fn resolve(&self, index: usize) -> Option<Instr>
        requires { index < length self.now.items }
        ensures found { IfSome result (λ i. (is_far self.now index ≡ false) × (i ≡ instr_of self.now index)) }
        ensures range { IfSome result IsInRange }
        ensures far { IfNone result (IsTrue (is_far self.now index)) }
    {
        match self.items[index] {
            Item::Given(instr) => Some(instr),
            Item::BranchTo { cond, rs1, rs2, to } => {
                let offset = self.offset(index, to);
                if !is_branch_offset(offset) {
                    return None;
                }
                Some(Instr::Branch {
                    cond,
                    rs1,
                    rs2,
                    offset,
                })
            }
            Item::JumpTo { rd, to } => {
                let offset = self.offset(index, to);
                if !is_jump_offset(offset) {
                    return None;
                }
                Some(Instr::Jal { rd, offset })
            }
            Item::UpperOf { rd, of } => Some(Instr::Upper {
                op: UpperOp::Lui,
                rd,
                imm: upper_part(self.label_address(of)),
            }),
            Item::LowerOf { rd, of } => Some(Instr::OpImm {
                op: ImmOp::Add,
                rd,
                rs1: rd,
                imm: lower_part(self.label_address(of)),
            }),
        }
    }

    /// The label of an item where it isn't bound.
    fn unbound_in(&self, item: Item) -> Option<u32>
        requires { IfSome (label_of item) (λ label. label < length self.now.labels) }
        ensures { result ≡ unbound_in self.now item }
    {
        let label = item.label()?;
        match self.labels[label as usize] {
            Binding::Unbound => Some(label),
            _ => None,
        }
    }

    /// The least label that is used and isn't bound.
    fn unbound_label(&self) -> Option<u32>
        ensures { result ≡ unbound_label self.now }
    {
        let mut least = None;
        for item in &self.items {
            least = lesser(least, self.unbound_in(*item));
        }
        least
    }

    /// Adds the words of all instructions.
    fn write_code(&self, bytes: &mut Vec<u8>) -> Result<(), AsmFault>
        ensures answer { WritesCode self.now bytes.old.items bytes.new.items result }
        ensures read { OnOk result (AllRead self.now) }
    {
        for index in 0..self.items.len() {
            let Some(instr) = self.resolve(index) else {
                return Err(AsmFault::Far(code_address(index)));
            };
            bytes.extend_from_slice(&encode(instr).to_le_bytes())?;
        }
        Ok(())
    }

    /// The image of the program, or the first fault.
    fn link(&self) -> Result<Bytes, AsmFault>
        ensures answer { Finishes self.now result }
        ensures read { OnOk result (AllRead self.now) }
        ensures small { OnOk result (size self.now ≤ 16777216) }
    {
        if let Some(label) = self.unbound_label() {
            return Err(AsmFault::Unbound(label));
        }
        let size = 4 * self.items.len() + self.placed.len();
        let mut bytes = begin_image(*self.items.allocator(), size as u32)?;
        self.write_code(&mut bytes)?;
        bytes.extend_from_slice(&self.placed)?;
        Ok(Bytes::from_vec(bytes))
    }

    /// The image of the program: an ELF32 file for RISC-V with one segment, which puts the instructions at 0x10000,
    /// where the program starts, and the placed bytes behind them. The assembler stays as it is.
    ///
    /// # Errors
    /// `Unbound` with the least label that is used and isn't bound; else `Far` with the least address from which no
    /// offset leads to the label of the branch or jump there; `NoMemory` where there is no room for the image.
    pub fn finish(&mut self) -> Result<Bytes, AsmFault>
        ensures answer { Finishes self.old result }
        ensures loads { IfOk result (λ b. 0 < size self.old → IsOkAnd (image b) (HoldsProgram self.old)) }
        ensures empty { IfOk result (λ b. size self.old ≡ 0 → image b ≡ Err Entry) }
        ensures kept { self.new ≡ self.old }
    {
        self.link()
    }
}
