//! The code and the numbers of an operation, as journal slots and session records spell them, and the way back.
ghost use Rattle.std.specs.Prelude.{◌≡◌};
ghost use Rattle.im_types.specs.{Agreement.address_of, Bytes.op_code, Bytes.op_value, Slot.op_of};

use crate::{Kind, Op};

/// Returns the code of an operation: 1 to 7, or 9. The code 8 is a confirmation's.
pub fn op_code(op: Op) -> u8
    ensures { result ≡ op_code op }
{
    match op {
        Op::Alloc(Kind::I, _) => 1,
        Op::Alloc(Kind::M, _) => 2,
        Op::Release(_) => 3,
        Op::Fetch(_) => 4,
        Op::Store(_, _) => 5,
        Op::Take(_) => 6,
        Op::Put(_, _) => 7,
        Op::Reset(_) => 9,
    }
}

/// Returns the address of an operation, or the length of an allocation.
pub fn address_of(op: Op) -> u32
    ensures { result ≡ address_of op }
{
    match op {
        Op::Alloc(_, n) => n,
        Op::Release(a)
        | Op::Reset(a)
        | Op::Fetch(a)
        | Op::Store(a, _)
        | Op::Take(a)
        | Op::Put(a, _) => a,
    }
}

/// Returns the value that an operation writes, or 0 if it writes none.
pub fn op_value(op: Op) -> u64
    ensures { result ≡ op_value op }
{
    match op {
        Op::Store(_, v) | Op::Put(_, v) => v,
        Op::Alloc(_, _) | Op::Release(_) | Op::Reset(_) | Op::Fetch(_) | Op::Take(_) => 0,
    }
}

/// Returns the operation that a code, an address and a value stand for, or `None` if no operation has this code.
pub fn op_of(code: u8, address: u32, value: u64) -> Option<Op>
    ensures { result ≡ op_of code address value }
{
    match code {
        1 => Some(Op::Alloc(Kind::I, address)),
        2 => Some(Op::Alloc(Kind::M, address)),
        3 => Some(Op::Release(address)),
        4 => Some(Op::Fetch(address)),
        5 => Some(Op::Store(address, value)),
        6 => Some(Op::Take(address)),
        7 => Some(Op::Put(address, value)),
        9 => Some(Op::Reset(address)),
        _ => None,
    }
}
