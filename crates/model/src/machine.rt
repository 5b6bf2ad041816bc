// The machine: its instructions and its state.
use crate::limits::REGISTERS;
// How many bytes an access takes.
#[derive(Clone, Copy)]
pub enum Width {
    One,
    Two,
    Four,
}

// The table that an access names.
#[derive(Clone, Copy)]
pub enum Table {
    Trays,
    Results,
}

// The second operand of an instruction.
#[derive(Clone, Copy)]
pub enum Operand {
    Variable(usize),
    Number(u32),
}

// An access: so many bytes of a table, from a * i + k on.
#[derive(Clone, Copy)]
pub struct Access {
    pub table: Table,
    pub w: Width,
    pub a: usize,
    pub i: usize,
    pub k: usize,
}

// An instruction, a case for each word.
#[derive(Clone, Copy)]
pub enum Instruction {
    Stop,
    Setc {
        d: usize,
        c: u32,
    },
    Copy {
        d: usize,
        i: usize,
    },
    Addw {
        d: usize,
        i: usize,
        o: Operand,
    },
    Subw {
        d: usize,
        i: usize,
        o: Operand,
    },
    Mulw {
        d: usize,
        i: usize,
        o: Operand,
    },
    Divf {
        d: usize,
        i: usize,
        o: Operand,
    },
    Load {
        d: usize,
        w: Width,
        table: Table,
        a: usize,
        i: usize,
        k: usize,
    },
    Stor {
        v: usize,
        w: Width,
        a: usize,
        i: usize,
        k: usize,
    },
    Jump {
        t: usize,
    },
    Bltu {
        i: usize,
        t: usize,
        o: Operand,
    },
    Bequ {
        i: usize,
        t: usize,
        o: Operand,
    },
    Divm {
        q: usize,
        i: usize,
        r: usize,
        o: Operand,
    },
}

// A way on from a point: to the next point, or to the target that its instruction names.
#[derive(Clone, Copy)]
pub enum Edge {
    Next,
    Target(usize),
}

// A state: a point and the registers, laid out as C does, so that one can be lent across it.
#[repr(C)]
#[derive(Clone, Copy)]
pub struct State {
    pub point: usize,
    pub registers: [u32; REGISTERS],
}
