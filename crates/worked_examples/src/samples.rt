//! References and texts of several tests.
use trace_core::{Access, Ref};

pub fn fetch(addr: u64) -> Ref {
    let access = Access::Fetch;
    Ref { access, addr }
}

pub fn read(addr: u64) -> Ref {
    let access = Access::Read;
    Ref { access, addr }
}

pub fn write(addr: u64) -> Ref {
    let access = Access::Write;
    Ref { access, addr }
}

/// A din text of nine lines and 47 bytes.
pub const NINE: &[u8] = b"0 10\n0 20\n1 20\n0 22\n1 18\n0 110\n0 210\n0 12\n1 12\n";

/// Its references.
pub fn nine_references() -> [Ref; 9] {
    [
        read(0x10),
        read(0x20),
        write(0x20),
        read(0x22),
        write(0x18),
        read(0x110),
        read(0x210),
        read(0x12),
        write(0x12),
    ]
}

/// A log of Valgrind's lackey of seven lines: a fetch, a store and a modify among messages.
pub const LACKEY: &[u8] =
    b"==1234== Lackey, an example Valgrind tool\nI  0023C790,2\n S BE80199C,4\n\n\
    --1234-- note\n M 0025747C,1\n*end\n";
