//! The references of a program, such as a compiler or an interpreter makes them: functions of
//! unequal popularity, most of whose instructions follow one another, and between them loads and
//! stores of a stack, of objects on a heap, of global data and of arrays from end to end. What is
//! popular changes slowly.
ghost use Rattle.std.specs.Prelude.{◌≤◌};

use crate::randomness::{Random, mixed};
use crate::text::{Action, TraceText};
use std::alloc::AllocError;

/// An odd number that spreads the address of an instruction over all bits.
const SPREAD: u64 = 0x9e37_79b9_7f4a_7c15;

/// After so many references a few functions and objects have taken the place of others.
const PHASE: u64 = 20_000;

/// Which of some numbered things is used, of which some are near and used often, more are less
/// near, and most are far.
#[derive(Clone, Copy, Debug)]
struct Popularity {
    /// Of 256 uses so many are of the near ones.
    near_share: u64,
    near: u64,
    /// Of 256 uses so many are of the near or of the less near ones.
    middle_share: u64,
    middle: u64,
    far: u64,
    /// By how many numbers all of them move in a phase.
    step: u64,
}

const FUNCTIONS: Popularity = Popularity {
    near_share: 134,
    near: 4,
    middle_share: 235,
    middle: 60,
    far: 224,
    step: 2,
};

const OBJECTS: Popularity = Popularity {
    near_share: 40,
    near: 11,
    middle_share: 184,
    middle: 39,
    far: 536,
    step: 8,
};

impl Popularity {
    /// A thing in a phase, chosen by the low 24 bits of a number.
    fn choose(self, number: u64, phase: u64) -> u64 {
        let share = number & 0xff;
        let count = if share < self.near_share {
            self.near
        } else if share < self.middle_share {
            self.middle
        } else {
            self.far
        };
        let place = ((number >> 8) & 0xffff).wrapping_mul(count) >> 16;
        place.wrapping_add(phase.wrapping_mul(self.step))
    }
}

/// Where the data of a visit lies.
#[derive(Clone, Copy, Debug)]
enum Data {
    /// Within some bytes from here on.
    Near(u64),
    /// On and on through an array.
    Array,
}

/// A visit of a function: some instructions, which may be a loop, and their data.
#[derive(Clone, Copy, Debug)]
struct Visit {
    /// The address of the first instruction.
    code: u64,
    /// How many instructions there are.
    length: u64,
    /// How often they are executed.
    rounds: u64,
    data: Data,
    /// The frame of the function on the stack.
    frame: u64,
    /// Of 256 instructions so many have data.
    density: u64,
}

/// A program that runs.
#[derive(Clone, Copy, Debug)]
pub struct Program {
    /// What makes its functions and objects other than those of other programs.
    key: u64,
    code: u64,
    heap: u64,
    globals: u64,
    stack: u64,
    /// How far it came in the array.
    array: u64,
    /// How many calls deep it is.
    depth: u64,
}

impl Program {
    /// A program that begins.
    pub fn new(random: &mut Random) -> Program {
        let key = random.next();
        let heap = 0x0420_0000 + (key & 0xff) * 0x1000;
        Program {
            key,
            code: 0x0040_0000 + ((key >> 8) & 0xf) * 0x1_0000,
            heap,
            globals: 0x006a_0000,
            stack: 0x1f_feff_e000,
            array: heap + 0x10_0000,
            depth: 4,
        }
    }

    /// Fills the text with references.
    pub fn run(&mut self, text: &mut TraceText, random: &mut Random) -> Result<(), AllocError> {
        for _ in 0..text.lines() {
            if text.is_full() {
                break;
            }
            let visit = self.choose_visit(random, text.written() / PHASE);
            self.make_visit(&visit, text)?;
        }
        Ok(())
    }

    /// Chooses what is visited next.
    fn choose_visit(&mut self, random: &mut Random, phase: u64) -> Visit {
        let first = random.next();
        let second = random.next();
        let function = FUNCTIONS.choose(first, phase);
        let hash = mixed(function.wrapping_add(self.key));
        self.call_or_return((first >> 31) & 1 == 1);
        let frame = self.stack.wrapping_sub(self.depth.wrapping_mul(48));
        let start = function
            .wrapping_mul(0x100)
            .wrapping_add((hash >> 4) & 0x1_ffff);
        Visit {
            code: self
                .code
                .wrapping_add(start)
                .wrapping_add((first >> 24) & 0x3f),
            length: 4 + ((first >> 32) & 0xff) % 10,
            rounds: rounds_of(first >> 40),
            data: self.choose_data(second, phase, frame),
            frame,
            density: if (second >> 40) & 1 == 1 { 151 } else { 34 },
        }
    }

    /// Goes a call deeper, or back.
    fn call_or_return(&mut self, is_call: bool) {
        if is_call {
            if self.depth < 40 {
                self.depth += 1;
            }
        } else if self.depth > 1 {
            self.depth -= 1;
        }
    }

    /// Chooses the data of a visit by a number.
    fn choose_data(&self, number: u64, phase: u64, frame: u64) -> Data {
        let object = OBJECTS.choose(number, phase);
        let hash = mixed(object.wrapping_add(self.key >> 1));
        match (number >> 24) & 0xff {
            0..106 => Data::Near(frame),
            106..177 => {
                let place = object.wrapping_mul(0x200).wrapping_add(hash & 0x7_fff0);
                Data::Near(self.heap.wrapping_add(place))
            }
            177..229 => Data::Near(self.globals.wrapping_add(hash & 0x3ff8)),
            _ => Data::Array,
        }
    }

    /// Writes the references of a visit.
    fn make_visit(&mut self, visit: &Visit, text: &mut TraceText) -> Result<(), AllocError> {
        for _ in 0..visit.rounds {
            let mut code = visit.code;
            for _ in 0..visit.length {
                let hash = code.wrapping_mul(SPREAD) >> 32;
                let size = 2 + ((hash >> 28) & 3) + ((hash >> 30) & 1);
                text.add(Action::Fetch, code, size as u8)?;
                if hash & 0xff < visit.density {
                    self.make_data(visit, hash, text)?;
                }
                code = code.wrapping_add(size);
            }
        }
        Ok(())
    }

    /// Writes the data of an instruction, by a number that goes with it.
    fn make_data(
        &mut self,
        visit: &Visit,
        hash: u64,
        text: &mut TraceText,
    ) -> Result<(), AllocError> {
        let action = match (hash >> 8) & 0xff {
            0..20 => Action::Modify,
            20..98 => Action::Store,
            _ => Action::Load,
        };
        let address = self.place_data(visit, hash);
        let size = 1 << ((hash >> 26) & 3);
        text.add(action, address, size)?;
        if (hash >> 5) & 0x1f == 0 {
            text.add(action, address ^ 8, size)?;
        }
        Ok(())
    }

    /// Where the data of an instruction lies: some of it in the frame whatever the visit is for.
    fn place_data(&mut self, visit: &Visit, hash: u64) -> u64 {
        let offset = (hash >> 24) & 0x18;
        if (hash >> 16) & 0xff < 40 {
            return visit.frame.wrapping_add(offset);
        }
        match visit.data {
            Data::Near(place) => place.wrapping_add(offset),
            Data::Array => self.next_of_array(),
        }
    }

    /// The next place in the array. At the end of each 64 KiB it goes over the last 8 again.
    fn next_of_array(&mut self) -> u64 {
        let place = self.array;
        let next = place.wrapping_add(8);
        self.array = if next & 0xffff == 0 {
            next.wrapping_sub(0x2000)
        } else {
            next
        };
        place
    }
}

/// How often the instructions of a visit are executed: mostly once, and else as a loop.
fn rounds_of(number: u64) -> u64
    ensures some { 1 ≤ result }
    ensures few { result ≤ 13 }
{
    if number & 63 == 0 {
        2 + ((number >> 6) & 0x7f) % 12
    } else {
        1
    }
}
