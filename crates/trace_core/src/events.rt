//! The entries of a trace, items and flushes, and the references of an item.
ghost use Rattle.std.specs.Prelude.{◌≡◌};
ghost use Rattle.trace_core.specs.Events.{references, is_kept};

/// The operation of an item on its address. The first three are in the order of din's labels, so
/// that no table is needed for these.
#[derive(Clone, Copy, Debug, PartialEq, Eq)]
pub enum Op {
    Load,
    Store,
    /// An instruction is fetched.
    Fetch,
    /// A load and then a store of the same address.
    Modify,
}

/// One item of a trace.
#[derive(Clone, Copy, Debug, PartialEq, Eq)]
pub struct Item {
    pub op: Op,
    /// The address of its first byte.
    pub addr: u64,
    /// How many bytes it touches; 0 in a din trace, which doesn't say.
    pub size: u32,
}

/// The meaning of a line that isn't skipped.
#[derive(Clone, Copy, Debug, PartialEq, Eq)]
pub enum Entry {
    Item(Item),
    /// All caches are emptied.
    Flush,
}

/// How a cache is accessed.
#[derive(Clone, Copy, Debug, PartialEq, Eq)]
pub enum Access {
    Fetch,
    Read,
    Write,
}

/// One access to one address.
#[derive(Clone, Copy, Debug, PartialEq, Eq)]
pub struct Ref {
    pub access: Access,
    pub addr: u64,
}

/// A step of a cache: a reference or a flush.
#[derive(Clone, Copy, Debug, PartialEq, Eq)]
pub enum Event {
    Reference(Ref),
    Flush,
}

/// Which references are kept. A flush is always kept.
#[derive(Clone, Copy, Debug, PartialEq, Eq)]
pub enum Kind {
    All,
    /// Reads and writes.
    DataOnly,
    FetchOnly,
}

impl Kind {
    /// Whether references of this access are kept.
    #[inline(always)]
    pub fn keeps(self, access: Access) -> bool
        ensures { result ≡ is_kept self access }
    {
        match self {
            Kind::All => true,
            Kind::DataOnly => !matches!(access, Access::Fetch),
            Kind::FetchOnly => matches!(access, Access::Fetch),
        }
    }
}

/// The accesses of the first references, in the order of the operations. A table, since the
/// operations of a trace come in no order that a processor predicts.
static FIRST_ACCESSES: [Access; 4] = [Access::Read, Access::Write, Access::Fetch, Access::Read];

/// The references of an item: a modify reads and then writes.
#[inline(always)]
pub fn refs_of(item: Item) -> (Ref, Option<Ref>)
    ensures { result ≡ references item }
{
    let addr = item.addr;
    let at = |access| Ref { access, addr };
    let first = at(FIRST_ACCESSES[item.op as usize]);
    match item.op {
        Op::Modify => (first, Some(at(Access::Write))),
        _ => (first, None),
    }
}
