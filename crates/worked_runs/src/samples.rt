//! Texts of several tests.

/// A din text of nine lines and 47 bytes.
pub const NINE: &[u8] = b"0 10\n0 20\n1 20\n0 22\n1 18\n0 110\n0 210\n0 12\n1 12\n";

/// The table of them over one and two sets of up to two lines.
pub const TABLE: &[u8] = b"bsize,sets,assoc,size,hits,misses,evictions\n\
    16,1,1,16,3,6,5\n16,1,2,32,4,5,3\n16,2,1,32,4,5,3\n16,2,2,64,4,5,2\n";

/// The trace of the cache lab's handout.
pub const HANDOUT: &[u8] = b" L 10,1\n M 20,1\n L 22,1\n S 18,1\n L 110,1\n L 210,1\n M 12,1\n";

/// The output of `csim -v -s 4 -E 1 -b 4` for it, by the handout: 147 bytes.
pub const HANDOUT_TEXT: &[u8] = b"L 10,1 miss\nM 20,1 miss hit\nL 22,1 hit\nS 18,1 hit\n\
    L 110,1 miss eviction\nL 210,1 miss eviction\nM 12,1 miss eviction hit\n\
    hits:4 misses:5 evictions:3\n";
