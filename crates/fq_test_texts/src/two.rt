//! The two pairs that the program's EXAMPLE command trims, and each of them alone. All scores are
//! in Sanger's encoding.

use crate::written::Written;

/// The forward read of the first pair: scores 2, 0, 40 and 40.
pub const FIRST_FORWARD: &[u8] = b"@p1/1\nACGT\n+\n#!II\n";

/// The reverse read of the first pair, whose scores are all 40.
pub const FIRST_REVERSE: &[u8] = b"@p1/2\nTTTT\n+\nIIII\n";

/// The forward read of the second pair, whose scores are all 40.
pub const SECOND_FORWARD: &[u8] = b"@p2/1\nGGCC\n+\nIIII\n";

/// The reverse read of the second pair: scores 0, 0, 0 and 1.
pub const SECOND_REVERSE: &[u8] = b"@p2/2\nAAAA\n+\n!!!\"\n";

/// The forward reads of both pairs.
pub const TWO_FORWARD: &[u8] = b"@p1/1\nACGT\n+\n#!II\n@p2/1\nGGCC\n+\nIIII\n";

/// The reverse reads of both pairs.
pub const TWO_REVERSE: &[u8] = b"@p1/2\nTTTT\n+\nIIII\n@p2/2\nAAAA\n+\n!!!\"\n";

/// Both pairs, interleaved.
pub const TWO_INTERLEAVED: &[u8] =
    b"@p1/1\nACGT\n+\n#!II\n@p1/2\nTTTT\n+\nIIII\n@p2/1\nGGCC\n+\nIIII\n@p2/2\nAAAA\n+\n!!!\"\n";

/// The step that trims both pairs: the first pair loses two bases, and the second its reverse read.
pub const TWO_STEPS: &[&str] = &["LEADING:3"];

/// What is written of the first pair.
pub const FIRST_WRITTEN: Written = Written {
    forward_paired: b"@p1/1\nGT\n+\nII\n",
    forward_unpaired: b"",
    reverse_paired: b"@p1/2\nTTTT\n+\nIIII\n",
    reverse_unpaired: b"",
    log: b"p1 2 2 4 0\np1 4 0 4 0\n",
};

/// What is written of the second pair.
pub const SECOND_WRITTEN: Written = Written {
    forward_paired: b"",
    forward_unpaired: b"@p2/1\nGGCC\n+\nIIII\n",
    reverse_paired: b"",
    reverse_unpaired: b"",
    log: b"p2 4 0 4 0\np2 0 0 0 0\n",
};

/// What is written of both pairs.
pub const TWO_WRITTEN: Written = Written {
    forward_paired: b"@p1/1\nGT\n+\nII\n",
    forward_unpaired: b"@p2/1\nGGCC\n+\nIIII\n",
    reverse_paired: b"@p1/2\nTTTT\n+\nIIII\n",
    reverse_unpaired: b"",
    log: b"p1 2 2 4 0\np1 4 0 4 0\np2 4 0 4 0\np2 0 0 0 0\n",
};
