//! Seven pairs in Sanger's encoding. Each record has 18 bytes.

use crate::written::Written;

/// The forward reads of the seven pairs. In every second read the first two scores are 2; all
/// others are 40.
pub const SEVEN_FORWARD: &[u8] =
    b"@n1/1\nACGT\n+\nIIII\n@n2/1\nACGT\n+\n##II\n@n3/1\nACGT\n+\nIIII\n@n4/1\nACGT\n+\n##II\n@n5/1\nACGT\n+\nIIII\n@n6/1\nACGT\n+\n##II\n@n7/1\nACGT\n+\nIIII\n";

/// The reverse reads of the seven pairs. In the third and the sixth all scores are 0. In the others
/// they are 40, 40, 2 and 2.
pub const SEVEN_REVERSE: &[u8] =
    b"@n1/2\nTTTT\n+\nII##\n@n2/2\nTTTT\n+\nII##\n@n3/2\nTTTT\n+\n!!!!\n@n4/2\nTTTT\n+\nII##\n@n5/2\nTTTT\n+\nII##\n@n6/2\nTTTT\n+\n!!!!\n@n7/2\nTTTT\n+\nII##\n";

/// The forward reads of the first six pairs.
pub const SIX_FORWARD: &[u8] =
    b"@n1/1\nACGT\n+\nIIII\n@n2/1\nACGT\n+\n##II\n@n3/1\nACGT\n+\nIIII\n@n4/1\nACGT\n+\n##II\n@n5/1\nACGT\n+\nIIII\n@n6/1\nACGT\n+\n##II\n";

/// The reverse reads of the first five pairs.
pub const FIVE_REVERSE: &[u8] =
    b"@n1/2\nTTTT\n+\nII##\n@n2/2\nTTTT\n+\nII##\n@n3/2\nTTTT\n+\n!!!!\n@n4/2\nTTTT\n+\nII##\n@n5/2\nTTTT\n+\nII##\n";

/// The first eleven records of the seven pairs, interleaved: the reverse read of the sixth pair is
/// missing.
pub const ELEVEN_INTERLEAVED: &[u8] =
    b"@n1/1\nACGT\n+\nIIII\n@n1/2\nTTTT\n+\nII##\n@n2/1\nACGT\n+\n##II\n@n2/2\nTTTT\n+\nII##\n@n3/1\nACGT\n+\nIIII\n@n3/2\nTTTT\n+\n!!!!\n@n4/1\nACGT\n+\n##II\n@n4/2\nTTTT\n+\nII##\n@n5/1\nACGT\n+\nIIII\n@n5/2\nTTTT\n+\nII##\n@n6/1\nACGT\n+\n##II\n";

/// The steps that trim the seven pairs: pairs 3 and 6 lose their reverse reads.
pub const SEVEN_STEPS: &[&str] = &["LEADING:3", "TRAILING:3", "MINLEN:2"];

/// What is written of the seven pairs.
pub const SEVEN_WRITTEN: Written = Written {
    forward_paired: b"@n1/1\nACGT\n+\nIIII\n@n2/1\nGT\n+\nII\n@n4/1\nGT\n+\nII\n@n5/1\nACGT\n+\nIIII\n@n7/1\nACGT\n+\nIIII\n",
    forward_unpaired: b"@n3/1\nACGT\n+\nIIII\n@n6/1\nGT\n+\nII\n",
    reverse_paired: b"@n1/2\nTT\n+\nII\n@n2/2\nTT\n+\nII\n@n4/2\nTT\n+\nII\n@n5/2\nTT\n+\nII\n@n7/2\nTT\n+\nII\n",
    reverse_unpaired: b"",
    log: b"n1 4 0 4 0\nn1 2 0 2 2\nn2 2 2 4 0\nn2 2 0 2 2\nn3 4 0 4 0\nn3 0 0 0 0\nn4 2 2 4 0\nn4 2 0 2 2\nn5 4 0 4 0\nn5 2 0 2 2\nn6 2 2 4 0\nn6 0 0 0 0\nn7 4 0 4 0\nn7 2 0 2 2\n",
};

/// What is written of the first five pairs.
pub const FIVE_WRITTEN: Written = Written {
    forward_paired: b"@n1/1\nACGT\n+\nIIII\n@n2/1\nGT\n+\nII\n@n4/1\nGT\n+\nII\n@n5/1\nACGT\n+\nIIII\n",
    forward_unpaired: b"@n3/1\nACGT\n+\nIIII\n",
    reverse_paired: b"@n1/2\nTT\n+\nII\n@n2/2\nTT\n+\nII\n@n4/2\nTT\n+\nII\n@n5/2\nTT\n+\nII\n",
    reverse_unpaired: b"",
    log: b"n1 4 0 4 0\nn1 2 0 2 2\nn2 2 2 4 0\nn2 2 0 2 2\nn3 4 0 4 0\nn3 0 0 0 0\nn4 2 2 4 0\nn4 2 0 2 2\nn5 4 0 4 0\nn5 2 0 2 2\n",
};
