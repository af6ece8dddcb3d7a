//! What each of the seven pairs adds to the outputs, and how many of these pairs, from the first
//! on, a run has written.

use fq_pair::{Counts, Out};
use fq_text::{Outlet, ScriptOutlet};
use std::cmp::Ordering;

/// What each pair adds to each output.
const ADDED: [[&[u8]; 5]; 7] = [
    [
        b"@n1/1\nACGT\n+\nIIII\n",
        b"",
        b"@n1/2\nTT\n+\nII\n",
        b"",
        b"n1 4 0 4 0\nn1 2 0 2 2\n",
    ],
    [
        b"@n2/1\nGT\n+\nII\n",
        b"",
        b"@n2/2\nTT\n+\nII\n",
        b"",
        b"n2 2 2 4 0\nn2 2 0 2 2\n",
    ],
    [
        b"",
        b"@n3/1\nACGT\n+\nIIII\n",
        b"",
        b"",
        b"n3 4 0 4 0\nn3 0 0 0 0\n",
    ],
    [
        b"@n4/1\nGT\n+\nII\n",
        b"",
        b"@n4/2\nTT\n+\nII\n",
        b"",
        b"n4 2 2 4 0\nn4 2 0 2 2\n",
    ],
    [
        b"@n5/1\nACGT\n+\nIIII\n",
        b"",
        b"@n5/2\nTT\n+\nII\n",
        b"",
        b"n5 4 0 4 0\nn5 2 0 2 2\n",
    ],
    [
        b"",
        b"@n6/1\nGT\n+\nII\n",
        b"",
        b"",
        b"n6 2 2 4 0\nn6 0 0 0 0\n",
    ],
    [
        b"@n7/1\nACGT\n+\nIIII\n",
        b"",
        b"@n7/2\nTT\n+\nII\n",
        b"",
        b"n7 4 0 4 0\nn7 2 0 2 2\n",
    ],
];

/// For the first 0 to 7 pairs: in how many of them both mates survive, and in how many only the
/// forward mate.
const SURVIVORS: [(u64, u64); 8] = [
    (0, 0),
    (1, 0),
    (2, 0),
    (2, 1),
    (3, 1),
    (4, 1),
    (4, 2),
    (5, 2),
];

/// What a run left in its outputs.
#[derive(Clone, Copy, Debug, PartialEq, Eq)]
pub struct Front {
    /// How many pairs are written completely and counted.
    pub pairs: usize,
    /// The output whose write failed, if one did.
    pub failed: Option<Out>,
}

/// How many of the seven pairs, from the first on, a run has written to its outlets, which are in
/// the order of [`Out::ALL`]. An error says what is wrong with its outputs or counts.
///
/// The outputs must be the texts of the first pairs, and the counts must be theirs. If a write
/// failed, it must be the only one, and the run may have begun further pairs, at most those of one
/// block. Then the outputs before the one that failed also have the texts of these pairs, and the
/// one that failed has an incomplete part of its text.
pub fn front_in_order(
    outlets: [&ScriptOutlet; 5],
    counts: Counts,
    block_pairs: usize,
) -> Result<Front, &'static str> {
    let pairs = counted(counts).ok_or("the counts are not those of the first pairs")?;
    let mut failed = None;
    for (place, outlet) in outlets.iter().enumerate() {
        match outlet.failures() {
            0 => {}
            1 if failed.is_none() => failed = Some(place),
            _ => return Err("more than one write failed"),
        }
    }
    let texts = outlets.map(|outlet| outlet.bytes());
    match failed {
        None if are_whole(texts, pairs) => Ok(Front {
            pairs,
            failed: None,
        }),
        None => Err("the texts are not those of the pairs that are counted"),
        Some(place) if break_off(texts, place, pairs, block_pairs) => Ok(Front {
            pairs,
            failed: Out::ALL.get(place).copied(),
        }),
        Some(_) => Err("the texts do not break off in the output of which a write failed"),
    }
}

// The number of pairs that these counts belong to.
fn counted(counts: Counts) -> Option<usize> {
    let pairs = usize::try_from(counts.pairs).ok()?;
    let (both, forward_only) = *SURVIVORS.get(pairs)?;
    let wanted = Counts {
        pairs: counts.pairs,
        both,
        forward_only,
        reverse_only: 0,
        dropped: 0,
    };
    (counts == wanted).then_some(pairs)
}

// Whether these are the texts of the first `pairs` pairs.
fn are_whole(texts: [&[u8]; 5], pairs: usize) -> bool {
    texts
        .iter()
        .enumerate()
        .all(|(place, text)| is_whole(text, place, pairs))
}

// Whether these texts have the first `pairs` pairs, and further ones, at most those of one block,
// up to a byte within the output that failed.
fn break_off(texts: [&[u8]; 5], failed: usize, pairs: usize, block_pairs: usize) -> bool {
    (1..=block_pairs).any(|more| {
        let begun = pairs.saturating_add(more);
        begun <= ADDED.len()
            && texts.iter().enumerate().all(|(place, text)| match place.cmp(&failed) {
                Ordering::Less => is_whole(text, place, begun),
                Ordering::Equal => breaks_off(text, place, pairs, begun),
                Ordering::Greater => is_whole(text, place, pairs),
            })
    })
}

// Whether this is the text of the first `pairs` pairs in the output at index `place`.
fn is_whole(text: &[u8], place: usize, pairs: usize) -> bool {
    matches!(behind(text, place, pairs), Some(rest) if rest.is_empty())
}

// Whether this text has the first `pairs` pairs, and after them an incomplete part of what the
// pairs up to `begun` add.
fn breaks_off(text: &[u8], place: usize, pairs: usize, begun: usize) -> bool {
    let Some(mut rest) = behind(text, place, pairs) else {
        return false;
    };
    for outputs in ADDED.iter().take(begun).skip(pairs) {
        let Some(added) = outputs.get(place) else {
            return false;
        };
        match rest.strip_prefix(added) {
            Some(further) => rest = further,
            None => return added.starts_with(rest),
        }
    }
    false
}

// The rest of this text after what the first `pairs` pairs add to the output at index `place`.
fn behind<'a>(text: &'a [u8], place: usize, pairs: usize) -> Option<&'a [u8]> {
    let mut rest = text;
    for outputs in ADDED.iter().take(pairs) {
        rest = rest.strip_prefix(outputs.get(place)?)?;
    }
    Some(rest)
}
