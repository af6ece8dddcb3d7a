//! The worked texts, compared with each other.

use fq_test_texts::*;
use fq_text::Encoding;
use std::process::Abort;
use std::test::Fail;

// The length of each record in bytes.
const RECORD: usize = 18;

// Checks that the third text has the records of the other two in turn.
fn assert_interleaved(rt: &impl Abort, forward: &[u8], reverse: &[u8], both: &[u8]) {
    let records = forward.chunks(RECORD).zip(reverse.chunks(RECORD));
    for (pair, (first, second)) in both.chunks(2 * RECORD).zip(records) {
        assert!(rt; pair.starts_with(first));
        assert!(rt; pair.ends_with(second) || pair.len() == RECORD);
    }
}

#[test]
fn interleaved_texts(rt: HostRuntime) {
    assert_interleaved(&rt, TWO_FORWARD, TWO_REVERSE, TWO_INTERLEAVED);
    assert_interleaved(&rt, SEVEN_FORWARD, SEVEN_REVERSE, ELEVEN_INTERLEAVED);
}

#[test]
fn the_two_pairs_are_the_first_and_the_second(rt: HostRuntime) -> Result<(), Fail> {
    let halves = [
        (FIRST_FORWARD, SECOND_FORWARD, TWO_FORWARD),
        (FIRST_REVERSE, SECOND_REVERSE, TWO_REVERSE),
        (FIRST_WRITTEN.log, SECOND_WRITTEN.log, TWO_WRITTEN.log),
    ];
    for (first, second, both) in halves {
        let mut joined = Vec::from_slice(rt.alloc(), first)?;
        joined.extend_from_slice(second)?;
        assert!(rt; joined.as_slice() == both);
    }
    Ok(())
}

#[test]
fn the_first_of_the_seven_pairs(rt: HostRuntime) {
    assert!(rt; SEVEN_FORWARD.starts_with(SIX_FORWARD));
    assert!(rt; SEVEN_REVERSE.starts_with(FIVE_REVERSE));
    for (first, all) in [
        (FIVE_WRITTEN.forward_paired, SEVEN_WRITTEN.forward_paired),
        (
            FIVE_WRITTEN.forward_unpaired,
            SEVEN_WRITTEN.forward_unpaired,
        ),
        (FIVE_WRITTEN.reverse_paired, SEVEN_WRITTEN.reverse_paired),
        (
            FIVE_WRITTEN.reverse_unpaired,
            SEVEN_WRITTEN.reverse_unpaired,
        ),
        (FIVE_WRITTEN.log, SEVEN_WRITTEN.log),
    ] {
        assert!(rt; all.starts_with(first));
    }
}

#[test]
fn each_record_has_eighteen_bytes(rt: HostRuntime) {
    assert_eq!(rt; TWO_FORWARD.len(), 2 * RECORD);
    assert_eq!(rt; TWO_INTERLEAVED.len(), 4 * RECORD);
    assert_eq!(rt; SEVEN_FORWARD.len(), 7 * RECORD);
    assert_eq!(rt; SEVEN_REVERSE.len(), 7 * RECORD);
    assert_eq!(rt; SIX_FORWARD.len(), 6 * RECORD);
    assert_eq!(rt; FIVE_REVERSE.len(), 5 * RECORD);
    assert_eq!(rt; ELEVEN_INTERLEAVED.len(), 11 * RECORD);
}

#[test]
fn a_source_of_one_record(rt: HostRuntime) -> Result<(), Fail> {
    let mut source = source_of(rt.alloc(), FIRST_FORWARD, Encoding::Sanger)?;
    assert!(rt; source.next()?.is_some());
    assert!(rt; source.next()?.is_none());
    Ok(())
}

#[test]
fn a_read_of_parts(rt: HostRuntime) {
    let read = lawful_read(Encoding::Solexa, b"r", b"AC", b";~");
    assert!(rt;
        read.is_some_and(|r| r.encoding() == Encoding::Solexa && r.seq() == b"AC".as_slice())
    );
    // A sequence may be empty, but must not be longer than its quality.
    assert!(rt; lawful_read(Encoding::Sanger, b"r", b"", b"").is_some());
    assert!(rt; lawful_read(Encoding::Sanger, b"r", b"AC", b"I").is_none());
}
