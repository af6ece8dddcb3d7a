//! Laws of the definitions: functions without parameters, whose contracts hold for every list.

ghost use Rattle.fq_text.specs.Scores.{NamesAreInverse};
ghost use Rattle.fq_text.specs.Written.{ReadsBack};

/// What [`put_record`](crate::put_record) writes reads back as the same record, whatever follows
/// it.
///
/// This holds for each valid record whose title does not end in CR, written as it is or with its
/// scores at offset 33, and for any bytes after it. The first record of the text is this record,
/// with the quality as it was written (in Sanger's encoding if it was recoded). After it come
/// exactly the records of those bytes, up to the same fault.
#[tactic(auto, using(crate::proofs::WrittenLemmas::reads_back))]
pub fn read_back()
    ensures { ReadsBack }
{}

/// [`Encoding::name`](crate::Encoding::name) and [`Encoding::of_name`](crate::Encoding::of_name)
/// are each other's inverse: a text is the name of an encoding exactly if it is taken for it.
#[tactic(auto, using(crate::proofs::ScoreLemmas::names_are_inverse))]
pub fn encoding_names()
    ensures { NamesAreInverse }
{}
