//! Help texts other than those of single options and arguments. No line that is printed has more
//! than 80 columns.

pub(crate) const ABOUT: &str =
    "Trims paired-end FASTQ reads. Mates stay in step, and the outputs keep the
order of the inputs.";

pub(crate) const ABOUT_PAIRS: &str = "Trims the pairs of two FASTQ files, and prints a summary";

pub(crate) const ABOUT_INTERLEAVED: &str =
    "Trims the pairs of one interleaved FASTQ file, and prints a summary";

pub(crate) const ABOUT_EXAMPLE: &str = "Prints what becomes of two built-in pairs under LEADING:3";

pub(crate) const START: &str = "Start with:
  fq_prog EXAMPLE    shows outputs, trim log and summary of a small run
  fq_prog PE --help  says what each option and each step does
  fq_prog IL --help  says the same for one file in which mates take turns
  tibzharuk --help   says how to trim .gz files and to remove adapters

Example:
  fq_prog PE r1.fq r2.fq \\
    r1.paired.fq r1.unpaired.fq r2.paired.fq r2.unpaired.fq \\
    LEADING:3 TRAILING:3 SLIDINGWINDOW:4:15 MINLEN:36";

// The help of a trimming command: its inputs, the steps, an example, and the exit status.
macro_rules! trimming_help {
    ($inputs:literal, $example:literal) => {
        concat!(
            $inputs,
            "Steps run in the order given, each on what the one before left. t is a Phred
score, m and w are numbers of bases; each is from 0 to 999999999, w at least 1:
  LEADING:t          removes bases from the start until one has a score of at
                     least t
  TRAILING:t         removes bases from the end until one has a score of at
                     least t
  SLIDINGWINDOW:w:t  finds the first window of w bases that averages below t,
                     and cuts after the last base with t or more before that
                     window's last base; without such a window, after the last
                     base with t or more. Keeps nothing of a read that has
                     fewer than w bases or begins with such a window
  CROP:m             keeps the first m bases
  HEADCROP:m         removes the first m bases
  AVGQUAL:t          drops a read whose average score is below t
  MINLEN:m           drops a read of fewer than m bases
  TOPHRED33          writes qualities as score + 33, whatever the encoding of
                     the inputs
A read without bases after a step is dropped. A mate that survives alone goes to
FU or RU.

Example:
",
            $example,
            "
    r1.paired.fq r1.unpaired.fq r2.paired.fq r2.unpaired.fq \\
    LEADING:3 TRAILING:3 SLIDINGWINDOW:4:15 MINLEN:36

Exit status: 0 success; 1 invalid command line; 2 invalid encoding, step,
setting or file name; 3 a fault in an input (the pairs before it are written);
4 a file could not be read, created or written to its end; 5 out of memory;
6 a thread could not be started, or did not end as it should."
        )
    };
}

pub(crate) const PAIRS: &str = trimming_help!(
    "Record k of F and record k of R are mates.

",
    "  fq_prog PE --trimlog trim.log r1.fq r2.fq \\"
);

pub(crate) const INTERLEAVED: &str = trimming_help!(
    "In I mates take turns: the first record is a forward read, the second its
reverse mate, the third a forward read, and so on.

",
    "  fq_prog IL --trimlog trim.log both.fq \\"
);

pub(crate) const EXAMPLE: &str =
    "It reads no file. The four outputs, the trim log and the summary are printed,
each below a label.

Example:
  fq_prog EXAMPLE";
